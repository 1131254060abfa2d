//! Names, literals and sums.
ghost use Rattle.std.specs.Prelude.{◌≡◌, [], length, Ok};
ghost use Rattle.sql_reader.specs.Parsing.{Reads, ReadsAs};
ghost use Rattle.sql_reader.specs.Grammar as spec;

use crate::cursor::Cursor;
use crate::errors::{SqlKind, Stop};
use crate::symbols::Symbol;
use crate::tokens::Token;
use seata_types::{Expr, List, Sign, Term, Text, Value};
use std::alloc::Global;

#[inline(always)]
#[tactic(auto, unfolding(crate::specs::Grammar::name))]
pub fn name(alloc: Global, tokens: &mut Cursor<'_>) -> Result<Text, Stop>
    ensures { Reads (spec.name tokens.old) result tokens.new }
{
    let [first, rest @ ..] = tokens.rest() else {
        return Err(tokens.unexpected());
    };
    match first {
        Token::Name(found) => {
            let name = found.to_text(alloc)?;
            tokens.go_on(rest);
            Ok(name)
        }
        _ => Err(tokens.unexpected()),
    }
}

#[inline(always)]
#[tactic(auto, unfolding(crate::specs::Grammar::literal))]
pub fn literal(alloc: Global, tokens: &mut Cursor<'_>) -> Result<Value, Stop>
    ensures { Reads (spec.literal tokens.old) result tokens.new }
{
    let [first, rest @ ..] = tokens.rest() else {
        return Err(tokens.unexpected());
    };
    match first {
        Token::Number(number) => {
            let Ok(number) = i64::try_from(*number) else {
                return Err(tokens.refused(SqlKind::Number));
            };
            tokens.go_on(rest);
            Ok(Value::Int(number))
        }
        Token::Symbol(Symbol::Minus) => negative(tokens, rest),
        Token::Quoted(found) => {
            let text = found.to_text(alloc)?;
            tokens.go_on(rest);
            Ok(Value::Text(text))
        }
        Token::BadText => Err(tokens.refused(SqlKind::Text)),
        _ => Err(tokens.unexpected()),
    }
}

/// The number behind a sign. The cursor stands at the sign, which a refused number includes.
fn negative<'a>(tokens: &mut Cursor<'a>, digits: &'a [Token<'a>]) -> Result<Value, Stop>
    ensures { Reads (spec.negative tokens.old digits.now) result tokens.new }
{
    let [first, rest @ ..] = digits else {
        tokens.go_on(digits);
        return Err(tokens.unexpected());
    };
    let Token::Number(number) = first else {
        tokens.go_on(digits);
        return Err(tokens.unexpected());
    };
    let Some(number) = 0i64.checked_sub_unsigned(*number) else {
        return Err(tokens.refused(SqlKind::Number));
    };
    tokens.go_on(rest);
    Ok(Value::Int(number))
}

#[tactic(auto, unfolding(crate::specs::Grammar::term))]
pub fn term(alloc: Global, tokens: &mut Cursor<'_>) -> Result<Term, Stop>
    ensures { Reads (spec.term tokens.old) result tokens.new }
{
    let [first, rest @ ..] = tokens.rest() else {
        return Err(tokens.unexpected());
    };
    match first {
        Token::Name(found) => {
            let column = found.to_text(alloc)?;
            tokens.go_on(rest);
            Ok(Term::Column(column))
        }
        _ => Ok(Term::Lit(literal(alloc, tokens)?)),
    }
}

#[tactic(auto, unfolding(crate::specs::Grammar::expr, crate::specs::Grammar::more_terms))]
pub fn expr(alloc: Global, tokens: &mut Cursor<'_>) -> Result<Expr, Stop>
    ensures { Reads (spec.expr tokens.old) result tokens.new }
{
    let first = term(alloc, tokens)?;
    let rest = more_terms(alloc, tokens)?;
    Ok(Expr {
        first,
        rest: List::of(rest),
    })
}

/// Takes a plus or a minus, if one stands next.
#[tactic(auto, unfolding(crate::specs::Grammar::plus_or_minus))]
fn plus_or_minus(tokens: &mut Cursor<'_>) -> Option<Sign>
    ensures { spec.plus_or_minus tokens.old ≡ Ok (result, tokens.new) }
{
    let [first, rest @ ..] = tokens.rest() else {
        return None;
    };
    let sign = match first {
        Token::Symbol(Symbol::Plus) => Sign::Plus,
        Token::Symbol(Symbol::Minus) => Sign::Minus,
        _ => return None,
    };
    tokens.go_on(rest);
    Some(sign)
}

/// The terms behind the first, each with its sign.
fn more_terms(alloc: Global, tokens: &mut Cursor<'_>) -> Result<Vec<(Sign, Term)>, Stop>
    ensures { ReadsAs (λ v. v.items) (spec.more_terms (length tokens.old) [] tokens.old) result tokens.new }
{
    let mut terms = Vec::new(alloc);
    for _turn in 0..tokens.left() {
        let Some(sign) = plus_or_minus(tokens) else {
            return Ok(terms);
        };
        let next = term(alloc, tokens)?;
        terms.push((sign, next))?;
    }
    Ok(terms)
}
