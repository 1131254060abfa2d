//! Conditions.
ghost use Rattle.std.specs.Prelude.{◌≡◌};
ghost use Rattle.sql_reader.specs.Parsing.{Reads};
ghost use Rattle.sql_reader.specs.Grammar as spec;

use crate::cursor::Cursor;
use crate::errors::{SqlKind, Stop};
use crate::parts::{literal, name};
use crate::symbols::Symbol;
use crate::tokens::Token;
use seata_types::limits::NESTING;
use seata_types::{Cond, Op};
use std::alloc::Global;

fn op_of(symbol: Symbol) -> Option<Op>
    ensures { result ≡ spec.op_of symbol }
{
    match symbol {
        Symbol::Equal => Some(Op::Eq),
        Symbol::NotEqual => Some(Op::Ne),
        Symbol::Less => Some(Op::Lt),
        Symbol::LessOrEqual => Some(Op::Le),
        Symbol::Greater => Some(Op::Gt),
        Symbol::GreaterOrEqual => Some(Op::Ge),
        _ => None,
    }
}

#[tactic(auto, unfolding(crate::specs::Grammar::operator))]
fn operator(tokens: &mut Cursor<'_>) -> Result<Op, Stop>
    ensures { Reads (spec.operator tokens.old) result tokens.new }
{
    let [first, rest @ ..] = tokens.rest() else {
        return Err(tokens.unexpected());
    };
    let Token::Symbol(symbol) = first else {
        return Err(tokens.unexpected());
    };
    let Some(op) = op_of(*symbol) else {
        return Err(tokens.unexpected());
    };
    tokens.go_on(rest);
    Ok(op)
}

#[inline(always)]
#[tactic(auto, unfolding(crate::specs::Grammar::comparison))]
fn comparison(alloc: Global, tokens: &mut Cursor<'_>) -> Result<Cond, Stop>
    ensures { Reads (spec.comparison tokens.old) result tokens.new }
{
    let column = name(alloc, tokens)?;
    let op = operator(tokens)?;
    let value = literal(alloc, tokens)?;
    Ok(Cond::cmp(column, op, value))
}

/// A fact where no further NOT or parenthesis may be open.
#[tactic(auto, unfolding(crate::specs::Grammar::innermost))]
fn innermost(alloc: Global, tokens: &mut Cursor<'_>) -> Result<Cond, Stop>
    ensures { Reads (spec.innermost tokens.old) result tokens.new }
{
    if tokens.sees(Symbol::Not) || tokens.sees(Symbol::Open) {
        return Err(tokens.refused(SqlKind::Depth));
    }
    comparison(alloc, tokens)
}

/// A fact where `room` further NOT and parentheses may be open.
// Inlined as far as conditions aren't nested, so that a condition is made where it will stand.
#[cycle(condition)]
#[inline(always)]
#[tactic(auto, unfolding(crate::specs::Grammar::fact))]
fn fact(alloc: Global, tokens: &mut Cursor<'_>, room: usize) -> Result<Cond, Stop>
    ensures { Reads (spec.fact room tokens.old) result tokens.new }
{
    if room == 0 {
        return innermost(alloc, tokens);
    }
    if tokens.eat(Symbol::Not) {
        let inner = fact(alloc, tokens, room - 1)?;
        return Ok(Cond::not(alloc, inner)?);
    }
    if tokens.eat(Symbol::Open) {
        let inner = disjunction(alloc, tokens, room - 1)?;
        tokens.expect(Symbol::Close)?;
        return Ok(inner);
    }
    comparison(alloc, tokens)
}

/// Facts joined by AND, from the left.
#[cycle(condition)]
#[inline(always)]
#[tactic(auto, unfolding(crate::specs::Grammar::conjunction, crate::specs::Parsing::more))]
fn conjunction(alloc: Global, tokens: &mut Cursor<'_>, room: usize) -> Result<Cond, Stop>
    ensures { Reads (spec.conjunction (spec.fact room) tokens.old) result tokens.new }
{
    let mut all = fact(alloc, tokens, room)?;
    for _turn in 0..tokens.left() {
        if !tokens.eat(Symbol::And) {
            return Ok(all);
        }
        let next = fact(alloc, tokens, room)?;
        all = Cond::and(alloc, all, next)?;
    }
    Ok(all)
}

/// Such conjunctions joined by OR, from the left.
#[cycle(condition)]
#[tactic(auto, unfolding(crate::specs::Grammar::disjunction, crate::specs::Parsing::more))]
fn disjunction(alloc: Global, tokens: &mut Cursor<'_>, room: usize) -> Result<Cond, Stop>
    ensures { Reads (spec.disjunction (spec.fact room) tokens.old) result tokens.new }
{
    let mut any = conjunction(alloc, tokens, room)?;
    for _turn in 0..tokens.left() {
        if !tokens.eat(Symbol::Or) {
            return Ok(any);
        }
        let next = conjunction(alloc, tokens, room)?;
        any = Cond::or(alloc, any, next)?;
    }
    Ok(any)
}

#[tactic(auto, unfolding(crate::specs::Grammar::cond))]
fn cond(alloc: Global, tokens: &mut Cursor<'_>) -> Result<Cond, Stop>
    ensures { Reads (spec.cond tokens.old) result tokens.new }
{
    disjunction(alloc, tokens, NESTING)
}

/// The condition behind WHERE, if that stands next.
#[tactic(auto, unfolding(crate::specs::Grammar::filter))]
pub fn filter(alloc: Global, tokens: &mut Cursor<'_>) -> Result<Option<Cond>, Stop>
    ensures { Reads (spec.filter tokens.old) result tokens.new }
{
    if tokens.eat(Symbol::Where) {
        Ok(Some(cond(alloc, tokens)?))
    } else {
        Ok(None)
    }
}
