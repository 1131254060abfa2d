//! A place in a list of tokens.
ghost use Rattle.std.specs.Prelude.{◌≡◌, length, true, false};
ghost use Rattle.sql_reader.specs.Parsing as spec;
ghost use Rattle.sql_reader.specs.Parsing.{Reads};

use crate::errors::{Refusal, SqlKind, Stop};
use crate::symbols::Symbol;
use crate::tokens::Token;
use std::marker::Model;

/// The tokens that are left. Contracts see their list.
#[derive(Drop)]
pub struct Cursor<'a> {
    rest: &'a [Token<'a>],
}

impl<'a> Model for Cursor<'a> {
    ghost use Rattle.std.specs.Prelude.{List as Items};
    ghost use Rattle.sql_reader.specs.declared.tokens.Token.{Token};

    ghost Value = { Items Token };

    ghost view = { λ c. c.rest.now };
}

impl<'a> Cursor<'a> {
    pub fn new(tokens: &'a [Token<'a>]) -> Cursor<'a>
        ensures { result ≡ tokens.now }
    {
        Cursor { rest: tokens }
    }

    /// The tokens that are left.
    pub fn rest(&self) -> &'a [Token<'a>]
        ensures { result.now ≡ self.now }
    {
        self.rest
    }

    /// How many tokens are left: as many turns are enough for a repetition, since each takes one.
    pub fn left(&self) -> usize
        ensures { result ≡ length self.now }
    {
        self.rest.len()
    }

    /// Goes on with these.
    pub fn go_on(&mut self, rest: &'a [Token<'a>])
        ensures { self.new ≡ rest.now }
    {
        self.rest = rest;
    }

    /// The refusal of the first token that is left.
    pub fn refused(&self, kind: SqlKind) -> Stop
        ensures { result ≡ Stop.Refused (record { kind = kind; left = length self.now }) }
    {
        Stop::Refused(Refusal {
            kind,
            left: self.left(),
        })
    }

    /// The refusal of a token that no statement has here, or of the end.
    pub fn unexpected(&self) -> Stop
        ensures { result ≡ Stop.Refused (record { kind = spec.missing self.now; left = length self.now }) }
    {
        match self.rest {
            [] => self.refused(SqlKind::End),
            [_, ..] => self.refused(SqlKind::Token),
        }
    }

    /// Whether this symbol stands next.
    #[tactic(auto, unfolding(crate::specs::Parsing::sees))]
    pub fn sees(&self, wanted: Symbol) -> bool
        ensures { result ≡ spec.sees wanted self.now }
    {
        match self.rest {
            [first, ..] => is_symbol(first, wanted),
            [] => false,
        }
    }

    /// Takes this symbol, if it stands next.
    #[tactic(auto, unfolding(crate::specs::Parsing::sees, crate::specs::Parsing::past))]
    pub fn eat(&mut self, wanted: Symbol) -> bool
        ensures found { result ≡ spec.sees wanted self.old }
        ensures rest { self.new ≡ spec.past wanted self.old }
    {
        match self.rest {
            [first, rest @ ..] => {
                if !is_symbol(first, wanted) {
                    return false;
                }
                self.rest = rest;
                true
            }
            [] => false,
        }
    }

    /// Takes this symbol, which has to stand next.
    #[tactic(auto, unfolding(crate::specs::Parsing::expect, crate::specs::Parsing::past))]
    pub fn expect(&mut self, wanted: Symbol) -> Result<(), Stop>
        ensures { Reads (spec.expect wanted self.old) result self.new }
    {
        if self.eat(wanted) {
            Ok(())
        } else {
            Err(self.unexpected())
        }
    }

    /// No token may be left.
    #[tactic(auto, unfolding(crate::specs::Parsing::end))]
    pub fn end(&mut self) -> Result<(), Stop>
        ensures { Reads (spec.end self.old) result self.new }
    {
        match self.rest {
            [] => Ok(()),
            [_, ..] => Err(self.unexpected()),
        }
    }
}

#[tactic(auto, unfolding(crate::specs::Parsing::same_symbol))]
fn same_symbol(a: Symbol, b: Symbol) -> bool
    ensures { result ≡ spec.same_symbol a b }
{
    a == b
}

/// Whether a token is this symbol.
fn is_symbol(token: &Token<'_>, wanted: Symbol) -> bool
    ensures { result ≡ spec.is_symbol wanted token.now }
{
    match token {
        Token::Symbol(found) => same_symbol(*found, wanted),
        _ => false,
    }
}
