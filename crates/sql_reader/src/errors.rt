//! Why a text is no statement.
ghost use Rattle.std.specs.Prelude.{◌≡◌};
ghost use Rattle.sql_reader.specs.declared.errors.Stop.TheVariants as stop;

use seata_types::NoMemory;
use std::alloc::{AllocError, AllocFailed};

/// What is wrong with the first token that can't stand where it stands.
#[derive(Clone, Copy, PartialEq, Eq, Debug)]
pub enum SqlKind {
    /// No statement has such a token, or such a character, at this place; whatever else is wrong
    /// with it.
    Token,
    /// The text ends before the statement does.
    End,
    /// A number outside the signed numbers of 64 bits; a sign before it is part of it.
    Number,
    /// A text that isn't closed, has more than 120 bytes, or has a control character.
    Text,
    /// A NOT or a parenthesis inside 16 others that are open.
    Depth,
}

/// The answer to a text that gives no statement.
#[derive(Clone, Copy, PartialEq, Eq, Debug)]
pub enum SqlError {
    /// The text isn't in the grammar. `at` is the place in bytes of the first token from the left
    /// that can't stand there; the length of the text, where it ends too early.
    Refused { at: usize, kind: SqlKind },
    /// Memory was refused.
    NoMemory,
}

/// A refusal inside the list of tokens.
#[derive(Clone, Copy)]
pub struct Refusal {
    pub kind: SqlKind,
    /// The tokens from the refused one on.
    pub left: usize,
}

/// Why a production gives nothing.
#[derive(Clone, Copy)]
pub enum Stop {
    Refused(Refusal),
    NoMemory,
}

impl From<NoMemory> for Stop {
    ghost from_gives = { λ _ e. e ≡ stop.NoMemory };

    fn from(_refused: NoMemory) -> Stop {
        Stop::NoMemory
    }
}

impl From<AllocError> for Stop {
    ghost from_gives = { λ _ e. e ≡ stop.NoMemory };

    fn from(_refused: AllocError) -> Stop {
        Stop::NoMemory
    }
}

impl<T: Drop> From<AllocFailed<T>> for Stop {
    ghost from_gives = { λ _ e. e ≡ stop.NoMemory };

    fn from(_refused: AllocFailed<T>) -> Stop {
        Stop::NoMemory
    }
}
