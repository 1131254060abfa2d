//! The tokens that a text is cut into.
use crate::quote::Quote;
use crate::symbols::Symbol;
use crate::word::Word;

#[derive(Drop)]
pub enum Token<'a> {
    Symbol(Symbol),
    Name(Word<'a>),
    /// Digits, by their number; where that is above `u64::MAX`, this number stands for it.
    Number(u64),
    /// A text in quotes, by its value.
    Quoted(Quote<'a>),
    /// A text that isn't closed, is too long, or has a control character.
    BadText,
    /// A word or a character that no statement has.
    Unknown,
}
