//! The statements of the resources as text: `read_stmt` reads exactly one grammar, and `write_stmt`
//! writes a statement's one canonical text, which reads as that statement. Definitions: `specs/Lexing`
//! (tokens), `specs/Grammar` (productions), `specs/Answer` (the reading), `specs/Canonical` (the text).
#![tactic(auto)]

mod bytes;
mod conditions;
mod cursor;
mod errors;
mod laws;
mod lexing;
mod lists;
mod parts;
mod quote;
mod reading;
mod statements;
mod symbols;
mod tasks;
mod tokens;
mod word;
mod writer;
mod writing;

pub use errors::{SqlError, SqlKind};
pub use laws::{
    canonical_texts_read_back, conditions_are_spelled, keywords_read_alike,
    parentheses_change_nothing, what_is_read_can_be_written,
};
pub use reading::{StmtReader, read_stmt};
pub use writing::write_stmt;
