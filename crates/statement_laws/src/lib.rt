//! Laws of the statements' language: how the canonical text of a statement compares with the texts that read as it.
//! The functions are theorems over the definitions of `sql_reader`; their contracts are the laws. `tell_stmt` alone
//! has code: it looks at the texts of a statement, whose types say more of them than contracts see.
#![tactic(auto)]

pub mod laws;
mod parts;
mod texts;

pub use texts::tell_stmt;
