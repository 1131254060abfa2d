//! What of a condition is still to be written.
use crate::symbols::Symbol;
use seata_types::Cond;

#[derive(Clone, Copy)]
pub enum Task<'a> {
    /// A keyword or a mark.
    Symbol(Symbol),
    /// A part of the condition.
    Part(&'a Cond),
}
