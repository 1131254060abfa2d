//! A text kept on a disk of its own, in the records of a journal: what is there is compared, and what is missing is added.
#![tactic(auto)]

mod errors;
mod keeping;
mod marks;

pub use errors::BaseError;
pub use keeping::keep;
