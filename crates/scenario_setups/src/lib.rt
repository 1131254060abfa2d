//! What a resource of a scenario is, beside its tables: the TCC actions of all calls of it, and its local transactions, each behind its
//! numbers. Its node is set up by this, and so is the judge of its histories.
#![tactic(auto)]

mod setups;

pub use setups::{put, setup_of};
