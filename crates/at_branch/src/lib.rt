//! The branches of AT mode at a resource: a call opens a local transaction and waits for the global lock, its grant commits it
//! locally with an undo record, and in the second phase the undo record is cleared or undone. Each call is a line of a
//! resource's rules.
#![tactic(auto)]

pub mod answers;
mod first_phase;
mod second_phase;

pub use answers::{Committed, Conflicted, Granted, Rolled};
pub use first_phase::{on_conflict, on_grant, phase_one};
pub use second_phase::{commit, rollback};
