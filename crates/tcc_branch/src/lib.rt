//! The branches of TCC mode at a resource: a call opens a ticket of no rows, its grant runs the Try, and in the second phase the
//! Confirm or the Cancel runs, each behind the branch's fence. Each call is a line of a resource's rules.
#![tactic(auto)]

pub mod answers;
mod first_phase;
mod second_phase;

pub use answers::{TccAnswer, TryAnswer};
pub use first_phase::{on_grant, prepare};
pub use second_phase::{cancel, confirm};
