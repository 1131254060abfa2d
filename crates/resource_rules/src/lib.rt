//! The rules of a resource as pure functions: what it is, what it knows and the local transactions that it has open give the step
//! that it answers with, the record that this asks for, and what becomes of its open tickets.
#![tactic(auto)]

mod answers;
mod asked;
mod at_ends;
mod callers;
mod calls;
mod changes;
mod grants;
pub mod laws;
mod locals;
mod lookups;
mod meanings;
mod requests;
mod rows;
mod ruling;
mod setups;
mod tcc_ends;
mod telling;
mod turns;

pub use answers::{Answer, Change};
pub use at_ends::{at_commit, at_rollback};
pub use changes::follow;
pub use grants::{conflict_act, granted};
pub use locals::{local_answered, outside_for};
pub use lookups::{call_at, local_at};
pub use ruling::answer;
pub use setups::Setup;
pub use tcc_ends::{cancel_for, confirm_for};
pub use telling::durable_of;
