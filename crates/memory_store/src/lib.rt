//! What a node knows, in memory and on two disks: each record that it takes in changes the memory by one rule, and stands on
//! the disks until a snapshot of the memory does. It is written once for all kinds of records.
#![tactic(auto)]

mod errors;
mod machine;
mod reading;
mod settling;
mod store;

pub use errors::ReadError;
pub use machine::StateMachine;
pub use store::Store;
