//! A node with its trace and the ends of its links: each entry of the trace was made by the node, by the rules of all nodes,
//! the node is what the trace replays to, and what went over its links is what the trace received and sent.
#![tactic(auto)]

pub mod entering;
pub mod faults;
mod hearing;
pub mod names;
mod offering;
pub mod places;
pub mod plans;
mod reacting;
pub mod seats;
mod stations;
mod taking;
pub mod turned;

pub use entering::enter;
pub use faults::{RunFault, open_fault};
pub use names::RunName;
pub use places::is_same;
pub use plans::Plan;
pub use seats::Seat;
pub use turned::Turned;
