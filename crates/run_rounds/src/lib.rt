//! The rounds of a run: workers in threads of their own make turns at the seats of all nodes, each of which lies behind a lock
//! while a round is made, until the run has ended or a seat answered a fault.
#![tactic(auto)]

pub mod begun;
mod courses;
mod ends;
pub mod gates;
mod locks;
pub mod rounds;
pub mod seats;
mod work;

pub use begun::Begun;
pub use gates::{Gate, OpenGate};
pub use rounds::make_rounds;
pub use seats::Seats;
