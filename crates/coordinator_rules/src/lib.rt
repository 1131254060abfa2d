//! The rules of the coordinator as pure functions: what it knows of its transactions and the moments that it goes by give the step
//! that it answers with, the record that this asks for, and which transaction is due again.
#![tactic(auto)]

mod answering;
mod answers;
mod choosing;
mod deciding;
mod kinds;
mod moments;
mod questions;
mod registering;
mod ruling;
mod starting;
mod statuses;
mod telling;
mod turning;
pub mod uncounted;

pub use answers::Answer;
pub use moments::Moments;
pub use ruling::answer;
pub use starting::{start_of, started};
pub use turning::turn;
