//! Scenarios made of a number and a size. The number makes draws, each manager has seven of them, and
//! what they say is written as the text of a scenario.
#![tactic(auto)]

mod draws;
pub mod laws;
mod making;
mod plans;

pub use making::make;
