//! Which transaction of the coordinator is due next: each transaction in its second phase is planned for a moment, and the
//! one with the least moment goes first. The rule is this project's own; Seata retries by a timer.
#![tactic(auto)]

mod queue;
mod turns;

pub use turns::Turns;
