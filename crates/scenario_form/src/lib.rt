//! Scenarios: what the program runs, and what holds of each that reading gives (`IsRunnable`), without
//! the JSON that they are read from.
#![tactic(auto)]

pub mod scenarios;

pub use scenarios::{ManagerDef, ResourceDef, Scenario, ScheduleItem};
