//! The coordinator in the judge of printed histories: what its own entries left, and whether the act of the next one may be done.
#![tactic(auto)]

pub mod coordinators;
pub mod desks;

pub use desks::Desk;
