//! A manager in the judge of printed histories: what its own entries left, and whether the act of the next one may be done.
#![tactic(auto)]

pub mod talks;

pub use talks::Talk;
