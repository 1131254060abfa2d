//! Tests of the disks, of the journal and of the two disks with checkpoints, over their public calls.
#![tactic(auto)]

mod arming;
#[cfg(test)]
mod disks;
#[cfg(test)]
mod files;
#[cfg(test)]
mod journals;
#[cfg(test)]
mod samples;
#[cfg(test)]
mod texts;
#[cfg(test)]
mod twins;

pub use arming::{arm_active, arm_other};
