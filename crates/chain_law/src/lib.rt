//! That calls of a scenario one after the other, on disks that each gave back, are a chain: what one leaves on disks that tell
//! their bytes, the next one may begin with. All of it is in `specs/`; the functions here are theorems.
#![tactic(auto)]

pub mod laws;
