//! The safety law: what holds of every legal history of the coordinator, the resources and the managers, over disks without
//! records and, of nearly all of it, over what earlier histories of a chain left on them. All of it is in `specs/`; the functions here are theorems, whose contracts are its parts.
#![tactic(auto)]

pub mod laws;
