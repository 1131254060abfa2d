//! What a resource knows, on two disks: each change is one record, which the disks have before the change is answered. After
//! a crash they give back the records, or these and the one that was being written.
#![tactic(auto)]

pub mod laws;
mod machine;
mod store;

pub use machine::ResourceMachine;
pub use store::Store;
