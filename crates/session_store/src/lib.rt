//! What a coordinator knows of its transactions, on two disks: each change is one record, which the disks have before the
//! change is answered. After a crash they give back the records, or these and the one that was being written.
#![tactic(auto)]

mod checks;
mod errors;
pub mod laws;
mod lookups;
mod machine;
mod registering;
mod sessions;

pub use errors::RegisterError;
pub use machine::SessionMachine;
pub use sessions::Sessions;
