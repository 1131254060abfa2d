//! What a coordinator knows of its transactions while it runs: the snapshot of its records, with the table of global locks
//! beside it. Each kind of record changes it in one place, and whether a record may come is asked of it.
#![tactic(auto)]

mod allowing;
mod ends;
mod errors;
mod grants;
pub mod laws;
mod loading;
mod lookups;
mod memory;
mod owners;
mod sessions;
mod snapshots;
pub mod statuses;
pub mod uncounted;

pub use errors::LoadError;
pub use grants::granted;
pub use memory::Memory;
