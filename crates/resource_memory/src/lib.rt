//! What a resource knows while it runs, as its records say it: its rows, its undo log, the fences of its branches and the
//! calls that they were tried for. Each kind of record changes it in one place, whether a record may come is asked of it,
//! and it is written as a snapshot and read from one.
#![tactic(auto)]

mod fitting;
pub mod laws;
mod loading;
mod memory;
mod parts;
mod saving;
mod tried;

pub use memory::Memory;
