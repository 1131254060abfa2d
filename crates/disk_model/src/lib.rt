//! A disk with its crashes: which bytes a read gives, which a crash may leave, and when a call fails.
//! Disks in memory keep this contract, and `Stoppable` lets any of them fail at a chosen call.
#![tactic(auto)]

mod bytes;
mod disk;
mod errors;
mod lazy;
mod memory;
mod pending;
mod saved;
mod shelf;
mod stoppable;
mod traced;

pub use bytes::{append, zeros};
pub use disk::{Disk, LAST_PICK};
pub use errors::{Failed, NoMemory, ShelfError};
pub use memory::MemDisk;
pub use shelf::{MemShelf, Shelf};
pub use stoppable::{Stop, Stoppable};
pub use traced::TracedDisk;
