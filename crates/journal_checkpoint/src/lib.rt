//! A journal over two disks. A journal that has grown long is replaced by a snapshot on the other disk, and a crash at any
//! moment of that leaves the old snapshot and records, or the new snapshot and none.
#![tactic(auto)]

mod heads;
mod layout;
mod loading;
mod restarting;
mod twin;
mod types;
mod writing;

pub use layout::SNAPSHOT_HEAD_BYTES;
pub use twin::Twin;
pub use types::{Found, TwinError};
