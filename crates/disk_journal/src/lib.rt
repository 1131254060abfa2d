//! A journal on a disk: a record that was acknowledged is in every image that a crash may leave, and a record in flight
//! is there whole or not at all. No checksum is needed, since a record counts from the write of one byte, its gate.
#![tactic(auto)]

mod device;
mod errors;
mod journal;
mod layout;
mod opening;

pub use device::{read, write_through};
pub use errors::{AppendError, JournalError};
pub use journal::Journal;
pub use layout::RECORD_HEAD_BYTES;
