//! What a resource's disks keep, as bytes both ways: the records of its journal, and the snapshot that a checkpoint writes
//! in their place. Older layouts are read and never written. The layouts are this project's own.
#![tactic(auto)]

mod checks;
mod errors;
mod records;
mod snapshots;
mod states;
mod tags;
mod writing;

pub use checks::may_come;
pub use errors::{RecordError, SnapshotError};
pub use records::read_record;
pub use snapshots::read_snapshot;
pub use states::{FenceItem, ResourceSnapshot, UndoItem};
pub use writing::{write_record, write_snapshot};
