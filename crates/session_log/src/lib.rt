//! What the coordinator's disks keep, as bytes both ways: the records of its journal, and the snapshot that a checkpoint
//! writes in their place. Older layouts are read and never written. The layouts are this project's own.
#![tactic(auto)]

mod checks;
mod errors;
mod keys;
mod layouts;
mod records;
mod sessions;
mod snapshots;
mod tags;
mod writing;

pub use errors::{RecordError, SnapshotError};
pub use keys::{CallKey, TicketKey};
pub use layouts::SnapshotLayout;
pub use records::read_record;
pub use sessions::{Branch, Forgotten, RegisterPlace, Session, SessionEntry, Snapshot};
pub use snapshots::read_snapshot;
pub use writing::{write_record, write_snapshot};
