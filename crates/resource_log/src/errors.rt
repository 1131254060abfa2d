//! Why bytes could not be read.

#[derive(Clone, Copy, Debug, PartialEq, Eq)]
pub enum RecordError {
    /// The bytes are no record.
    BadRecord,
    /// Memory was refused. The bytes may be a record or not.
    NoMemory,
}

#[derive(Clone, Copy, Debug, PartialEq, Eq)]
pub enum SnapshotError {
    /// The bytes are no snapshot, or one that no resource with such tables can have written.
    Damaged,
    /// Memory was refused. The bytes may be a snapshot or not.
    NoMemory,
}
