//! The bytes of a disk with a snapshot.

/// A switch behind which a snapshot stands.
pub const OPEN: u8 = 1;

/// A switch or a gate that is not open, as it is written.
pub const CLOSED: u8 = 0;

/// How many bytes of a checkpoint stand before its snapshot: the switch, the generation and the length.
pub const SNAPSHOT_HEAD_BYTES: u64 = 9;

/// The head and the gate behind a snapshot, in bytes.
pub const AROUND: u64 = SNAPSHOT_HEAD_BYTES + 1;
