//! The bytes of a journal.
use seata_types::limits::BODY_BYTES;

/// A gate behind which a record stands.
pub const OPEN: u8 = 1;

/// A gate that ends a journal, as it is written. Each value but `OPEN` is read so.
pub const CLOSED: u8 = 0;

/// How many bytes of a record stand before its body: the gate and the length.
pub const RECORD_HEAD_BYTES: u64 = 5;

/// A record of an empty body, with the next gate, in bytes.
pub const SHORTEST: u64 = RECORD_HEAD_BYTES + 1;

/// The greatest record, in bytes.
pub const GREATEST: usize = BODY_BYTES + RECORD_HEAD_BYTES as usize;
