//! Why bytes give nothing.

/// Why bytes are not read as a record or as a memory.
#[derive(Clone, Copy, Debug, PartialEq, Eq)]
pub enum ReadError {
    /// They are none that may stand there.
    Damaged,
    /// Memory was refused. The bytes may be one or not.
    NoMemory,
}
