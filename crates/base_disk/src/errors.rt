//! Why a text is not kept on a disk.
use seata_types::Full;

/// Why a text is not kept on a disk: the disk failed; its bytes are no journal, with the offset of the damage; a record of the
/// text doesn't fit; the records there are those of another text; or memory was refused.
#[derive(Clone, Copy)]
pub enum BaseError {
    Failed,
    Damaged { at: u64 },
    Full(Full),
    Other,
    NoMemory,
}
