//! The head of a frame.

/// Bytes of the head.
pub const HEAD_BYTES: usize = 16;

/// The first two bytes of a frame.
pub(crate) const MAGIC: u16 = 0xdada;
/// The one version.
pub(crate) const VERSION: u8 = 2;
/// The one codec.
pub(crate) const CODEC: u8 = 1;
/// Where the kind stands in the head.
pub(crate) const KIND_PLACE: usize = 9;
/// Where the codec stands in the head.
pub(crate) const CODEC_PLACE: usize = 10;

/// What the head says: the frame's full length, the head's own, whether the message asks (0) or
/// answers (1), and the stamp of the entry that sent it.
#[derive(Clone, Copy)]
pub(crate) struct Head {
    pub magic: u16,
    pub version: u8,
    pub full: u32,
    pub size: u16,
    pub kind: u8,
    pub codec: u8,
    pub compressor: u8,
    pub stamp: u32,
}
