//! Why bytes are no frame.

/// The first fault, in the order in which the tests are made.
#[derive(Clone, Copy, Debug, PartialEq, Eq)]
pub enum FrameError {
    /// Fewer bytes than the head or the whole frame needs.
    Short { need: usize },
    /// The first two bytes aren't `da da`.
    Magic,
    /// The version isn't 2.
    Version,
    /// The head's length isn't 16, or the frame's is below 18 or above 1,048,592.
    Length,
    /// A compressor is named, and none is known.
    Compressed(u8),
    /// No message that can be read has this type code.
    UnknownType(u16),
    /// The kind (9) or codec (10) is wrong, a field at this place of the frame can't be read, or
    /// the fields end here and the frame doesn't.
    Body { at: usize },
    /// Memory was refused. The bytes may begin with a frame or not.
    NoMemory,
}
