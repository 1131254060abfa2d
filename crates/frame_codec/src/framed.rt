//! What comes of frames that are read in pieces.

use crate::errors::FrameError;
use seata_types::{List, Message};

/// A frame that was found: its place in all bytes that were fed, and what it carries.
#[derive(Drop)]
pub struct Framed {
    pub at: u64,
    pub message: Message,
    pub stamp: u32,
}

/// Why a piece gives no frames alone.
#[derive(Drop)]
pub enum FeedError {
    /// No frame begins at this place of all bytes that were fed, whatever follows. The frames of
    /// this piece before it come with the first such answer.
    Bad {
        at: u64,
        why: FrameError,
        before: List<Framed>,
    },
    /// Memory was refused. The piece isn't taken.
    NoMemory,
}
