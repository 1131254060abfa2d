//! What an end of a link knows.
use frame_codec::Packet;
use std::collections::LinkedList;

/// Whether an end may push and take, and what it pushed and took, the oldest first. No value of it is made.
pub struct Known {
    pub pushes: bool,
    pub takes: bool,
    pub pushed: LinkedList<Packet>,
    pub taken: LinkedList<Packet>,
}
