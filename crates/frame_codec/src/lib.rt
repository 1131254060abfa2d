//! Messages as frames, both ways. A frame is a head of sixteen bytes, after Seata's protocol, and
//! a body: the message's type code, after Seata's, and its fields, in this project's own layout.
//! What is encoded is decoded again whatever follows it, and nothing else is decoded.
#![tactic(auto)]

mod bodies;
mod codes;
mod decoding;
mod encoding;
mod errors;
mod feed;
mod framed;
mod head;
mod laws;
mod packet;
mod parts;
mod putting;
mod scanning;
mod works;

pub use decoding::decode;
pub use errors::FrameError;
pub use feed::FrameFeed;
pub use framed::{FeedError, Framed};
pub use head::HEAD_BYTES;
pub use laws::{frames_of_pieces_join, statements_are_their_canonical_texts};
pub use packet::{Packet, encode};
