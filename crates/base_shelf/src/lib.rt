//! The disk `net` of a shelf, which keeps the text of a scenario: what is there is compared with the text of this one, what is
//! missing is added, and the disk is given back.
#![tactic(auto)]

mod keeping;

pub use keeping::{NET_DISK, keep_base, not_had};
