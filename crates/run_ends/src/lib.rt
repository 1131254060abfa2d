//! The end of a run: what is left of each node's seat, the links between them gathered, and that the traces of all nodes are
//! those of one history.
#![tactic(auto)]

mod ended;
mod settling;

pub use ended::{Ended, end_of};
pub use settling::settle;
