//! Replays: the nodes of a scenario on disks of a shelf, which take the steps of its schedule one by one, and the history that
//! this makes.
#![tactic(auto)]

mod closings;
mod collecting;
mod members;
mod messages;
mod nodes;
mod openings;
mod receivers;
mod replays;
mod runs;

pub use node_seat::RunFault;
pub use replays::replay;
