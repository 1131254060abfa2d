//! A scenario run by its nodes alone, on worker threads: the traces of the nodes merge to one legal history, and the disks of
//! all nodes are given back however the run ends.
#![tactic(auto)]

mod closings;
mod openings;
mod outfits;
mod runs;

pub use node_seat::RunFault;
pub use run_rounds::{Gate, OpenGate};
pub use runs::run;
