//! The transaction coordinator: it begins, decides and finishes global transactions, registers their branches and has them
//! committed or rolled back. `Coordinator` is a node of `node_steps`; it answers by `coordinator_rules`, and keeps on its disks what
//! an answer asks for.
#![tactic(auto)]

mod asking;
mod counting;
pub mod nodes;
mod table;
mod taking;

pub use nodes::Coordinator;
