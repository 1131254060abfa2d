//! The links of a run: which nodes are linked, both ends of each link, node by node, and what each node goes by.
#![tactic(auto)]

mod joining;
mod linking;
pub mod links;
pub mod plans;

pub use linking::link_nodes;
pub use links::{NodeLinks, RunLinks};
pub use plans::plan_of;
