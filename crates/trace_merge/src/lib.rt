//! The one history of the traces of nodes: all their entries by stamp, and those of one stamp by place.
#![tactic(auto)]

pub mod laws;
mod merging;

pub use merging::merge;
