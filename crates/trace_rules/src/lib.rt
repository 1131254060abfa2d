//! Traces: the entries of one node, and which are legal for it alone; what went over links; what a node of a run does by
//! itself; and the one history of all nodes that traces merge to. All of it is in `specs/`; the functions here are
//! theorems.
#![tactic(auto)]

pub mod examples;
pub mod laws;
