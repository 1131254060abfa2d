//! What a node does at each step: the trait of the nodes that make a history, what it promises in the words of the rules of all
//! nodes, and what the two disks of a node stand for.
#![tactic(auto)]

pub mod nodes;
pub mod steps;

pub use nodes::Node;
pub use steps::{sends, still};
