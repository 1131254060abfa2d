//! A transaction manager: it begins one global transaction, makes its calls one after the other, and ends it.
//! `Manager` is a node of `node_steps`; it answers by `manager_rules`.
#![tactic(auto)]

pub mod nodes;
mod speakers;

pub use nodes::Manager;
