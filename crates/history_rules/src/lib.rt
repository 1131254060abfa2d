//! The rules of every node: what the coordinator, a resource and a manager do with what they are given, by their own
//! entries and the records under them; which histories of all nodes are legal and which follow a schedule; and what is
//! reported of one. All of it is in `specs/`; the functions here are theorems, whose contracts are whole histories
//! computed by the rules.
#![tactic(auto)]

pub mod examples;
