//! The records in which a text is kept: its pieces of so many bytes, and an empty one behind them. All of it is in `specs/`; the
//! functions here are theorems.
#![tactic(auto)]

pub mod laws;
