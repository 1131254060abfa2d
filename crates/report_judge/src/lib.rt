//! The judge of a printed report: it reads an input, which is a scenario in the first line and a report behind it, and tells whether
//! this is the report of a legal history. What it answers is one definition, `specs/Judging`; what the lines are read as is
//! `specs/Reading`.
#![tactic(auto)]

mod cutting;
mod errors;
mod judgements;
mod judging;
pub mod laws;
mod reading;

pub use judgements::Judgement;
pub use judging::judge;
