//! Verdicts on printed entries: when they are those of a legal history, which entry breaks a rule first, and which rule it breaks.
//! All of it is in `specs/Verdicts`; the functions of `laws` are theorems, whose contracts say that no entries have two verdicts.
#![tactic(auto)]

pub mod laws;
mod rules;

pub use rules::Rule;
