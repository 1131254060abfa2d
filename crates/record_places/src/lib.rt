//! That what statements do has places in a resource's records: the values that they write, the rows that they touch and read,
//! and their records in a journal.
#![tactic(auto)]

pub mod laws;
