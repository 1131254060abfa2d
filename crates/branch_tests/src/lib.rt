//! Tests of what a resource keeps of its branches, where no scenario comes: what earlier programs left, damage, refusals, and
//! what nothing but a test asks for.
#![tactic(auto)]

#[cfg(test)]
mod called;
#[cfg(test)]
mod changes;
#[cfg(test)]
mod earlier_disks;
#[cfg(test)]
mod kept_records;
#[cfg(test)]
mod kept_snapshots;
#[cfg(test)]
mod local_txns;
#[cfg(test)]
mod samples;
#[cfg(test)]
mod stores;
#[cfg(test)]
mod undo_logs;
