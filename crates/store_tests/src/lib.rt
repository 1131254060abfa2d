//! Tests of what the coordinator's disks keep, over public calls: the bytes of records and snapshots, also in older layouts and
//! damaged.
#![tactic(auto)]

#[cfg(test)]
mod errors;
#[cfg(test)]
mod records;
#[cfg(test)]
mod sessions;
