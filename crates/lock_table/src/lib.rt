//! Seata's global lock: which transaction holds a row. One transaction holds a row at a time, by as many of its branches as
//! it likes. Rows are found by an index in their order, in at most as many comparisons as the number of held rows has binary
//! digits.
#![tactic(auto)]

mod errors;
mod holder;
mod holding;
mod index;
mod steps;
mod table;

pub use errors::HoldError;
pub use steps::Steps;
pub use table::LockTable;
