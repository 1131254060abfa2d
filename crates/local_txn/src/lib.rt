//! The local transactions that a resource has open: each from its opening, while it waits for the global lock, to its local
//! commit or its drop. No two of them have a row in common, and a row is found in an index of all their rows.
#![tactic(auto)]

mod local_txns;
mod opening;
mod order;
mod rows;
pub mod transactions;

pub use local_txns::LocalTxns;
pub use transactions::{ExecError, OpenTxn};
