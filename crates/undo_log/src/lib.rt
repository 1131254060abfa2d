//! The undo log of a resource, after Seata's `undo_log`: for a branch at most one entry, its undo record or the marker that
//! a rollback left which found none.
#![tactic(auto)]

mod logs;
pub mod records;

pub use logs::UndoLog;
pub use records::{UndoEntry, UndoError, UndoRecord};
