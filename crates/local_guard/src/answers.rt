//! Why an outside write wasn't done.
use seata_types::{Full, RowKey, StmtError, Ticket};

/// Why an outside write wasn't done.
#[derive(Drop)]
pub enum OutsideError {
    /// The first statement without a meaning, counted from 1, and why it has none.
    Stmt { index: u16, why: StmtError },
    /// The least row that an open local transaction has, and its ticket.
    Busy { key: RowKey, by: Ticket },
    /// The disks failed: the write may be done or not.
    Failed,
    Full(Full),
    NoMemory,
}
