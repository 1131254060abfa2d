//! What is kept of a local transaction that is open, and why one wasn't opened.
use seata_types::{Image, List, ReadRow, RowKey, StmtError, Ticket, Work, Xid};

/// A local transaction that is open, after AT mode: its statements are done, and its rows wait for the global lock. That of
/// a TCC call has done nothing yet.
#[derive(Drop)]
pub struct OpenTxn {
    pub ticket: Ticket,
    /// The global transaction; number 0 of a guarded local transaction, which has none.
    pub xid: Xid,
    /// The call, counted from 1; of a guarded local transaction its number.
    pub call: u16,
    /// The manager that called, and what it asked for. Of a guarded local transaction no clause says either.
    pub manager: u16,
    pub work: Work,
    /// What it did to rows, and the rows that it read, both in rising order of their keys.
    pub images: List<Image>,
    pub reads: List<ReadRow>,
    /// How often another transaction held one of its rows.
    pub conflicts: u32,
}

/// Why statements opened no local transaction.
#[derive(Drop)]
pub enum ExecError {
    /// The first statement without a meaning, counted from 1, and why it has none.
    Stmt { index: u16, why: StmtError },
    /// The least row that another open local transaction has, and its ticket. The answer in place of a wait for a row is
    /// this project's own.
    Busy { key: RowKey, by: Ticket },
    NoMemory,
}
