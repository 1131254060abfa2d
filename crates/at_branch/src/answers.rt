//! What the calls of AT branches answer.
use local_txn::OpenTxn;
use seata_types::{Row, RowKey, Ticket, Why};

/// What a grant of the global lock came to.
#[derive(Clone, Copy, PartialEq, Eq)]
pub enum Granted {
    /// The local transaction committed, with its undo record.
    Committed,
    /// The branch was rolled back before: a marker keeps the late local transaction from its commit, as log_status 1 of Seata's
    /// `undo_log` does.
    Marker,
    /// The ticket isn't open, or the branch has its undo record already: the grant is ignored.
    NotOpen,
}

/// What a conflict over the global lock came to.
#[derive(Drop)]
pub enum Conflicted {
    /// The ticket waits on: its count of conflicts.
    Waits(u32),
    /// The call fails: its local transaction, which isn't open any more, and why.
    GaveUp { txn: OpenTxn, why: Why },
    /// The ticket isn't open, or is that of a guarded local transaction: the conflict is ignored.
    NotOpen,
}

/// What the commit of a branch in the second phase came to.
#[derive(Clone, Copy, PartialEq, Eq)]
pub enum Committed {
    /// Its undo record was taken out.
    Cleared,
    /// It has none.
    Empty,
}

/// What the rollback of a branch in the second phase came to.
#[derive(Drop)]
pub enum Rolled {
    /// The rows of its undo record are as they were before it, and the record was taken out.
    Undone,
    /// It had no undo record, and is marked as rolled back.
    Marked,
    /// It was marked before.
    Again,
    /// The least of its rows that an open local transaction has, and that one's ticket.
    Busy {
        key: RowKey,
        by: Ticket,
    },
    /// The least of its rows that isn't as the branch left it: how it left it, and how it is now.
    Dirty {
        key: RowKey,
        after: Option<Row>,
        now: Option<Row>,
    },
}
