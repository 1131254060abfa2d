//! What the coordinator knows of its transactions, and a snapshot of all of it.
use seata_types::{BranchId, BranchKind, GlobalStatus, List, RowKey, Ticket, Xid};

/// Where a branch was registered: the resource, the manager's call, the ticket of the resource's local transaction, and
/// the mode. Resources and calls are counted from 1.
#[derive(Clone, Copy)]
pub struct RegisterPlace {
    pub resource: u16,
    pub call: u16,
    pub ticket: Ticket,
    pub kind: BranchKind,
}

/// A branch as it stands, with the rows that it was granted.
#[derive(Drop)]
pub struct Branch {
    pub id: BranchId,
    pub place: RegisterPlace,
    pub hold: List<RowKey>,
    /// Whether its second phase is done.
    pub ended: bool,
}

/// A transaction as it stands, after Seata's global session. The moment `begun` and `timeout` are in ticks; its branches
/// stand in the order of their registration; `failed` is the branch at which its second phase failed for good, with the
/// statement's number, 0 for none.
#[derive(Drop)]
pub struct Session {
    pub manager: u16,
    pub begun: u64,
    pub timeout: u64,
    pub status: GlobalStatus,
    pub branches: List<Branch>,
    pub failed: Option<(BranchId, u16)>,
}

/// A transaction with its number.
#[derive(Drop)]
pub struct SessionEntry {
    pub xid: Xid,
    pub session: Session,
}

/// A transaction that isn't known any more. Its manager is still told its number.
#[derive(Clone, Copy)]
pub struct Forgotten {
    pub xid: Xid,
    pub manager: u16,
}

/// All that a list of records says: how many there are, how many transactions began and how many branches were granted
/// so far, and the transactions that are known or forgotten, both in rising order.
#[derive(Drop)]
pub struct Snapshot {
    pub acts: u32,
    pub begun: u64,
    pub granted: u64,
    pub sessions: List<SessionEntry>,
    pub forgotten: List<Forgotten>,
}
