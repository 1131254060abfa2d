//! The records of the coordinator.
use seata_types::{BranchId, BranchKind, Decision, Duplicate, List, NoMemory, RowKey, Ticket, Xid};
use std::alloc::Global;

/// A durable act of the coordinator, with what its journal keeps of it. Moments and timeouts are in ticks; managers,
/// resources, calls and statements are counted from 1, and statement 0 says that none failed. The records are this
/// project's own.
#[derive(Drop)]
pub enum SessionRecord {
    /// A transaction began, at the moment `begun`.
    Begun {
        xid: Xid,
        manager: u16,
        begun: u64,
        timeout: u64,
    },
    /// A branch was registered. It holds the rows of `hold` by Seata's global lock.
    Granted {
        xid: Xid,
        branch: BranchId,
        resource: u16,
        call: u16,
        ticket: Ticket,
        kind: BranchKind,
        hold: List<RowKey>,
    },
    Decided {
        xid: Xid,
        how: Decision,
    },
    /// The second phase of a transaction met an answer after which a branch is asked again.
    Retrying {
        xid: Xid,
    },
    /// The second phase of a branch is done.
    Ended {
        xid: Xid,
        branch: BranchId,
    },
    /// The second phase of a transaction failed for good, at this branch and its statement.
    Failed {
        xid: Xid,
        branch: BranchId,
        stmt: u16,
    },
    Finished {
        xid: Xid,
    },
    /// A finished transaction isn't known any more.
    Forgot {
        xid: Xid,
    },
}

impl Duplicate for SessionRecord {
    fn copy(&self, alloc: Global) -> Result<Self, NoMemory> {
        match self {
            SessionRecord::Begun {
                xid,
                manager,
                begun,
                timeout,
            } => Ok(SessionRecord::Begun {
                xid: *xid,
                manager: *manager,
                begun: *begun,
                timeout: *timeout,
            }),
            SessionRecord::Granted {
                xid,
                branch,
                resource,
                call,
                ticket,
                kind,
                hold,
            } => Ok(SessionRecord::Granted {
                xid: *xid,
                branch: *branch,
                resource: *resource,
                call: *call,
                ticket: *ticket,
                kind: *kind,
                hold: hold.copy(alloc)?,
            }),
            SessionRecord::Decided { xid, how } => Ok(SessionRecord::Decided {
                xid: *xid,
                how: *how,
            }),
            SessionRecord::Retrying { xid } => Ok(SessionRecord::Retrying { xid: *xid }),
            SessionRecord::Ended { xid, branch } => Ok(SessionRecord::Ended {
                xid: *xid,
                branch: *branch,
            }),
            SessionRecord::Failed { xid, branch, stmt } => Ok(SessionRecord::Failed {
                xid: *xid,
                branch: *branch,
                stmt: *stmt,
            }),
            SessionRecord::Finished { xid } => Ok(SessionRecord::Finished { xid: *xid }),
            SessionRecord::Forgot { xid } => Ok(SessionRecord::Forgot { xid: *xid }),
        }
    }
}
