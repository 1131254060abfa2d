//! What a step did. Durable acts are those that a journal keeps.
ghost use Rattle.std.specs.Prelude.{◌≡◌, IfOk};

use crate::boxes::Boxed;
use crate::copies::{Duplicate, NoMemory};
use crate::errors::{StmtError, Why};
use crate::ids::{BranchId, Ticket, Xid};
use crate::rows::{Row, RowKey};
use crate::statuses::{Decision, GlobalStatus};
use std::alloc::Global;

/// An act that is in the node's journal once it is acknowledged. It is `Copy`, so that a crash and
/// a failed device take no memory. The first nine are the coordinator's; numbers of local
/// transactions are counted from 1.
#[derive(Clone, Copy, PartialEq, Eq)]
pub enum Durable {
    Begun {
        xid: Xid,
    },
    Granted {
        xid: Xid,
        branch: BranchId,
    },
    Late {
        xid: Xid,
    },
    Decided {
        xid: Xid,
        how: Decision,
    },
    Ended {
        xid: Xid,
        branch: BranchId,
    },
    Retrying {
        xid: Xid,
        branch: BranchId,
    },
    Failed {
        xid: Xid,
        branch: BranchId,
        stmt: u16,
    },
    Finished {
        xid: Xid,
        status: GlobalStatus,
    },
    Forgot {
        xid: Xid,
    },
    Committed {
        xid: Xid,
        branch: BranchId,
        ticket: Ticket,
    },
    Tried {
        xid: Xid,
        branch: BranchId,
        ticket: Ticket,
    },
    Cleared {
        xid: Xid,
        branch: BranchId,
    },
    Undone {
        xid: Xid,
        branch: BranchId,
    },
    Marked {
        xid: Xid,
        branch: BranchId,
    },
    Confirmed {
        xid: Xid,
        branch: BranchId,
    },
    Cancelled {
        xid: Xid,
        branch: BranchId,
    },
    Suspended {
        xid: Xid,
        branch: BranchId,
    },
    LocalCommitted {
        number: u16,
        ticket: Ticket,
    },
    Outside {
        number: u16,
    },
    Boot,
}

/// What a step did: a durable act, or one of the coordinator, of a resource, of a manager or of any
/// node, in this order.
#[derive(Drop, PartialEq, Eq)]
pub enum Act {
    Durable(Durable),
    Known {
        xid: Xid,
    },
    Regranted {
        xid: Xid,
        branch: BranchId,
    },
    Conflict {
        xid: Xid,
        key: RowKey,
        holder: Xid,
        rolling: bool,
    },
    Closed {
        xid: Xid,
        status: GlobalStatus,
    },
    Told {
        xid: Xid,
        status: GlobalStatus,
    },
    Asked {
        xid: Xid,
        branch: BranchId,
    },
    Retry {
        xid: Xid,
        branch: BranchId,
    },
    Held {
        key: RowKey,
        holder: Xid,
    },
    Free,
    Opened {
        xid: Xid,
        call: u16,
        ticket: Ticket,
    },
    Waiting {
        xid: Xid,
        call: u16,
    },
    Again {
        xid: Xid,
        call: u16,
        branch: BranchId,
    },
    Busy {
        xid: Xid,
        call: u16,
        key: RowKey,
        by: Ticket,
    },
    Refused {
        xid: Xid,
        call: u16,
        why: Why,
    },
    Resent {
        ticket: Ticket,
    },
    Conflicted {
        ticket: Ticket,
        count: u32,
    },
    Dropped {
        xid: Xid,
        call: u16,
        ticket: Ticket,
        why: Why,
    },
    Empty {
        xid: Xid,
        branch: BranchId,
    },
    Remarked {
        xid: Xid,
        branch: BranchId,
    },
    Blocked {
        xid: Xid,
        branch: BranchId,
        key: RowKey,
        by: Ticket,
    },
    Dirty {
        xid: Xid,
        branch: BranchId,
        key: Boxed<RowKey>,
        after: Boxed<Option<Row>>,
        now: Boxed<Option<Row>>,
    },
    Already {
        xid: Xid,
        branch: BranchId,
    },
    Unfenced {
        xid: Xid,
        branch: BranchId,
    },
    Unable {
        xid: Xid,
        branch: BranchId,
        index: u16,
        why: StmtError,
    },
    WaitingLocal {
        number: u16,
    },
    RefusedLocal {
        number: u16,
        why: Why,
    },
    BusyLocal {
        number: u16,
        key: RowKey,
        by: Ticket,
    },
    OpenedLocal {
        number: u16,
        ticket: Ticket,
    },
    DroppedLocal {
        number: u16,
        ticket: Ticket,
        key: RowKey,
        holder: Xid,
    },
    Starts,
    Repeats,
    GoesOn,
    GivesUp,
    CallBusy {
        count: u32,
    },
    Closes {
        status: GlobalStatus,
    },
    Polls,
    Learns {
        status: GlobalStatus,
    },
    Silent,
    Nothing,
    Ignored,
    Lost,
    Armed,
    Down {
        kept: Option<Durable>,
        at: Option<Durable>,
    },
    Restarted {
        kept: Option<Durable>,
    },
}

// A dirty row's key, and the row as it should be and as it is.
type DirtyRow = (Boxed<RowKey>, Boxed<Option<Row>>, Boxed<Option<Row>>);

/// Copies of a dirty row's key, and of the row as it should be and as it is.
fn dirty_row(
    alloc: Global,
    key: &Boxed<RowKey>,
    after: &Boxed<Option<Row>>,
    now: &Boxed<Option<Row>>,
) -> Result<DirtyRow, NoMemory>
    ensures { IfOk result (λ copied. copied ≡ (key.now, after.now, now.now)) }
{
    Ok((key.copy(alloc)?, after.copy(alloc)?, now.copy(alloc)?))
}

impl Duplicate for Act {
    fn copy(&self, alloc: Global) -> Result<Self, NoMemory> {
        match self {
            Act::Durable(act) => Ok(Act::Durable(*act)),
            Act::Known { xid } => Ok(Act::Known { xid: *xid }),
            Act::Regranted { xid, branch } => Ok(Act::Regranted {
                xid: *xid,
                branch: *branch,
            }),
            Act::Conflict {
                xid,
                key,
                holder,
                rolling,
            } => Ok(Act::Conflict {
                xid: *xid,
                key: key.copy(alloc)?,
                holder: *holder,
                rolling: *rolling,
            }),
            Act::Closed { xid, status } => Ok(Act::Closed {
                xid: *xid,
                status: *status,
            }),
            Act::Told { xid, status } => Ok(Act::Told {
                xid: *xid,
                status: *status,
            }),
            Act::Asked { xid, branch } => Ok(Act::Asked {
                xid: *xid,
                branch: *branch,
            }),
            Act::Retry { xid, branch } => Ok(Act::Retry {
                xid: *xid,
                branch: *branch,
            }),
            Act::Held { key, holder } => Ok(Act::Held {
                key: key.copy(alloc)?,
                holder: *holder,
            }),
            Act::Free => Ok(Act::Free),
            Act::Opened { xid, call, ticket } => Ok(Act::Opened {
                xid: *xid,
                call: *call,
                ticket: *ticket,
            }),
            Act::Waiting { xid, call } => Ok(Act::Waiting {
                xid: *xid,
                call: *call,
            }),
            Act::Again { xid, call, branch } => Ok(Act::Again {
                xid: *xid,
                call: *call,
                branch: *branch,
            }),
            Act::Busy { xid, call, key, by } => Ok(Act::Busy {
                xid: *xid,
                call: *call,
                key: key.copy(alloc)?,
                by: *by,
            }),
            Act::Refused { xid, call, why } => Ok(Act::Refused {
                xid: *xid,
                call: *call,
                why: why.copy(alloc)?,
            }),
            Act::Resent { ticket } => Ok(Act::Resent { ticket: *ticket }),
            Act::Conflicted { ticket, count } => Ok(Act::Conflicted {
                ticket: *ticket,
                count: *count,
            }),
            Act::Dropped {
                xid,
                call,
                ticket,
                why,
            } => Ok(Act::Dropped {
                xid: *xid,
                call: *call,
                ticket: *ticket,
                why: why.copy(alloc)?,
            }),
            Act::Empty { xid, branch } => Ok(Act::Empty {
                xid: *xid,
                branch: *branch,
            }),
            Act::Remarked { xid, branch } => Ok(Act::Remarked {
                xid: *xid,
                branch: *branch,
            }),
            Act::Blocked {
                xid,
                branch,
                key,
                by,
            } => Ok(Act::Blocked {
                xid: *xid,
                branch: *branch,
                key: key.copy(alloc)?,
                by: *by,
            }),
            Act::Dirty {
                xid,
                branch,
                key,
                after,
                now,
            } => {
                let (key, after, now) = dirty_row(alloc, key, after, now)?;
                Ok(Act::Dirty {
                    xid: *xid,
                    branch: *branch,
                    key,
                    after,
                    now,
                })
            }
            Act::Already { xid, branch } => Ok(Act::Already {
                xid: *xid,
                branch: *branch,
            }),
            Act::Unfenced { xid, branch } => Ok(Act::Unfenced {
                xid: *xid,
                branch: *branch,
            }),
            Act::Unable {
                xid,
                branch,
                index,
                why,
            } => Ok(Act::Unable {
                xid: *xid,
                branch: *branch,
                index: *index,
                why: why.copy(alloc)?,
            }),
            Act::WaitingLocal { number } => Ok(Act::WaitingLocal { number: *number }),
            Act::RefusedLocal { number, why } => Ok(Act::RefusedLocal {
                number: *number,
                why: why.copy(alloc)?,
            }),
            Act::BusyLocal { number, key, by } => Ok(Act::BusyLocal {
                number: *number,
                key: key.copy(alloc)?,
                by: *by,
            }),
            Act::OpenedLocal { number, ticket } => Ok(Act::OpenedLocal {
                number: *number,
                ticket: *ticket,
            }),
            Act::DroppedLocal {
                number,
                ticket,
                key,
                holder,
            } => Ok(Act::DroppedLocal {
                number: *number,
                ticket: *ticket,
                key: key.copy(alloc)?,
                holder: *holder,
            }),
            Act::Starts => Ok(Act::Starts),
            Act::Repeats => Ok(Act::Repeats),
            Act::GoesOn => Ok(Act::GoesOn),
            Act::GivesUp => Ok(Act::GivesUp),
            Act::CallBusy { count } => Ok(Act::CallBusy { count: *count }),
            Act::Closes { status } => Ok(Act::Closes { status: *status }),
            Act::Polls => Ok(Act::Polls),
            Act::Learns { status } => Ok(Act::Learns { status: *status }),
            Act::Silent => Ok(Act::Silent),
            Act::Nothing => Ok(Act::Nothing),
            Act::Ignored => Ok(Act::Ignored),
            Act::Lost => Ok(Act::Lost),
            Act::Armed => Ok(Act::Armed),
            Act::Down { kept, at } => Ok(Act::Down {
                kept: *kept,
                at: *at,
            }),
            Act::Restarted { kept } => Ok(Act::Restarted { kept: *kept }),
        }
    }
}
