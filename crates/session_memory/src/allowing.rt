//! The table of locks beside the transactions.
ghost use Rattle.std.specs.Prelude.{◌≡◌, is_none};
ghost use Rattle.lock_table.specs.Locks.{first_held};
ghost use Rattle.session_memory.specs.Changes.{locks_after};

use durable_records::SessionRecord;
use lock_table::{LockTable, Steps};
use seata_types::{Decision, Leg, RowKey, Xid};
use std::sync::ledger::Ledger;

/// Whether no other transaction holds one of these rows.
pub(crate) fn are_free<L: Ledger>(
    locks: &LockTable,
    xid: Xid,
    rows: &[RowKey],
    steps: &mut Steps<L>,
) -> bool
    ensures { result ≡ is_none (first_held locks.now xid rows.now) }
{
    for key in rows {
        if let Some(by) = locks.holder(key, steps) {
            if by.0 != xid.0 {
                return false;
            }
        }
    }
    true
}

/// Gives back the rows that a record frees: all of a transaction that is decided commit, and those of an ended branch.
pub(crate) fn give_back(locks: &mut LockTable, item: &SessionRecord)
    ensures { locks.new ≡ locks_after item.now locks.old }
{
    match item {
        SessionRecord::Decided { xid, how } => {
            if matches!(how, Decision::Commit) {
                locks.release_all(*xid);
            }
        }
        SessionRecord::Ended { xid, branch } => locks.release(Leg {
            xid: *xid,
            branch: *branch,
        }),
        _ => {}
    }
}
