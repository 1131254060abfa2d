//! The table of locks of a snapshot.
ghost use Rattle.std.specs.Prelude.{◌∷◌, []};
ghost use Rattle.session_memory.specs.Holding.{keeps_rows, held_by_branches, held_by, held};
ghost use Rattle.session_memory.specs.Loading.{TakesEach};

use crate::errors::LoadError;
use crate::statuses;
use lock_table::{HoldError, LockTable, Steps};
use seata_types::{Leg, Xid};
use session_log::{Branch, SessionEntry};
use std::alloc::Global;
use std::sync::ledger::Ledger;

// Takes the rows of a branch that isn't ended.
fn take_branch<L: Ledger>(
    alloc: Global,
    locks: &mut LockTable,
    xid: Xid,
    branch: &Branch,
    steps: &mut Steps<L>,
) -> Result<(), LoadError>
    ensures { TakesEach locks.old (held_by_branches xid (branch.now ∷ [])) result locks.new }
{
    if branch.ended {
        return Ok(());
    }
    let leg = Leg {
        xid,
        branch: branch.id,
    };
    match locks.try_hold(alloc, leg, branch.hold.as_slice(), &[], steps) {
        Ok(()) => Ok(()),
        Err(HoldError::Held { .. }) => Err(LoadError::Damaged),
        Err(HoldError::NoMemory) => Err(LoadError::NoMemory),
    }
}

// Takes the rows of the branches of a transaction.
fn take_branches<L: Ledger>(
    alloc: Global,
    locks: &mut LockTable,
    xid: Xid,
    branches: &[Branch],
    steps: &mut Steps<L>,
) -> Result<(), LoadError>
    ensures { TakesEach locks.old (held_by_branches xid branches.now) result locks.new }
{
    for branch in branches {
        take_branch(alloc, locks, xid, branch, steps)?;
    }
    Ok(())
}

// Takes the rows that a transaction holds.
fn take_entry<L: Ledger>(
    alloc: Global,
    locks: &mut LockTable,
    entry: &SessionEntry,
    steps: &mut Steps<L>,
) -> Result<(), LoadError>
    ensures { TakesEach locks.old (held_by entry.now) result locks.new }
{
    if statuses::keeps_rows(entry.session.status) {
        return take_branches(
            alloc,
            locks,
            entry.xid,
            entry.session.branches.as_slice(),
            steps,
        );
    }
    Ok(())
}

/// Takes the rows that transactions hold, branch by branch.
pub(crate) fn take_all<L: Ledger>(
    alloc: Global,
    locks: &mut LockTable,
    entries: &[SessionEntry],
    steps: &mut Steps<L>,
) -> Result<(), LoadError>
    ensures { TakesEach locks.old (held entries.now) result locks.new }
{
    for entry in entries {
        match take_entry(alloc, locks, entry, steps) {
            Ok(()) => {}
            Err(error) => return Err(error),
        }
    }
    Ok(())
}
