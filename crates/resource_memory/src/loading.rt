//! What the lists of a snapshot say, taken in again.
ghost use Rattle.std.specs.Prelude.{◌≡◌, map, IfOk, OnOk};
ghost use Rattle.std.specs.Map.{keys_of};
ghost use Rattle.std.specs.List.Sorted.{IsStrictlySortedBy};
ghost use Rattle.durable_records.specs.Fences.{leg_cmp};
ghost use Rattle.undo_log.specs.Entries.{IsInOrder, order};
ghost use Rattle.resource_memory.specs.Snapshots.{undo_entry, fence_entry, calls_in};

use crate::parts::enter;
use crate::tried::TriedCalls;
use resource_log::{FenceItem, UndoItem};
use seata_types::{Leg, List, NoMemory};
use std::alloc::Global;
use tcc_fence::Fence;
use undo_log::{UndoEntry, UndoLog};

fn undo_entry(item: UndoItem) -> (Leg, UndoEntry)
    ensures { result ≡ undo_entry item }
{
    match item {
        UndoItem::Normal(record) => (record.leg, UndoEntry::Normal(record)),
        UndoItem::Finished(leg) => (leg, UndoEntry::Finished),
    }
}

/// The undo log with these entries, which rise by transaction and branch.
pub(crate) fn undo_log(alloc: Global, items: List<UndoItem>) -> Result<UndoLog, NoMemory>
    requires { IsInOrder (map undo_entry items) }
    ensures { IfOk result (λ log. log ≡ map undo_entry items) }
{
    let mut log = UndoLog::new(alloc);
    for item in items.into_vec() {
        let (leg, entry) = undo_entry(item);
        enter(&mut log, leg, entry)?;
    }
    Ok(log)
}

/// The fences with these statuses, which rise by transaction and branch, and the calls that their branches were tried for.
pub(crate) fn fences(alloc: Global, items: List<FenceItem>) -> Result<(Fence, TriedCalls), NoMemory>
    requires fences { IsStrictlySortedBy leg_cmp (keys_of (map fence_entry items)) }
    requires calls { IsStrictlySortedBy order (keys_of (calls_in items)) }
    ensures fences { IfOk result (λ found. found.0 ≡ map fence_entry items) }
    ensures calls { IfOk result (λ found. found.1 ≡ calls_in items) }
{
    let mut fence = Fence::new(alloc);
    let mut calls = TriedCalls::new(alloc);
    for item in items.into_vec() {
        fence.set(item.leg, item.status)?;
        calls.put(item.leg, item.call)?;
    }
    Ok((fence, calls))
}
