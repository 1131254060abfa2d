//! What is known, as the lists of a snapshot.
ghost use Rattle.std.specs.Prelude.{◌≡◌, map, IfOk};
ghost use Rattle.resource_log.specs.SnapshotOf.{named_row, undo_item};
ghost use Rattle.tcc_fence.specs.Meanings.{entry_of};
ghost use Rattle.resource_memory.specs.Snapshots.{fence_item};

use crate::tried::TriedCalls;
use local_tables::Tables;
use resource_log::{FenceItem, UndoItem};
use seata_types::{Leg, List, NoMemory, Row, Text};
use std::alloc::Global;
use tcc_fence::{Fence, FenceStatus};
use undo_log::{UndoEntry, UndoLog};

/// All rows, each with its table's name, by table and key.
pub(crate) fn named_rows(alloc: Global, tables: &Tables) -> Result<List<(Text, Row)>, NoMemory>
    ensures { IfOk result (λ rows. rows ≡ map named_row tables.now.rows) }
{
    let mut rows = Vec::new(alloc);
    for (key, row) in tables.list(alloc)?.into_vec() {
        rows.push((key.table, row))?;
    }
    Ok(List::of(rows))
}

fn undo_item(leg: Leg, entry: UndoEntry) -> UndoItem
    ensures { result ≡ undo_item (leg, entry) }
{
    match entry {
        UndoEntry::Normal(record) => UndoItem::Normal(record),
        UndoEntry::Finished => UndoItem::Finished(leg),
    }
}

/// All undo records and markers, by transaction and branch.
pub(crate) fn undo_items(alloc: Global, log: &UndoLog) -> Result<List<UndoItem>, NoMemory>
    ensures { IfOk result (λ items. items ≡ map undo_item log.now) }
{
    let mut items = Vec::new(alloc);
    for (leg, entry) in log.entries(alloc)?.into_vec() {
        items.push(undo_item(leg, entry))?;
    }
    Ok(List::of(items))
}

fn fence_item(calls: &TriedCalls, leg: Leg, status: FenceStatus) -> FenceItem
    ensures { result ≡ fence_item calls.now (entry_of (leg, status)) }
{
    FenceItem {
        leg,
        status,
        call: calls.of_branch(leg),
    }
}

/// All fences with the calls that their branches were tried for, by transaction and branch.
pub(crate) fn fence_items(
    alloc: Global,
    fence: &Fence,
    calls: &TriedCalls,
) -> Result<List<FenceItem>, NoMemory>
    ensures { IfOk result (λ items. items ≡ map (fence_item calls.now) fence.now) }
{
    let mut items = Vec::new(alloc);
    for (leg, status) in fence.list(alloc)?.into_vec() {
        items.push(fence_item(calls, leg, status))?;
    }
    Ok(List::of(items))
}
