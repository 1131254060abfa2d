//! What a record does to the tables, the undo log and the fences together: in whole, or not at all.
ghost use Rattle.std.specs.Prelude.{◌≡◌, is_some, true, None, OnOk, OnErr};
ghost use Rattle.std.specs.Map.{lookup};
ghost use Rattle.local_tables.specs.Rows.{AreImagesOf, applied};
ghost use Rattle.local_tables.specs.declared.schemas.Way.TheVariants as way;
ghost use Rattle.durable_records.specs.Fences.{IsTried, with_fence};
ghost use Rattle.undo_log.specs.Entries.{entry_at, with_entry, without_entry, is_leg};
ghost use Rattle.undo_log.specs.declared.records.UndoEntry.TheVariants as entry;
ghost use Rattle.tcc_fence.specs.Meanings.{fence_at, status_of};
ghost use Rattle.resource_memory.specs.Changes.{undo_images, undo_record};
ghost use Rattle.resource_memory.specs.Known.{with_call};

use crate::tried::TriedCalls;
use local_tables::{Tables, Way};
use seata_types::{Image, Leg, List, NoMemory, ReadRow};
use std::alloc::Global;
use tcc_fence::{Fence, FenceStatus};
use undo_log::{UndoEntry, UndoLog, UndoRecord};

/// Gives a branch without an entry this one. After an error all is as before.
pub(crate) fn enter(log: &mut UndoLog, leg: Leg, entry: UndoEntry) -> Result<(), NoMemory>
    ensures ok { OnOk result (log.new ≡ with_entry log.old leg entry) }
    ensures err { OnErr result (log.new ≡ log.old) }
{
    let Ok(()) = log.put(leg, entry) else {
        return Err(NoMemory);
    };
    Ok(())
}

/// A branch commits locally: its images are put, and it has this undo record. After an error all is as before.
pub(crate) fn commit(
    alloc: Global,
    tables: &mut Tables,
    log: &mut UndoLog,
    leg: Leg,
    call: u16,
    images: List<Image>,
    reads: List<ReadRow>,
) -> Result<(), NoMemory>
    requires free { entry_at log.old leg ≡ None }
    requires fits { AreImagesOf tables.old images }
    ensures tables { OnOk result (tables.new ≡ applied way.Do images tables.old) }
    ensures log { OnOk result (log.new ≡ with_entry log.old leg (undo_record leg call images reads)) }
    ensures same_tables { OnErr result (tables.new ≡ tables.old) }
    ensures same_log { OnErr result (log.new ≡ log.old) }
{
    let record = UndoRecord {
        leg,
        call,
        images,
        reads,
    };
    enter(log, leg, UndoEntry::Normal(record))?;
    // The images are put from the record, which has them now.
    if put_images(alloc, tables, log, leg, Way::Do).is_err() {
        drop(log.remove(leg));
        return Err(NoMemory);
    }
    Ok(())
}

/// The rows of a branch's undo record are put back, and its entry is taken out. After an error all is as before.
pub(crate) fn undo(
    alloc: Global,
    tables: &mut Tables,
    log: &mut UndoLog,
    leg: Leg,
) -> Result<(), NoMemory>
    requires fits { AreImagesOf tables.old (undo_images (entry_at log.old leg)) }
    ensures tables { OnOk result (tables.new ≡ applied way.Undo (undo_images (entry_at log.old leg)) tables.old) }
    ensures log { OnOk result (log.new ≡ without_entry log.old leg) }
    ensures same_tables { OnErr result (tables.new ≡ tables.old) }
    ensures same_log { OnErr result (log.new ≡ log.old) }
{
    put_images(alloc, tables, log, leg, Way::Undo)?;
    drop(log.remove(leg));
    Ok(())
}

// Puts one side of the images of a branch's undo record.
fn put_images(
    alloc: Global,
    tables: &mut Tables,
    log: &UndoLog,
    leg: Leg,
    way: Way,
) -> Result<(), NoMemory>
    requires fits { AreImagesOf tables.old (undo_images (entry_at log.now leg)) }
    ensures tables { OnOk result (tables.new ≡ applied way (undo_images (entry_at log.now leg)) tables.old) }
    ensures same_tables { OnErr result (tables.new ≡ tables.old) }
{
    match log.find(leg) {
        Some(UndoEntry::Normal(record)) => tables.apply(alloc, record.images.as_slice(), way),
        Some(UndoEntry::Finished) => Ok(()),
        None => Ok(()),
    }
}

// A branch without a fence is tried for a call. After an error all is as before.
fn note_try(fence: &mut Fence, calls: &mut TriedCalls, leg: Leg, call: u16) -> Result<(), NoMemory>
    requires fence { fence_at fence.old leg ≡ None }
    ensures fence { OnOk result (fence.new ≡ with_fence leg.xid.0 leg.branch.0 IsTried fence.old) }
    ensures calls { OnOk result (calls.new ≡ with_call calls.old leg call) }
    ensures same_fence { OnErr result (fence.new ≡ fence.old) }
    ensures same_calls { OnErr result (calls.new ≡ calls.old) }
{
    fence.set(leg, FenceStatus::Tried)?;
    if calls.put(leg, call).is_err() {
        fence.remove(leg);
        return Err(NoMemory);
    }
    Ok(())
}

/// The Try of a branch without a fence ran for a call: its images are put, and it is tried. After an error all is as
/// before.
pub(crate) fn run_try(
    alloc: Global,
    tables: &mut Tables,
    fence: &mut Fence,
    calls: &mut TriedCalls,
    leg: Leg,
    call: u16,
    images: &[Image],
) -> Result<(), NoMemory>
    requires fits { AreImagesOf tables.old images.now }
    requires fence { fence_at fence.old leg ≡ None }
    requires call { lookup (is_leg leg) calls.old ≡ None }
    ensures tables { OnOk result (tables.new ≡ applied way.Do images.now tables.old) }
    ensures fence { OnOk result (fence.new ≡ with_fence leg.xid.0 leg.branch.0 IsTried fence.old) }
    ensures calls { OnOk result (calls.new ≡ with_call calls.old leg call) }
    ensures same_tables { OnErr result (tables.new ≡ tables.old) }
    ensures same_fence { OnErr result (fence.new ≡ fence.old) }
    ensures same_calls { OnErr result (calls.new ≡ calls.old) }
{
    note_try(fence, calls, leg, call)?;
    if tables.apply(alloc, images, Way::Do).is_err() {
        fence.remove(leg);
        calls.remove(leg);
        return Err(NoMemory);
    }
    Ok(())
}

/// The Confirm or Cancel of a branch with a fence ran: its images are put, and its fence is this one. After an error all is
/// as before.
pub(crate) fn run_second(
    alloc: Global,
    tables: &mut Tables,
    fence: &mut Fence,
    leg: Leg,
    status: FenceStatus,
    images: &[Image],
) -> Result<(), NoMemory>
    requires fits { AreImagesOf tables.old images.now }
    requires fence { is_some (fence_at fence.old leg) ≡ true }
    ensures tables { OnOk result (tables.new ≡ applied way.Do images.now tables.old) }
    ensures fence { OnOk result (fence.new ≡ with_fence leg.xid.0 leg.branch.0 (status_of status) fence.old) }
    ensures same_tables { OnErr result (tables.new ≡ tables.old) }
    ensures same_fence { OnErr result (fence.new ≡ fence.old) }
{
    tables.apply(alloc, images, Way::Do)?;
    // A branch that has a fence needs no memory for another.
    fence.set(leg, status)
}
