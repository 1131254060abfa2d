//! Snapshots, read.
ghost use Rattle.std.specs.Prelude.{◌≡◌, IfOk};
ghost use Rattle.byte_fields.specs.Taking.{Reads};
ghost use Rattle.byte_fields.specs.Entire.{IsOfLayouts};
ghost use Rattle.resource_log.specs.Snapshots.{is_below, item_of, some_kept_in, kept_in, undo_in, undo_follows, fence_status_at, fence_at, fence_follows, snapshot_in, snapshot_at, snapshot_in_bytes, snapshot_bytes_in, FitsSnapshot, FitsSnapshotIn};
ghost use Rattle.resource_log.specs.Soundness.{IsFaultOfSnapshot, FindsSnapshot, ReadsSnapshot};

use crate::checks;
use crate::errors::SnapshotError;
use crate::states::{Changes, FenceItem, ResourceSnapshot, UndoItem};
use byte_fields::{FieldError, Fields, Item, KeyLayout, take_long_list};
use local_tables::Schema;
use seata_types::{Leg, Row, Text};
use std::alloc::Global;
use tcc_fence::FenceStatus;
use undo_log::UndoRecord;

fn is_below(last: Leg, leg: Leg) -> bool
    ensures { result ≡ is_below last leg }
{
    last.cmp(&leg).is_lt()
}

#[tactic(auto, unfolding(crate::specs::Snapshots::some_kept_in))]
fn some_kept(
    alloc: Global,
    keys: KeyLayout,
    fields: &mut Fields,
) -> Result<Option<Changes>, FieldError>
    ensures { Reads (some_kept_in keys) fields.old fields.new result }
{
    let call = fields.take_u16()?;
    let images = fields.take_images_in(alloc, keys)?;
    let reads = fields.take_reads_in(alloc, keys)?;
    Ok(Some(Changes {
        call,
        images,
        reads,
    }))
}

#[tactic(auto, unfolding(crate::specs::Snapshots::kept_in, byte_fields::specs::Tags::tagged))]
fn kept(alloc: Global, keys: KeyLayout, fields: &mut Fields) -> Result<Option<Changes>, FieldError>
    ensures { Reads (kept_in keys) fields.old fields.new result }
{
    let place = fields.at();
    match fields.take_u8()? {
        0 => some_kept(alloc, keys, fields),
        1 => Ok(None),
        _ => Err(FieldError::BadTag { at: place }),
    }
}

// The undo record of a branch, or its marker.
fn undo_item(leg: Leg, kept: Option<Changes>) -> UndoItem
    ensures { result ≡ item_of leg kept }
{
    match kept {
        Some(changes) => UndoItem::Normal(UndoRecord {
            leg,
            call: changes.call,
            images: changes.images,
            reads: changes.reads,
        }),
        None => UndoItem::Finished(leg),
    }
}

impl Item for UndoItem {
    ghost item = { undo_in };

    ghost follows = { undo_follows };

    #[tactic(auto, unfolding(crate::specs::Snapshots::undo_in))]
    fn take(alloc: Global, keys: KeyLayout, fields: &mut Fields) -> Result<Self, FieldError> {
        let leg = fields.take_leg()?;
        let kept = kept(alloc, keys, fields)?;
        Ok(undo_item(leg, kept))
    }

    fn follows(&self, last: &Self) -> bool {
        is_below(last.leg(), self.leg())
    }
}

#[tactic(auto, unfolding(crate::specs::Snapshots::fence_status_at, byte_fields::specs::Tags::tagged))]
fn fence_status(fields: &mut Fields) -> Result<FenceStatus, FieldError>
    ensures { Reads fence_status_at fields.old fields.new result }
{
    let place = fields.at();
    match fields.take_u8()? {
        1 => Ok(FenceStatus::Tried),
        2 => Ok(FenceStatus::Committed),
        3 => Ok(FenceStatus::Rollbacked),
        4 => Ok(FenceStatus::Suspended),
        _ => Err(FieldError::BadTag { at: place }),
    }
}

impl Item for FenceItem {
    ghost item = { λ keys. fence_at };

    ghost follows = { fence_follows };

    #[tactic(auto, unfolding(crate::specs::Snapshots::fence_at))]
    fn take(_alloc: Global, _keys: KeyLayout, fields: &mut Fields) -> Result<Self, FieldError> {
        let leg = fields.take_leg()?;
        let status = fence_status(fields)?;
        let call = fields.take_u16()?;
        Ok(FenceItem { leg, status, call })
    }

    fn follows(&self, last: &Self) -> bool {
        is_below(last.leg, self.leg)
    }
}

#[tactic(auto, unfolding(crate::specs::Snapshots::snapshot_in))]
fn behind_layout(
    alloc: Global,
    keys: KeyLayout,
    fields: &mut Fields,
) -> Result<ResourceSnapshot, FieldError>
    ensures { Reads (snapshot_in keys) fields.old fields.new result }
{
    let acts = fields.take_u32()?;
    let boots = fields.take_u32()?;
    let rows = take_long_list::<(Text, Row)>(alloc, keys, fields)?;
    let undos = take_long_list::<UndoItem>(alloc, keys, fields)?;
    let fences = take_long_list::<FenceItem>(alloc, keys, fields)?;
    Ok(ResourceSnapshot {
        acts,
        boots,
        rows,
        undos,
        fences,
    })
}

#[tactic(auto, unfolding(crate::specs::Snapshots::snapshot_at, byte_fields::specs::Tags::tagged))]
fn snapshot(alloc: Global, fields: &mut Fields) -> Result<ResourceSnapshot, FieldError>
    ensures { Reads snapshot_at fields.old fields.new result }
{
    let place = fields.at();
    match fields.take_u8()? {
        1 => behind_layout(alloc, KeyLayout::Single, fields),
        2 => behind_layout(alloc, KeyLayout::Counted, fields),
        _ => Err(FieldError::BadTag { at: place }),
    }
}

// What a fault of a field says of the snapshot.
fn as_snapshot(fault: FieldError) -> SnapshotError
    ensures { IsFaultOfSnapshot fault result }
{
    match fault {
        FieldError::NoMemory => SnapshotError::NoMemory,
        _ => SnapshotError::Damaged,
    }
}

// The snapshot that the bytes are.
fn laid_out(alloc: Global, bytes: &[u8]) -> Result<ResourceSnapshot, SnapshotError>
    ensures found { FindsSnapshot (snapshot_in_bytes bytes.now) result }
    ensures writable { IfOk result FitsSnapshot }
{
    let mut fields = Fields::new(bytes);
    match snapshot(alloc, &mut fields) {
        Err(fault) => Err(as_snapshot(fault)),
        Ok(found) => {
            if fields.at() == bytes.len() {
                Ok(found)
            } else {
                drop(found);
                Err(SnapshotError::Damaged)
            }
        }
    }
}

/// The snapshot that the bytes are, in the layout that is written or in the older one, where it passes these tests, by the
/// resource's number and tables: it stands for fewer than `ACTS` acts and no more boots than acts; each row is of
/// one of the tables and has its key's columns, and the rows stand in rising order of table and key; and the images and
/// reads of its undo records are of rows of these tables.
pub fn read_snapshot(
    alloc: Global,
    body: &[u8],
    resource: u16,
    schema: &Schema,
) -> Result<ResourceSnapshot, SnapshotError>
    ensures exact { ReadsSnapshot resource schema.now body.now result }
    // The snapshots of bytes are those of the two layouts, and each is read back from its bytes.
    ensures layouts { IsOfLayouts snapshot_in_bytes snapshot_bytes_in FitsSnapshotIn }
    // What is read can be written, in the layout that is written.
    ensures writable { IfOk result FitsSnapshot }
{
    let found = laid_out(alloc, body)?;
    match checks::is_sound(alloc, resource, schema, &found) {
        Ok(true) => Ok(found),
        Ok(false) => {
            drop(found);
            Err(SnapshotError::Damaged)
        }
        Err(refused) => {
            drop(found);
            drop(refused);
            Err(SnapshotError::NoMemory)
        }
    }
}
