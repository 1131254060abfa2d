//! Records and snapshots, written.
ghost use Rattle.std.specs.Prelude.{◌≡◌, ◌<◌, ◌^◌, ◌∷◌, ◌++◌, [], All, OnOk, IfOk, length};
ghost use Rattle.std.specs.List.{flat_map};
ghost use Rattle.std.specs.Int.{w16, w32, to_be_bytes};
ghost use Rattle.byte_fields.specs.declared.layouts.KeyLayout.TheVariants as layout;
ghost use Rattle.byte_fields.specs.Layout.{FitsImages, FitsReads, images_bytes, reads_bytes};
ghost use Rattle.byte_fields.specs.Parts.{leg_bytes, named_row_bytes, FitsNamedRow};
ghost use Rattle.byte_fields.specs.LongLists.{long_list_bytes};
ghost use Rattle.resource_log.specs.Records.{leg_of, FitsRecord, record_tag, record_bytes, fields_bytes};
ghost use Rattle.resource_log.specs.Snapshots.{FitsUndoIn, undo_fields, fence_fields, FitsSnapshot, snapshot_bytes, snapshot_fields};

use crate::states::{FenceItem, ResourceSnapshot, UndoItem};
use crate::tags::*;
use byte_fields::{put_images, put_leg, put_reads, put_row, put_text, put_u8, put_u16, put_u32};
use durable_records::ResourceRecord;
use seata_types::{BranchId, Image, Leg, NoMemory, ReadRow, Row, Text, Xid};
use std::alloc::Global;

fn leg_of(xid: Xid, branch: BranchId) -> Leg
    ensures { result ≡ leg_of xid branch }
{
    Leg { xid, branch }
}

fn put_changes(
    out: &mut Vec<u8>,
    call: u16,
    images: &[Image],
    reads: &[ReadRow],
) -> Result<(), NoMemory>
    requires images { FitsImages images.now }
    requires reads { FitsReads reads.now }
    ensures { OnOk result (out.new.items ≡ out.old.items ++ (to_be_bytes w16 call ++ (images_bytes images.now ++ reads_bytes reads.now))) }
{
    put_u16(out, call)?;
    put_images(out, images)?;
    put_reads(out, reads)
}

fn put_tried(out: &mut Vec<u8>, leg: Leg, call: u16, images: &[Image]) -> Result<(), NoMemory>
    requires { FitsImages images.now }
    ensures { OnOk result (out.new.items ≡ out.old.items ++ (leg_bytes leg ++ (to_be_bytes w16 call ++ images_bytes images.now))) }
{
    put_leg(out, leg)?;
    put_u16(out, call)?;
    put_images(out, images)
}

fn put_ended(out: &mut Vec<u8>, leg: Leg, images: &[Image]) -> Result<(), NoMemory>
    requires { FitsImages images.now }
    ensures { OnOk result (out.new.items ≡ out.old.items ++ (leg_bytes leg ++ images_bytes images.now)) }
{
    put_leg(out, leg)?;
    put_images(out, images)
}

fn put_local(out: &mut Vec<u8>, number: u16, images: &[Image]) -> Result<(), NoMemory>
    requires { FitsImages images.now }
    ensures { OnOk result (out.new.items ≡ out.old.items ++ (to_be_bytes w16 number ++ images_bytes images.now)) }
{
    put_u16(out, number)?;
    put_images(out, images)
}

fn tag(item: &ResourceRecord) -> u8
    ensures { result ≡ record_tag layout.Counted item.now }
{
    match item {
        ResourceRecord::Boot { .. } => BOOT,
        ResourceRecord::Committed { .. } => COMMITTED,
        ResourceRecord::Undone { .. } => UNDONE,
        ResourceRecord::Marked { .. } => MARKED,
        ResourceRecord::Cleared { .. } => CLEARED,
        ResourceRecord::Tried { .. } => TRIED,
        ResourceRecord::Confirmed { .. } => CONFIRMED,
        ResourceRecord::Cancelled { .. } => CANCELLED,
        ResourceRecord::Suspended { .. } => SUSPENDED,
        ResourceRecord::LocalCommitted { .. } => LOCAL_COMMITTED,
        ResourceRecord::Outside { .. } => OUTSIDE,
    }
}

#[tactic(auto, unfolding(crate::specs::Records::fields_bytes))]
fn put_fields(out: &mut Vec<u8>, item: &ResourceRecord) -> Result<(), NoMemory>
    requires { FitsRecord item.now }
    ensures { OnOk result (out.new.items ≡ out.old.items ++ fields_bytes layout.Counted item.now) }
{
    match item {
        ResourceRecord::Boot { number } => put_u32(out, *number),
        ResourceRecord::Committed {
            xid,
            branch,
            call,
            images,
            reads,
        } => {
            put_leg(out, leg_of(*xid, *branch))?;
            put_changes(out, *call, images.as_slice(), reads.as_slice())
        }
        ResourceRecord::Undone { xid, branch } => put_leg(out, leg_of(*xid, *branch)),
        ResourceRecord::Marked { xid, branch } => put_leg(out, leg_of(*xid, *branch)),
        ResourceRecord::Cleared { xid, branch } => put_leg(out, leg_of(*xid, *branch)),
        ResourceRecord::Tried {
            xid,
            branch,
            call,
            images,
        } => put_tried(out, leg_of(*xid, *branch), *call, images.as_slice()),
        ResourceRecord::Confirmed {
            xid,
            branch,
            images,
        } => put_ended(out, leg_of(*xid, *branch), images.as_slice()),
        ResourceRecord::Cancelled {
            xid,
            branch,
            images,
        } => put_ended(out, leg_of(*xid, *branch), images.as_slice()),
        ResourceRecord::Suspended { xid, branch } => put_leg(out, leg_of(*xid, *branch)),
        ResourceRecord::LocalCommitted { number, images } => {
            put_local(out, *number, images.as_slice())
        }
        ResourceRecord::Outside { number, images } => put_local(out, *number, images.as_slice()),
    }
}

/// Room for the bytes of a record of one row with short values, as most are.
const SHORT_RECORD: usize = 128;

/// The bytes of a record, in the layout that is written.
pub fn write_record(alloc: Global, item: &ResourceRecord) -> Result<Vec<u8>, NoMemory>
    requires { FitsRecord item.now }
    ensures { IfOk result (λ bytes. bytes.items ≡ record_bytes item.now) }
{
    let mut out = Vec::with_capacity(alloc, SHORT_RECORD)?;
    put_u8(&mut out, tag(item))?;
    put_fields(&mut out, item)?;
    Ok(out)
}

fn put_named_row(out: &mut Vec<u8>, table: &Text, row: &Row) -> Result<(), NoMemory>
    requires { FitsNamedRow (table.now, row.now) }
    ensures { OnOk result (out.new.items ≡ out.old.items ++ named_row_bytes (table.now, row.now)) }
{
    put_text(out, table.as_str())?;
    put_row(out, row)
}

fn put_each_row(out: &mut Vec<u8>, rows: &[(Text, Row)]) -> Result<(), NoMemory>
    requires { All FitsNamedRow rows.now }
    ensures { OnOk result (out.new.items ≡ out.old.items ++ flat_map named_row_bytes rows.now) }
{
    for named in rows {
        put_named_row(out, &named.0, &named.1)?;
    }
    Ok(())
}

fn put_rows(out: &mut Vec<u8>, rows: &[(Text, Row)]) -> Result<(), NoMemory>
    requires count { length rows.now < 2 ^ 32 }
    requires each { All FitsNamedRow rows.now }
    ensures { OnOk result (out.new.items ≡ out.old.items ++ long_list_bytes named_row_bytes rows.now) }
{
    put_u32(out, rows.len() as u32)?;
    put_each_row(out, rows)
}

#[tactic(auto, unfolding(crate::specs::Snapshots::undo_fields, crate::specs::Snapshots::kept_bytes))]
fn put_undo(out: &mut Vec<u8>, item: &UndoItem) -> Result<(), NoMemory>
    requires { FitsUndoIn layout.Counted item.now }
    ensures { OnOk result (out.new.items ≡ out.old.items ++ undo_fields layout.Counted item.now) }
{
    put_leg(out, item.leg())?;
    match item {
        UndoItem::Normal(record) => {
            put_u8(out, 0)?;
            put_changes(
                out,
                record.call,
                record.images.as_slice(),
                record.reads.as_slice(),
            )
        }
        UndoItem::Finished(_) => put_u8(out, 1),
    }
}

fn put_each_undo(out: &mut Vec<u8>, undos: &[UndoItem]) -> Result<(), NoMemory>
    requires { All (FitsUndoIn layout.Counted) undos.now }
    ensures { OnOk result (out.new.items ≡ out.old.items ++ flat_map (undo_fields layout.Counted) undos.now) }
{
    for item in undos {
        put_undo(out, item)?;
    }
    Ok(())
}

fn put_undos(out: &mut Vec<u8>, undos: &[UndoItem]) -> Result<(), NoMemory>
    requires count { length undos.now < 2 ^ 32 }
    requires each { All (FitsUndoIn layout.Counted) undos.now }
    ensures { OnOk result (out.new.items ≡ out.old.items ++ long_list_bytes (undo_fields layout.Counted) undos.now) }
{
    put_u32(out, undos.len() as u32)?;
    put_each_undo(out, undos)
}

#[tactic(auto, unfolding(crate::specs::Snapshots::fence_fields))]
fn put_fence(out: &mut Vec<u8>, item: FenceItem) -> Result<(), NoMemory>
    ensures { OnOk result (out.new.items ≡ out.old.items ++ fence_fields item) }
{
    put_leg(out, item.leg)?;
    put_u8(out, item.status.code())?;
    put_u16(out, item.call)
}

fn put_each_fence(out: &mut Vec<u8>, fences: &[FenceItem]) -> Result<(), NoMemory>
    ensures { OnOk result (out.new.items ≡ out.old.items ++ flat_map fence_fields fences.now) }
{
    for item in fences {
        put_fence(out, *item)?;
    }
    Ok(())
}

fn put_fences(out: &mut Vec<u8>, fences: &[FenceItem]) -> Result<(), NoMemory>
    requires { length fences.now < 2 ^ 32 }
    ensures { OnOk result (out.new.items ≡ out.old.items ++ long_list_bytes fence_fields fences.now) }
{
    put_u32(out, fences.len() as u32)?;
    put_each_fence(out, fences)
}

fn put_counts(out: &mut Vec<u8>, acts: u32, boots: u32) -> Result<(), NoMemory>
    ensures { OnOk result (out.new.items ≡ out.old.items ++ (to_be_bytes w32 acts ++ to_be_bytes w32 boots)) }
{
    put_u32(out, acts)?;
    put_u32(out, boots)
}

#[tactic(auto, unfolding(crate::specs::Snapshots::snapshot_fields))]
fn put_snapshot(out: &mut Vec<u8>, snapshot: &ResourceSnapshot) -> Result<(), NoMemory>
    requires { FitsSnapshot snapshot.now }
    ensures { OnOk result (out.new.items ≡ out.old.items ++ snapshot_fields layout.Counted snapshot.now) }
{
    put_counts(out, snapshot.acts, snapshot.boots)?;
    put_rows(out, snapshot.rows.as_slice())?;
    put_undos(out, snapshot.undos.as_slice())?;
    put_fences(out, snapshot.fences.as_slice())?;
    Ok(())
}

/// The bytes of a snapshot, in the layout that is written.
pub fn write_snapshot(alloc: Global, snapshot: &ResourceSnapshot) -> Result<Vec<u8>, NoMemory>
    requires { FitsSnapshot snapshot.now }
    ensures { IfOk result (λ bytes. bytes.items ≡ snapshot_bytes snapshot.now) }
{
    let mut out = Vec::new(alloc);
    put_u8(&mut out, 2)?;
    put_snapshot(&mut out, snapshot)?;
    Ok(out)
}
