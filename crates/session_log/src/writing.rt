//! Records and snapshots, written.
ghost use Rattle.std.specs.Prelude.{◌≡◌, ◌<◌, ◌^◌, ◌∷◌, ◌++◌, [], All, OnOk, IfOk, length};
ghost use Rattle.std.specs.List.{flat_map};
ghost use Rattle.std.specs.Int.{w16, w32, w64, to_be_bytes};
ghost use Rattle.byte_fields.specs.declared.layouts.KeyLayout.TheVariants as key_layout;
ghost use Rattle.session_log.specs.declared.layouts.SnapshotLayout.TheVariants as layout;
ghost use Rattle.byte_fields.specs.Layout.{FitsKeys, keys_bytes, ticket_bytes, list_bytes};
ghost use Rattle.byte_fields.specs.Parts.{joined, xid_bytes, branch_bytes, kind_code, truth_code};
ghost use Rattle.session_log.specs.Records.{decision_code, FitsRecord, record_tag, record_bytes, fields_bytes};
ghost use Rattle.byte_fields.specs.LongLists.{long_list_bytes};
ghost use Rattle.session_log.specs.Snapshots.{FitsBranchIn, branch_fields, failure_bytes, FitsEntryIn, entry_fields, FitsForgotten, forgotten_fields, all_forgotten_bytes, FitsSnapshot, snapshot_bytes, snapshot_fields};

use crate::sessions::{Branch, Forgotten, RegisterPlace, SessionEntry, Snapshot};
use crate::tags::*;
use byte_fields::{put_keys, put_kind, put_leg, put_ticket, put_u8, put_u16, put_u32, put_u64};
use durable_records::SessionRecord;
use seata_types::{BranchId, BranchKind, Decision, Leg, NoMemory, RowKey, Ticket, Xid};
use std::alloc::Global;

fn put_decision(out: &mut Vec<u8>, how: Decision) -> Result<(), NoMemory>
    ensures { OnOk result (out.new.items ≡ out.old.items ++ decision_code how ∷ []) }
{
    let code = match how {
        Decision::Commit => 1,
        Decision::Rollback => 2,
        Decision::Timeout => 3,
    };
    put_u8(out, code)
}

fn put_begun(
    out: &mut Vec<u8>,
    xid: Xid,
    manager: u16,
    begun: u64,
    timeout: u64,
) -> Result<(), NoMemory>
    ensures { OnOk result (out.new.items ≡ out.old.items ++ joined (
        xid_bytes xid ∷ to_be_bytes w16 manager ∷ to_be_bytes w64 begun ∷ to_be_bytes w64 timeout ∷ [])) }
{
    put_u64(out, xid.0)?;
    put_u16(out, manager)?;
    put_u64(out, begun)?;
    put_u64(out, timeout)
}

fn leg(xid: Xid, branch: BranchId) -> Leg
    ensures { result ≡ record { xid = xid; branch = branch } }
{
    Leg { xid, branch }
}

fn put_place(
    out: &mut Vec<u8>,
    resource: u16,
    call: u16,
    ticket: Ticket,
    kind: BranchKind,
    hold: &[RowKey],
) -> Result<(), NoMemory>
    requires { FitsKeys hold.now }
    ensures { OnOk result (out.new.items ≡ out.old.items ++ joined (
        to_be_bytes w16 resource ∷ to_be_bytes w16 call ∷ ticket_bytes ticket ∷ (kind_code kind ∷ []) ∷ keys_bytes hold.now ∷ [])) }
{
    put_u16(out, resource)?;
    put_u16(out, call)?;
    put_ticket(out, ticket)?;
    put_kind(out, kind)?;
    put_keys(out, hold)
}

fn tag(item: &SessionRecord) -> u8
    ensures { result ≡ record_tag key_layout.Counted item.now }
{
    match item {
        SessionRecord::Begun { .. } => BEGUN,
        SessionRecord::Granted { .. } => GRANTED,
        SessionRecord::Decided { .. } => DECIDED,
        SessionRecord::Retrying { .. } => RETRYING,
        SessionRecord::Ended { .. } => ENDED,
        SessionRecord::Failed { .. } => FAILED,
        SessionRecord::Finished { .. } => FINISHED,
        SessionRecord::Forgot { .. } => FORGOT,
    }
}

#[tactic(auto, unfolding(crate::specs::Records::fields_bytes))]
fn put_fields(out: &mut Vec<u8>, item: &SessionRecord) -> Result<(), NoMemory>
    requires { FitsRecord item.now }
    ensures { OnOk result (out.new.items ≡ out.old.items ++ fields_bytes key_layout.Counted item.now) }
{
    match item {
        SessionRecord::Begun {
            xid,
            manager,
            begun,
            timeout,
        } => put_begun(out, *xid, *manager, *begun, *timeout),
        SessionRecord::Granted {
            xid,
            branch,
            resource,
            call,
            ticket,
            kind,
            hold,
        } => {
            put_leg(out, leg(*xid, *branch))?;
            put_place(out, *resource, *call, *ticket, *kind, hold.as_slice())
        }
        SessionRecord::Decided { xid, how } => {
            put_u64(out, xid.0)?;
            put_decision(out, *how)
        }
        SessionRecord::Retrying { xid } => put_u64(out, xid.0),
        SessionRecord::Ended { xid, branch } => put_leg(out, leg(*xid, *branch)),
        SessionRecord::Failed { xid, branch, stmt } => {
            put_leg(out, leg(*xid, *branch))?;
            put_u16(out, *stmt)
        }
        SessionRecord::Finished { xid } => put_u64(out, xid.0),
        SessionRecord::Forgot { xid } => put_u64(out, xid.0),
    }
}

/// Room for the bytes of most records.
const SHORT_RECORD: usize = 64;

/// The bytes of a record, in the layout that is written.
pub fn write_record(alloc: Global, item: &SessionRecord) -> Result<Vec<u8>, NoMemory>
    requires { FitsRecord item.now }
    ensures { IfOk result (λ bytes. bytes.items ≡ record_bytes item.now) }
{
    let mut out = Vec::with_capacity(alloc, SHORT_RECORD)?;
    put_u8(&mut out, tag(item))?;
    put_fields(&mut out, item)?;
    Ok(out)
}

fn put_registered(out: &mut Vec<u8>, id: BranchId, place: RegisterPlace) -> Result<(), NoMemory>
    ensures { OnOk result (out.new.items ≡ out.old.items ++ joined (
        branch_bytes id ∷ to_be_bytes w16 place.resource ∷ to_be_bytes w16 place.call ∷ ticket_bytes place.ticket ∷ (kind_code place.kind ∷ []) ∷ [])) }
{
    put_u64(out, id.0)?;
    put_u16(out, place.resource)?;
    put_u16(out, place.call)?;
    put_ticket(out, place.ticket)?;
    put_kind(out, place.kind)?;
    Ok(())
}

#[tactic(auto, unfolding(crate::specs::Snapshots::branch_fields))]
fn put_branch(out: &mut Vec<u8>, branch: &Branch) -> Result<(), NoMemory>
    requires { FitsBranchIn key_layout.Counted branch.now }
    ensures { OnOk result (out.new.items ≡ out.old.items ++ branch_fields key_layout.Counted branch.now) }
{
    put_registered(out, branch.id, branch.place)?;
    put_keys(out, branch.hold.as_slice())?;
    put_u8(out, branch.ended as u8)
}

fn put_each_branch(out: &mut Vec<u8>, branches: &[Branch]) -> Result<(), NoMemory>
    requires { All (FitsBranchIn key_layout.Counted) branches.now }
    ensures { OnOk result (out.new.items ≡ out.old.items ++ flat_map (branch_fields key_layout.Counted) branches.now) }
{
    for branch in branches {
        put_branch(out, branch)?;
    }
    Ok(())
}

fn put_branches(out: &mut Vec<u8>, branches: &[Branch]) -> Result<(), NoMemory>
    requires count { length branches.now < 2 ^ 16 }
    requires each { All (FitsBranchIn key_layout.Counted) branches.now }
    ensures { OnOk result (out.new.items ≡ out.old.items ++ list_bytes (branch_fields key_layout.Counted) branches.now) }
{
    put_u16(out, branches.len() as u16)?;
    put_each_branch(out, branches)
}

#[tactic(auto, unfolding(crate::specs::Snapshots::failure_bytes))]
fn put_failure(out: &mut Vec<u8>, failed: Option<(BranchId, u16)>) -> Result<(), NoMemory>
    ensures { OnOk result (out.new.items ≡ out.old.items ++ failure_bytes failed) }
{
    match failed {
        None => put_u8(out, 0),
        Some((branch, stmt)) => {
            put_u8(out, 1)?;
            put_u64(out, branch.0)?;
            put_u16(out, stmt)
        }
    }
}

#[tactic(auto, unfolding(crate::specs::Snapshots::entry_fields))]
fn put_entry(out: &mut Vec<u8>, entry: &SessionEntry) -> Result<(), NoMemory>
    requires { FitsEntryIn key_layout.Counted entry.now }
    ensures { OnOk result (out.new.items ≡ out.old.items ++ entry_fields key_layout.Counted entry.now) }
{
    let session = &entry.session;
    put_begun(
        out,
        entry.xid,
        session.manager,
        session.begun,
        session.timeout,
    )?;
    put_u8(out, session.status.code())?;
    put_failure(out, session.failed)?;
    put_branches(out, session.branches.as_slice())
}

fn put_each_entry(out: &mut Vec<u8>, entries: &[SessionEntry]) -> Result<(), NoMemory>
    requires { All (FitsEntryIn key_layout.Counted) entries.now }
    ensures { OnOk result (out.new.items ≡ out.old.items ++ flat_map (entry_fields key_layout.Counted) entries.now) }
{
    for entry in entries {
        put_entry(out, entry)?;
    }
    Ok(())
}

fn put_entries(out: &mut Vec<u8>, entries: &[SessionEntry]) -> Result<(), NoMemory>
    requires count { length entries.now < 2 ^ 32 }
    requires each { All (FitsEntryIn key_layout.Counted) entries.now }
    ensures { OnOk result (out.new.items ≡ out.old.items ++ long_list_bytes (entry_fields key_layout.Counted) entries.now) }
{
    put_u32(out, entries.len() as u32)?;
    put_each_entry(out, entries)
}

#[tactic(auto, unfolding(crate::specs::Snapshots::forgotten_fields))]
fn put_one_forgotten(out: &mut Vec<u8>, forgotten: Forgotten) -> Result<(), NoMemory>
    ensures { OnOk result (out.new.items ≡ out.old.items ++ forgotten_fields forgotten) }
{
    put_u64(out, forgotten.xid.0)?;
    put_u16(out, forgotten.manager)
}

fn put_each_forgotten(out: &mut Vec<u8>, all: &[Forgotten]) -> Result<(), NoMemory>
    ensures { OnOk result (out.new.items ≡ out.old.items ++ flat_map forgotten_fields all.now) }
{
    for forgotten in all {
        put_one_forgotten(out, *forgotten)?;
    }
    Ok(())
}

#[tactic(auto, unfolding(crate::specs::Snapshots::all_forgotten_bytes))]
fn put_all_forgotten(out: &mut Vec<u8>, all: &[Forgotten]) -> Result<(), NoMemory>
    requires { length all.now < 2 ^ 32 }
    ensures { OnOk result (out.new.items ≡ out.old.items ++ all_forgotten_bytes layout.WithForgotten all.now) }
{
    put_u32(out, all.len() as u32)?;
    put_each_forgotten(out, all)
}

fn put_counts(out: &mut Vec<u8>, acts: u32, begun: u64, granted: u64) -> Result<(), NoMemory>
    ensures { OnOk result (out.new.items ≡ out.old.items ++ joined (
        to_be_bytes w32 acts ∷ to_be_bytes w64 begun ∷ to_be_bytes w64 granted ∷ [])) }
{
    put_u32(out, acts)?;
    put_u64(out, begun)?;
    put_u64(out, granted)
}

#[tactic(auto, unfolding(crate::specs::Snapshots::snapshot_fields))]
fn put_snapshot(out: &mut Vec<u8>, snapshot: &Snapshot) -> Result<(), NoMemory>
    requires { FitsSnapshot snapshot.now }
    ensures { OnOk result (out.new.items ≡ out.old.items ++ snapshot_fields layout.WithForgotten snapshot.now) }
{
    put_counts(out, snapshot.acts, snapshot.begun, snapshot.granted)?;
    put_entries(out, snapshot.sessions.as_slice())?;
    put_all_forgotten(out, snapshot.forgotten.as_slice())?;
    Ok(())
}

/// The bytes of a snapshot, in the layout that is written.
pub fn write_snapshot(alloc: Global, snapshot: &Snapshot) -> Result<Vec<u8>, NoMemory>
    requires { FitsSnapshot snapshot.now }
    ensures { IfOk result (λ bytes. bytes.items ≡ snapshot_bytes snapshot.now) }
{
    let mut out = Vec::new(alloc);
    put_u8(&mut out, 3)?;
    put_snapshot(&mut out, snapshot)?;
    Ok(out)
}
