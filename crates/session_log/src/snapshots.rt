//! Snapshots, read.
ghost use Rattle.std.specs.Prelude.{◌≡◌};
ghost use Rattle.byte_fields.specs.Taking.{Reads};
ghost use Rattle.byte_fields.specs.Entire.{IsOfLayouts};
ghost use Rattle.session_log.specs.Snapshots.{branch_in, branch_follows, some_failure_at, failure_at, entry_in, entry_follows, forgotten_at, forgotten_follows, all_forgotten_in, snapshot_in, snapshot_at, snapshot_in_bytes, snapshot_bytes_in, FitsSnapshotIn};
ghost use Rattle.session_log.specs.Soundness.{IsFaultOfSnapshot, FindsSnapshot, ReadsSnapshot};

use crate::checks;
use crate::errors::SnapshotError;
use crate::layouts::SnapshotLayout;
use crate::sessions::{Branch, Forgotten, RegisterPlace, Session, SessionEntry, Snapshot};
use byte_fields::{FieldError, Fields, Item, KeyLayout, take_list, take_long_list};
use seata_types::{BranchId, List};
use std::alloc::Global;

impl Item for Branch {
    ghost item = { branch_in };

    ghost follows = { branch_follows };

    #[tactic(auto, unfolding(crate::specs::Snapshots::branch_in))]
    fn take(alloc: Global, keys: KeyLayout, fields: &mut Fields) -> Result<Self, FieldError> {
        let id = fields.take_branch()?;
        let resource = fields.take_u16()?;
        let call = fields.take_u16()?;
        let ticket = fields.take_ticket()?;
        let kind = fields.take_kind()?;
        let hold = fields.take_keys_in(alloc, keys)?;
        let ended = fields.take_truth()?;
        let place = RegisterPlace {
            resource,
            call,
            ticket,
            kind,
        };
        Ok(Branch {
            id,
            place,
            hold,
            ended,
        })
    }

    fn follows(&self, last: &Self) -> bool {
        last.id.0 < self.id.0
    }
}

#[tactic(auto, unfolding(crate::specs::Snapshots::some_failure_at))]
fn some_failure(fields: &mut Fields) -> Result<Option<(BranchId, u16)>, FieldError>
    ensures { Reads some_failure_at fields.old fields.new result }
{
    let branch = fields.take_branch()?;
    let stmt = fields.take_u16()?;
    Ok(Some((branch, stmt)))
}

#[tactic(auto, unfolding(crate::specs::Snapshots::failure_at, byte_fields::specs::Tags::tagged))]
fn failure(fields: &mut Fields) -> Result<Option<(BranchId, u16)>, FieldError>
    ensures { Reads failure_at fields.old fields.new result }
{
    let place = fields.at();
    match fields.take_u8()? {
        0 => Ok(None),
        1 => some_failure(fields),
        _ => Err(FieldError::BadTag { at: place }),
    }
}

impl Item for SessionEntry {
    ghost item = { entry_in };

    ghost follows = { entry_follows };

    #[tactic(auto, unfolding(crate::specs::Snapshots::entry_in))]
    fn take(alloc: Global, keys: KeyLayout, fields: &mut Fields) -> Result<Self, FieldError> {
        let xid = fields.take_xid()?;
        let manager = fields.take_u16()?;
        let begun = fields.take_u64()?;
        let timeout = fields.take_u64()?;
        let status = fields.take_status()?;
        let failed = failure(fields)?;
        let branches = take_list::<Branch>(alloc, keys, fields)?;
        let session = Session {
            manager,
            begun,
            timeout,
            status,
            branches,
            failed,
        };
        Ok(SessionEntry { xid, session })
    }

    fn follows(&self, last: &Self) -> bool {
        last.xid.0 < self.xid.0
    }
}

impl Item for Forgotten {
    ghost item = { λ keys. forgotten_at };

    ghost follows = { forgotten_follows };

    #[tactic(auto, unfolding(crate::specs::Snapshots::forgotten_at))]
    fn take(_alloc: Global, _keys: KeyLayout, fields: &mut Fields) -> Result<Self, FieldError> {
        let xid = fields.take_xid()?;
        let manager = fields.take_u16()?;
        Ok(Forgotten { xid, manager })
    }

    fn follows(&self, last: &Self) -> bool {
        last.xid.0 < self.xid.0
    }
}

#[tactic(auto, unfolding(crate::specs::Snapshots::all_forgotten_in))]
fn forgotten(
    alloc: Global,
    layout: SnapshotLayout,
    fields: &mut Fields,
) -> Result<List<Forgotten>, FieldError>
    ensures { Reads (all_forgotten_in layout) fields.old fields.new result }
{
    match layout {
        SnapshotLayout::SingleKeys => Ok(List::of(Vec::new(alloc))),
        SnapshotLayout::CountedKeys => Ok(List::of(Vec::new(alloc))),
        SnapshotLayout::WithForgotten => take_long_list::<Forgotten>(
            alloc,
            KeyLayout::Counted,
            fields,
        ),
    }
}

#[tactic(auto, unfolding(crate::specs::Snapshots::snapshot_in))]
fn behind_layout(
    alloc: Global,
    layout: SnapshotLayout,
    fields: &mut Fields,
) -> Result<Snapshot, FieldError>
    ensures { Reads (snapshot_in layout) fields.old fields.new result }
{
    let acts = fields.take_u32()?;
    let begun = fields.take_u64()?;
    let granted = fields.take_u64()?;
    let sessions = take_long_list::<SessionEntry>(alloc, layout.keys(), fields)?;
    let forgotten = forgotten(alloc, layout, fields)?;
    Ok(Snapshot {
        acts,
        begun,
        granted,
        sessions,
        forgotten,
    })
}

#[tactic(auto, unfolding(crate::specs::Snapshots::snapshot_at, byte_fields::specs::Tags::tagged))]
fn snapshot(alloc: Global, fields: &mut Fields) -> Result<Snapshot, FieldError>
    ensures { Reads snapshot_at fields.old fields.new result }
{
    let place = fields.at();
    match fields.take_u8()? {
        1 => behind_layout(alloc, SnapshotLayout::SingleKeys, fields),
        2 => behind_layout(alloc, SnapshotLayout::CountedKeys, fields),
        3 => behind_layout(alloc, SnapshotLayout::WithForgotten, fields),
        _ => Err(FieldError::BadTag { at: place }),
    }
}

// What a fault of a field says of the snapshot.
fn as_snapshot(fault: FieldError) -> SnapshotError
    ensures { IsFaultOfSnapshot fault result }
{
    match fault {
        FieldError::NoMemory => SnapshotError::NoMemory,
        _ => SnapshotError::Damaged,
    }
}

// The snapshot that the bytes are.
fn laid_out(alloc: Global, bytes: &[u8]) -> Result<Snapshot, SnapshotError>
    ensures { FindsSnapshot (snapshot_in_bytes bytes.now) result }
{
    let mut fields = Fields::new(bytes);
    match snapshot(alloc, &mut fields) {
        Err(fault) => Err(as_snapshot(fault)),
        Ok(found) => {
            if fields.at() == bytes.len() {
                Ok(found)
            } else {
                drop(found);
                Err(SnapshotError::Damaged)
            }
        }
    }
}

/// The snapshot that the bytes are, in the layout that is written or in an older one, where it passes the tests of
/// `specs/Soundness`, as each does that a coordinator of so many managers and resources wrote. That no row has two holders is asked where the rows are taken.
pub fn read_snapshot(
    alloc: Global,
    body: &[u8],
    managers: u16,
    resources: u16,
) -> Result<Snapshot, SnapshotError>
    ensures exact { ReadsSnapshot managers resources body.now result }
    // The snapshots of bytes are those of the three layouts, and each is read back from its bytes.
    ensures layouts { IsOfLayouts snapshot_in_bytes snapshot_bytes_in FitsSnapshotIn }
{
    let found = laid_out(alloc, body)?;
    match checks::is_sound(alloc, &found, managers, resources) {
        Ok(true) => Ok(found),
        Ok(false) => {
            drop(found);
            Err(SnapshotError::Damaged)
        }
        Err(refused) => {
            drop(found);
            drop(refused);
            Err(SnapshotError::NoMemory)
        }
    }
}
