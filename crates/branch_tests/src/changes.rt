//! The changes of a store, each by the call of its own.
ghost use Rattle.std.specs.Prelude.{◌≡◌, false, true};
ghost use Rattle.durable_records.specs.declared.resources.ResourceRecord.TheVariants as log;
ghost use Rattle.resource_log.specs.Records.{FitsRecord};
ghost use Rattle.resource_store.specs.Keeping.{is_down, IsTaken};
ghost use Rattle.branch_tests.specs.Taking.{Takes};

use crate::samples::{Fail, joined, nothing};
use crate::stores::Resource;
use durable_records::ResourceRecord;
use local_txn::OpenTxn;
use resource_log::{read_record, write_record};
use seata_types::limits::BODY_BYTES;
use seata_types::{Image, Leg, List, ReadRow, Shared, StoreError, Ticket, Work};
use std::alloc::Global;

/// Commits what a local transaction did as a branch.
fn commit(
    alloc: Global,
    store: &mut Resource,
    leg: Leg,
    call: u16,
    rows: (List<Image>, List<ReadRow>),
) -> Result<(), StoreError>
    requires up { is_down store.old ≡ false }
    requires taken { IsTaken (log.Committed leg.xid leg.branch call rows.0 rows.1) store.old }
{
    let (images, reads) = rows;
    let Ok(stmts) = Shared::new(alloc, nothing(alloc)) else {
        return Err(StoreError::NoMemory);
    };
    let txn = OpenTxn {
        ticket: Ticket { boot: 2, seq: 1 },
        xid: leg.xid,
        call,
        manager: 1,
        work: Work::At(stmts),
        images,
        reads,
        conflicts: 0,
    };
    let answer = store.commit_at(alloc, leg, &txn);
    drop(txn);
    answer
}

/// Makes the change that a record is.
fn make(alloc: Global, store: &mut Resource, item: ResourceRecord) -> Result<(), StoreError>
    requires up { is_down store.old ≡ false }
    requires taken { IsTaken item store.old }
{
    match item {
        ResourceRecord::Boot { number: _ } => store.start(alloc),
        ResourceRecord::Committed {
            xid,
            branch,
            call,
            images,
            reads,
        } => commit(alloc, store, Leg { xid, branch }, call, (images, reads)),
        ResourceRecord::Undone { xid, branch } => store.undo(alloc, Leg { xid, branch }),
        ResourceRecord::Marked { xid, branch } => store.mark(alloc, Leg { xid, branch }),
        ResourceRecord::Cleared { xid, branch } => store.clear(alloc, Leg { xid, branch }),
        ResourceRecord::Tried {
            xid,
            branch,
            call,
            images,
        } => store.tried(alloc, Leg { xid, branch }, call, images),
        ResourceRecord::Confirmed {
            xid,
            branch,
            images,
        } => store.confirmed(alloc, Leg { xid, branch }, images),
        ResourceRecord::Cancelled {
            xid,
            branch,
            images,
        } => store.cancelled(alloc, Leg { xid, branch }, images),
        ResourceRecord::Suspended { xid, branch } => store.suspended(alloc, Leg { xid, branch }),
        ResourceRecord::LocalCommitted { number, images } => {
            store.local_committed(alloc, number, images)
        }
        ResourceRecord::Outside { number, images } => store.outside(alloc, number, images),
    }
}

/// Whether a store takes a record.
fn may_come(alloc: Global, store: &Resource, item: &ResourceRecord) -> bool
    requires { FitsRecord item.now }
    ensures { result ≡ true → Takes item.now store.now }
{
    match write_record(alloc, item) {
        Ok(body) => {
            if body.len() > BODY_BYTES || store.is_down() || !store.allows(item) {
                return false;
            }
            true
        }
        Err(_) => false,
    }
}

/// Whether the change that a record is was made.
fn is_made(alloc: Global, store: &mut Resource, item: ResourceRecord) -> bool
    requires { FitsRecord item }
{
    if !may_come(alloc, store, &item) {
        drop(item);
        return false;
    }
    make(alloc, store, item) == Ok(())
}

/// Whether a store takes the record of these parts, and makes its change.
pub fn takes(alloc: Global, store: &mut Resource, parts: &[&[u8]]) -> Result<bool, Fail> {
    let bytes = joined(alloc, parts)?;
    match read_record(alloc, &bytes) {
        Ok(item) => Ok(is_made(alloc, store, item)),
        Err(_) => Err(Fail::Failed),
    }
}
