//! The record of a branch.
ghost use Rattle.std.specs.Prelude.{◌≡◌, IfOk};
ghost use Rattle.session_memory.specs.Changes.{granted_record};

use durable_records::SessionRecord;
use seata_types::{BranchId, Duplicate, List, NoMemory, RowKey, Xid};
use session_log::RegisterPlace;
use std::alloc::Global;

/// The record of a branch that is registered at a place under this number, with copies of its rows.
pub fn granted(
    alloc: Global,
    xid: Xid,
    branch: BranchId,
    place: RegisterPlace,
    hold: &[RowKey],
) -> Result<SessionRecord, NoMemory>
    ensures { IfOk result (λ item. item ≡ granted_record xid branch.0 place hold.now) }
{
    let hold = copies(alloc, hold)?;
    Ok(SessionRecord::Granted {
        xid,
        branch,
        resource: place.resource,
        call: place.call,
        ticket: place.ticket,
        kind: place.kind,
        hold,
    })
}

/// Copies of these rows.
pub(crate) fn copies(alloc: Global, rows: &[RowKey]) -> Result<List<RowKey>, NoMemory>
    ensures { IfOk result (λ copied. copied ≡ rows.now) }
{
    let mut copied = Vec::new(alloc);
    for row in rows {
        copied.push(row.copy(alloc)?)?;
    }
    Ok(List::of(copied))
}
