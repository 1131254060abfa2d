//! Which records and snapshots a coordinator of a scenario reads and writes.
ghost use Rattle.std.specs.Prelude.{◌≡◌, ◌&&◌, nat_le, length};
ghost use Rattle.std.specs.List.{list_all};
ghost use Rattle.durable_records.specs.SessionOrder.{has_resource, is_within};
ghost use Rattle.session_memory.specs.Writing.{has_few_branches, can_write};

use durable_records::{SessionRecord, is_counted};
use seata_types::RowKey;
use seata_types::limits::{CALL_ROWS, CALLS, FIELD_ITEMS};
use session_log::{SessionEntry, Snapshot};

fn has_resource(resources: u16, key: &RowKey) -> bool
    ensures { result ≡ has_resource resources key.now }
{
    is_counted(usize::from(resources), key.resource)
}

// Whether these rows are of such resources.
fn have_resources(resources: u16, rows: &[RowKey]) -> bool
    ensures { result ≡ list_all (has_resource resources) rows.now }
{
    rows.iter().all(|key| has_resource(resources, key))
}

// Whether a branch may hold these rows.
fn may_hold(resources: u16, rows: &[RowKey]) -> bool
    ensures { result ≡
        (list_all (has_resource resources) rows.now && nat_le (length rows.now) CALL_ROWS) }
{
    have_resources(resources, rows) && rows.len() <= CALL_ROWS
}

/// Whether the numbers of a record are those of a scenario with so many managers and resources.
pub(crate) fn is_within(managers: u16, resources: u16, item: &SessionRecord) -> bool
    ensures { result ≡ is_within managers resources item.now }
{
    match item {
        SessionRecord::Begun { manager, .. } => is_counted(usize::from(managers), *manager),
        SessionRecord::Granted {
            resource,
            call,
            hold,
            ..
        } => {
            is_counted(usize::from(resources), *resource)
                && is_counted(CALLS, *call)
                && may_hold(resources, hold.as_slice())
        }
        _ => true,
    }
}

fn has_few_branches(entry: &SessionEntry) -> bool
    ensures { result ≡ has_few_branches entry.now }
{
    entry.session.branches.as_slice().len() <= FIELD_ITEMS
}

/// Whether a snapshot can be written: no transaction has more branches than a list in bytes.
pub(crate) fn can_write(snapshot: &Snapshot) -> bool
    ensures { result ≡ can_write snapshot.now }
{
    snapshot
        .sessions
        .as_slice()
        .iter()
        .all(|entry| has_few_branches(entry))
}
