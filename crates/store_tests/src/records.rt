//! Records and snapshots as bytes, also in the layouts of earlier programs.
use crate::errors::Fail;
use durable_records::SessionRecord;
use seata_types::{
    BranchKind, Duplicate, GlobalStatus, List, NoMemory, RowKey, Ticket, Value, Xid,
};
use session_log::{
    RecordError, Snapshot, SnapshotError, read_record, read_snapshot, write_record, write_snapshot,
};
use std::alloc::Global;

/// Transaction 1 of manager 1 began at 0, and may take 60,000 ticks.
const BEGUN: [u8; 27] = [
    1, 0, 0, 0, 0, 0, 0, 0, 1, 0, 1, 0, 0, 0, 0, 0, 0, 0, 0, 0, 0, 0, 0, 0, 0, 234, 96,
];

/// Branch 1 of transaction 1 at resource 1, call 1, ticket 1.1, AT, with the row acc:1.
const GRANTED: [u8; 49] = [
    18, 0, 0, 0, 0, 0, 0, 0, 1, 0, 0, 0, 0, 0, 0, 0, 1, 0, 1, 0, 1, 0, 0, 0, 1, 0, 0, 0, 1, 0, 0,
    1, 0, 1, 0, 3, 97, 99, 99, 1, 0, 0, 0, 0, 0, 0, 0, 0, 1,
];

/// The same as earlier programs wrote it.
const OLD_GRANTED: [u8; 48] = [
    2, 0, 0, 0, 0, 0, 0, 0, 1, 0, 0, 0, 0, 0, 0, 0, 1, 0, 1, 0, 1, 0, 0, 0, 1, 0, 0, 0, 1, 0, 0, 1,
    0, 1, 0, 3, 97, 99, 99, 0, 0, 0, 0, 0, 0, 0, 0, 1,
];

/// Three acts, one transaction and one branch; no session, none forgotten.
const EMPTY_SNAPSHOT: [u8; 29] = [
    3, 0, 0, 0, 3, 0, 0, 0, 0, 0, 0, 0, 1, 0, 0, 0, 0, 0, 0, 0, 1, 0, 0, 0, 0, 0, 0, 0, 0,
];

/// Four acts; transaction 1 of manager 2 began at 5, may take 9 ticks and is committed.
const OLD_SNAPSHOT: [u8; 55] = [
    1, 0, 0, 0, 4, 0, 0, 0, 0, 0, 0, 0, 1, 0, 0, 0, 0, 0, 0, 0, 0, 0, 0, 0, 1, 0, 0, 0, 0, 0, 0, 0,
    1, 0, 2, 0, 0, 0, 0, 0, 0, 0, 5, 0, 0, 0, 0, 0, 0, 0, 9, 9, 0, 0, 0,
];

/// The record that bytes are: that beginning, that branch, or none.
#[derive(Clone, Copy)]
enum Wanted {
    Begun,
    Granted,
    Nothing,
}

/// What bytes are, the bytes, and the record.
type Row = (&'static str, &'static [u8], Wanted);

const ROWS: [Row; 7] = [
    ("a beginning", &BEGUN, Wanted::Begun),
    ("a branch", &GRANTED, Wanted::Granted),
    (
        "a branch in the older layout",
        &OLD_GRANTED,
        Wanted::Granted,
    ),
    ("no bytes", &[], Wanted::Nothing),
    (
        "a beginning without its last byte",
        &[
            1, 0, 0, 0, 0, 0, 0, 0, 1, 0, 1, 0, 0, 0, 0, 0, 0, 0, 0, 0, 0, 0, 0, 0, 0, 234,
        ],
        Wanted::Nothing,
    ),
    ("a kind that no record has", &[9], Wanted::Nothing),
    (
        "a byte too many",
        &[4, 0, 0, 0, 0, 0, 0, 0, 1, 0],
        Wanted::Nothing,
    ),
];

/// The bytes of that beginning.
fn beginning(alloc: Global) -> Result<Vec<u8>, NoMemory> {
    let record = SessionRecord::Begun {
        xid: Xid(1),
        manager: 1,
        begun: 0,
        timeout: 60_000,
    };
    let bytes = write_record(alloc, &record);
    drop(record);
    bytes
}

fn is_beginning(alloc: Global) -> Result<(), Fail> {
    if beginning(alloc)?.as_slice() != BEGUN.as_slice() {
        return Err(Fail::Other("the beginning"));
    }
    Ok(())
}

#[test]
fn a_record_of_a_beginning(rt: HostRuntime) -> Result<(), Fail> {
    is_beginning(rt.alloc())
}

/// Whether a key is acc:1 of resource 1.
fn is_row(key: &RowKey) -> bool {
    key.resource == 1 && key.table.as_str() == "acc" && matches!(key.pk.as_slice(), [Value::Int(1)])
}

/// Whether a place is that of the branch.
fn is_place(resource: u16, call: u16, ticket: Ticket, kind: BranchKind) -> bool {
    let first = Ticket { boot: 1, seq: 1 };
    (resource, call) == (1, 1) && ticket == first && kind == BranchKind::At
}

/// Whether a record is that beginning.
fn is_begun(record: &SessionRecord) -> bool {
    matches!(
        record,
        SessionRecord::Begun {
            xid: Xid(1),
            manager: 1,
            begun: 0,
            timeout: 60_000
        }
    )
}

/// Whether a record is that of the branch, with its row.
fn is_granted(record: &SessionRecord) -> bool {
    let SessionRecord::Granted {
        xid,
        branch,
        resource,
        call,
        ticket,
        kind,
        hold,
    } = record
    else {
        return false;
    };
    let is_held = match hold.as_slice() {
        [key] => is_row(key),
        _ => false,
    };
    (xid.0, branch.0) == (1, 1) && is_place(*resource, *call, *ticket, *kind) && is_held
}

/// A copy of the record that bytes are, where they are one.
fn read_copy(alloc: Global, bytes: &[u8]) -> Result<Option<SessionRecord>, NoMemory> {
    match read_record(alloc, bytes) {
        Ok(record) => {
            let copy = record.copy(alloc);
            drop(record);
            Ok(Some(copy?))
        }
        Err(RecordError::BadRecord) => Ok(None),
        Err(RecordError::NoMemory) => Err(NoMemory),
    }
}

/// Whether a record is the one that is wanted.
fn is_wanted(found: &Option<SessionRecord>, wanted: Wanted) -> bool {
    match (found, wanted) {
        (Some(record), Wanted::Begun) => is_begun(record),
        (Some(record), Wanted::Granted) => is_granted(record),
        (None, Wanted::Nothing) => true,
        _ => false,
    }
}

/// Whether bytes are read so.
fn is_read(alloc: Global, bytes: &[u8], wanted: Wanted) -> Result<bool, NoMemory> {
    let found = read_copy(alloc, bytes)?;
    let is = is_wanted(&found, wanted);
    drop(found);
    Ok(is)
}

fn are_read(alloc: Global) -> Result<(), Fail> {
    for (what, bytes, wanted) in ROWS {
        if !is_read(alloc, bytes, wanted)? {
            return Err(Fail::Other(what));
        }
    }
    Ok(())
}

#[test]
fn records_in_either_layout(rt: HostRuntime) -> Result<(), Fail> {
    are_read(rt.alloc())
}

/// The bytes of that empty snapshot.
fn empty(alloc: Global) -> Result<Vec<u8>, NoMemory> {
    let snapshot = Snapshot {
        acts: 3,
        begun: 1,
        granted: 1,
        sessions: List::of(Vec::new(alloc)),
        forgotten: List::of(Vec::new(alloc)),
    };
    let bytes = write_snapshot(alloc, &snapshot);
    drop(snapshot);
    bytes
}

/// Whether a snapshot has that one transaction.
fn has_committed(snapshot: &Snapshot) -> bool {
    match snapshot.sessions.as_slice() {
        [entry] => {
            (entry.xid.0, entry.session.manager) == (1, 2)
                && entry.session.status == GlobalStatus::Committed
                && (entry.session.begun, entry.session.timeout) == (5, 9)
        }
        _ => false,
    }
}

/// The same of the older snapshot, of a coordinator of so many managers.
fn reads_committed(alloc: Global, managers: u16) -> Result<bool, SnapshotError> {
    match read_snapshot(alloc, &OLD_SNAPSHOT, managers, 1) {
        Ok(snapshot) => {
            let has = has_committed(&snapshot);
            drop(snapshot);
            Ok(has)
        }
        Err(error) => Err(error),
    }
}

fn are_snapshots(alloc: Global) -> Result<(), Fail> {
    if empty(alloc)?.as_slice() != EMPTY_SNAPSHOT.as_slice() {
        return Err(Fail::Other("an empty snapshot"));
    }
    if reads_committed(alloc, 2) != Ok(true) {
        return Err(Fail::Other("a snapshot of earlier programs"));
    }
    if reads_committed(alloc, 1) != Err(SnapshotError::Damaged) {
        return Err(Fail::Other("a manager that is not there"));
    }
    Ok(())
}

#[test]
fn snapshots_in_either_layout(rt: HostRuntime) -> Result<(), Fail> {
    are_snapshots(rt.alloc())
}
