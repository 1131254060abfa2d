//! A coordinator's sessions, read from disks of given bytes.
ghost use Rattle.std.specs.Prelude.{IfOk};
ghost use Rattle.disk_model.specs.Disk.{IsSettled};
ghost use Rattle.disk_model.specs.Memory.{memory_state};

use crate::errors::Fail;
use disk_model::{Disk, MemDisk};
use seata_types::{OpenError, RowKey, Value, Xid};
use session_store::Sessions;
use std::alloc::{AllocError, Global};

/// The switch and the head of no snapshot.
const NO_SNAPSHOT: [u8; 9] = [0; 9];

/// The switch and the head of a snapshot of 171 bytes, its layout and its counts: six acts, two transactions begun and two
/// branches granted; two transactions are known.
const SNAPSHOT: [u8; 34] = [
    1, 0, 0, 0, 1, 0, 0, 0, 171, 3, 0, 0, 0, 6, 0, 0, 0, 0, 0, 0, 0, 2, 0, 0, 0, 0, 0, 0, 0, 2, 0,
    0, 0, 2,
];

/// Transaction 1 of manager 1 began at 5, may take 60 ticks, and rolls back its branch 1 at resource 1, call 1, ticket 1.1,
/// AT, with the row acc:7. Behind it stands whether that is ended.
const FIRST: [u8; 70] = [
    0, 0, 0, 0, 0, 0, 0, 1, 0, 1, 0, 0, 0, 0, 0, 0, 0, 5, 0, 0, 0, 0, 0, 0, 0, 60, 4, 0, 0, 1, 0,
    0, 0, 0, 0, 0, 0, 1, 0, 1, 0, 1, 0, 0, 0, 1, 0, 0, 0, 1, 0, 0, 1, 0, 1, 0, 3, 97, 99, 99, 1, 0,
    0, 0, 0, 0, 0, 0, 0, 7,
];

/// Transaction 2 of manager 2 rolls back its branch 2 with ticket 1.2 and the same row, which isn't ended. None is forgotten,
/// and no record stands behind the snapshot.
const SECOND: [u8; 76] = [
    0, 0, 0, 0, 0, 0, 0, 2, 0, 2, 0, 0, 0, 0, 0, 0, 0, 5, 0, 0, 0, 0, 0, 0, 0, 60, 4, 0, 0, 1, 0,
    0, 0, 0, 0, 0, 0, 2, 0, 1, 0, 1, 0, 0, 0, 1, 0, 0, 0, 2, 0, 0, 1, 0, 1, 0, 3, 97, 99, 99, 1, 0,
    0, 0, 0, 0, 0, 0, 0, 7, 0, 0, 0, 0, 0, 0,
];

/// A record as its journal has it: transaction 1 of manager 1 began at 0, and may take 60,000 ticks.
const BEGUN: [u8; 32] = [
    1, 0, 0, 0, 27, 1, 0, 0, 0, 0, 0, 0, 0, 1, 0, 1, 0, 0, 0, 0, 0, 0, 0, 0, 0, 0, 0, 0, 0, 0, 234,
    96,
];

/// The same of manager 2.
const BEGUN_BY_OTHER: [u8; 32] = [
    1, 0, 0, 0, 27, 1, 0, 0, 0, 0, 0, 0, 0, 1, 0, 2, 0, 0, 0, 0, 0, 0, 0, 0, 0, 0, 0, 0, 0, 0, 234,
    96,
];

/// Branch 1 of transaction 1 at resource 1, call 1, ticket 1.1, AT, with the row acc:7.
const GRANTED: [u8; 54] = [
    1, 0, 0, 0, 49, 18, 0, 0, 0, 0, 0, 0, 0, 1, 0, 0, 0, 0, 0, 0, 0, 1, 0, 1, 0, 1, 0, 0, 0, 1, 0,
    0, 0, 1, 0, 0, 1, 0, 1, 0, 3, 97, 99, 99, 1, 0, 0, 0, 0, 0, 0, 0, 0, 7,
];

/// Transaction 1 is decided commit.
const DECIDED: [u8; 15] = [1, 0, 0, 0, 10, 3, 0, 0, 0, 0, 0, 0, 0, 1, 1];

/// No record.
const UNKNOWN: [u8; 6] = [1, 0, 0, 0, 1, 9];

/// What stands on a disk, piece by piece.
#[derive(Clone, Copy)]
enum Piece {
    NoSnapshot,
    Snapshot,
    First,
    Ended(bool),
    Second,
    Begun,
    BegunByOther,
    Granted,
    Decided,
    Unknown,
}

type Known = Result<(u32, Option<Xid>), OpenError>;

/// What stands on the first disk, of how many managers' scenario, in which pieces, and how many records are then known with
/// the holder of the row.
type Row = (&'static str, u16, &'static [Piece], Known);

const ROWS: [Row; 11] = [
    ("nothing", 1, &[], Ok((0, None))),
    (
        "a beginning",
        1,
        &[Piece::NoSnapshot, Piece::Begun],
        Ok((1, None)),
    ),
    (
        "a branch",
        1,
        &[Piece::NoSnapshot, Piece::Begun, Piece::Granted],
        Ok((2, Some(Xid(1)))),
    ),
    (
        "a commit",
        1,
        &[
            Piece::NoSnapshot,
            Piece::Begun,
            Piece::Granted,
            Piece::Decided,
        ],
        Ok((3, None)),
    ),
    (
        "a branch of none",
        1,
        &[Piece::NoSnapshot, Piece::Granted],
        Err(OpenError::Damaged {
            second: false,
            at: 9,
        }),
    ),
    (
        "a second beginning",
        1,
        &[Piece::NoSnapshot, Piece::Begun, Piece::Begun],
        Err(OpenError::Damaged {
            second: false,
            at: 41,
        }),
    ),
    (
        "a branch after the commit",
        1,
        &[
            Piece::NoSnapshot,
            Piece::Begun,
            Piece::Decided,
            Piece::Granted,
        ],
        Err(OpenError::Damaged {
            second: false,
            at: 56,
        }),
    ),
    (
        "a manager that is not there",
        1,
        &[Piece::NoSnapshot, Piece::BegunByOther],
        Err(OpenError::Damaged {
            second: false,
            at: 9,
        }),
    ),
    (
        "no record",
        1,
        &[Piece::NoSnapshot, Piece::Begun, Piece::Unknown],
        Err(OpenError::Damaged {
            second: false,
            at: 41,
        }),
    ),
    (
        "a row with one holder",
        2,
        &[
            Piece::Snapshot,
            Piece::First,
            Piece::Ended(true),
            Piece::Second,
        ],
        Ok((6, Some(Xid(2)))),
    ),
    (
        "a row with two holders",
        2,
        &[
            Piece::Snapshot,
            Piece::First,
            Piece::Ended(false),
            Piece::Second,
        ],
        Err(OpenError::Damaged {
            second: false,
            at: 9,
        }),
    ),
];

fn bytes_of(piece: Piece) -> &'static [u8] {
    match piece {
        Piece::NoSnapshot => &NO_SNAPSHOT,
        Piece::Snapshot => &SNAPSHOT,
        Piece::First => &FIRST,
        Piece::Ended(true) => &[1],
        Piece::Ended(false) => &[0],
        Piece::Second => &SECOND,
        Piece::Begun => &BEGUN,
        Piece::BegunByOther => &BEGUN_BY_OTHER,
        Piece::Granted => &GRANTED,
        Piece::Decided => &DECIDED,
        Piece::Unknown => &UNKNOWN,
    }
}

/// One piece behind the other.
fn joined(alloc: Global, pieces: &[Piece]) -> Result<Vec<u8>, AllocError> {
    let mut bytes = Vec::new(alloc);
    for piece in pieces {
        bytes.extend_from_slice(bytes_of(*piece))?;
    }
    Ok(bytes)
}

/// Writes bytes to the front of a disk, where they fit.
fn begin_with(disk: &mut MemDisk, bytes: &[u8]) -> bool {
    bytes.len() as u64 <= disk.size() && disk.write_at(0, bytes).is_ok() && disk.sync().is_ok()
}

/// A disk of 400 bytes that begins with these and comes back from a crash.
fn disk(alloc: Global, bytes: &[u8]) -> Result<MemDisk, OpenError>
    ensures { IfOk result (λ disk. IsSettled (memory_state disk)) }
{
    let Ok(mut disk) = MemDisk::new(alloc, 400) else {
        return Err(OpenError::NoMemory);
    };
    if !begin_with(&mut disk, bytes) || disk.restart(0).is_err() {
        return Err(OpenError::Failed);
    }
    Ok(disk)
}

/// A disk that begins with these pieces.
fn written(alloc: Global, pieces: &[Piece]) -> Result<MemDisk, OpenError>
    ensures { IfOk result (λ disk. IsSettled (memory_state disk)) }
{
    match joined(alloc, pieces) {
        Ok(bytes) => disk(alloc, &bytes),
        Err(_) => Err(OpenError::NoMemory),
    }
}

/// What two disks are read as, of which the first begins with these pieces, of a scenario with so many managers and one
/// resource.
fn read(alloc: Global, managers: u16, pieces: &[Piece]) -> Result<Sessions<MemDisk>, OpenError> {
    let first = written(alloc, pieces)?;
    let second = disk(alloc, &[])?;
    match Sessions::read(alloc, first, second, managers, 1) {
        Ok(sessions) => Ok(sessions),
        Err((error, first, second)) => {
            drop(first);
            drop(second);
            Err(error)
        }
    }
}

fn is_row(key: &RowKey) -> bool {
    key.resource == 1 && key.table.as_str() == "acc" && matches!(key.pk.as_slice(), [Value::Int(7)])
}

/// Who holds the row, where no other row is held.
fn holder_in(rows: &[(RowKey, Xid)]) -> Result<Option<Xid>, OpenError> {
    match rows {
        [] => Ok(None),
        [(key, by)] if is_row(key) => Ok(Some(*by)),
        _ => Err(OpenError::Failed),
    }
}

/// The same of sessions.
fn holder(alloc: Global, sessions: &Sessions<MemDisk>) -> Result<Option<Xid>, OpenError> {
    match sessions.memory().locks().list(alloc) {
        Ok(rows) => holder_in(rows.as_slice()),
        Err(_) => Err(OpenError::NoMemory),
    }
}

fn known(alloc: Global, managers: u16, pieces: &[Piece]) -> Known {
    let sessions = read(alloc, managers, pieces)?;
    let records = sessions.records();
    let holder = holder(alloc, &sessions);
    drop(sessions);
    Ok((records, holder?))
}

fn are_known(alloc: Global) -> Result<(), Fail> {
    for (what, managers, pieces, wanted) in ROWS {
        if known(alloc, managers, pieces) != wanted {
            return Err(Fail::Other(what));
        }
    }
    Ok(())
}

#[test]
fn disks_are_read_as_they_stand(rt: HostRuntime) -> Result<(), Fail> {
    are_known(rt.alloc())
}

fn lists_begun(alloc: Global, sessions: &Sessions<MemDisk>) -> Result<(), Fail> {
    if sessions.list(alloc)?.as_slice() != [Xid(1)].as_slice() {
        return Err(Fail::Other("the list"));
    }
    Ok(())
}

fn is_listed(alloc: Global) -> Result<(), Fail> {
    match read(alloc, 1, &[Piece::NoSnapshot, Piece::Begun]) {
        Ok(sessions) => {
            let listed = lists_begun(alloc, &sessions);
            drop(sessions);
            listed
        }
        Err(_) => Err(Fail::Other("the disks")),
    }
}

#[test]
fn a_beginning_is_listed(rt: HostRuntime) -> Result<(), Fail> {
    is_listed(rt.alloc())
}
