//! A resource's snapshot as bytes, also in the layout of earlier programs: the memory that it says, which is written again, and
//! each cause of its damage.
ghost use Rattle.std.specs.Prelude.{◌≡◌, true, IfOk};
ghost use Rattle.resource_log.specs.Snapshots.{FitsSnapshot};
ghost use Rattle.resource_log.specs.Soundness.{is_sound};
ghost use Rattle.branch_tests.specs.Saving.{CanBeSaved};

use crate::samples::{Fail, Parts, accounts, joined};
use local_tables::Schema;
use resource_log::{ResourceSnapshot, SnapshotError, read_snapshot};
use resource_memory::Memory;
use std::alloc::Global;

// Layout 2; two acts, one boot.
const HEAD: [u8; 9] = [2, 0, 0, 0, 2, 0, 0, 0, 1];

// One row, (1, 900) of table acc.
const ROWS: [u8; 29] = [
    0, 0, 0, 1, 0, 3, 97, 99, 99, 0, 2, 0, 0, 0, 0, 0, 0, 0, 0, 1, 0, 0, 0, 0, 0, 0, 0, 3, 132,
];

// Branch 1 of transaction 1 has an undo record of call 1: of table acc of resource 1, the row with key 1 was (1, 1000) and is
// (1, 900); none was read.
const UNDOS: [u8; 86] = [
    0, 0, 0, 1, 0, 0, 0, 0, 0, 0, 0, 1, 0, 0, 0, 0, 0, 0, 0, 1, 0, 0, 1, 0, 1, 0, 1, 0, 3, 97, 99,
    99, 1, 0, 0, 0, 0, 0, 0, 0, 0, 1, 1, 0, 2, 0, 0, 0, 0, 0, 0, 0, 0, 1, 0, 0, 0, 0, 0, 0, 0, 3,
    232, 1, 0, 2, 0, 0, 0, 0, 0, 0, 0, 0, 1, 0, 0, 0, 0, 0, 0, 0, 3, 132, 0, 0,
];

// The same as earlier programs wrote it, whose keys have no count of their values.
const OLD_UNDOS: [u8; 85] = [
    0, 0, 0, 1, 0, 0, 0, 0, 0, 0, 0, 1, 0, 0, 0, 0, 0, 0, 0, 1, 0, 0, 1, 0, 1, 0, 1, 0, 3, 97, 99,
    99, 0, 0, 0, 0, 0, 0, 0, 0, 1, 1, 0, 2, 0, 0, 0, 0, 0, 0, 0, 0, 1, 0, 0, 0, 0, 0, 0, 0, 3, 232,
    1, 0, 2, 0, 0, 0, 0, 0, 0, 0, 0, 1, 0, 0, 0, 0, 0, 0, 0, 3, 132, 0, 0,
];

// Branch 2 of transaction 1 is marked.
const MARKED: [u8; 21] = [
    0, 0, 0, 1, 0, 0, 0, 0, 0, 0, 0, 1, 0, 0, 0, 0, 0, 0, 0, 2, 1,
];

// The branches 1 and 2 of transaction 2 were tried for call 1, and suspended.
const FENCES: [u8; 42] = [
    0, 0, 0, 2, 0, 0, 0, 0, 0, 0, 0, 2, 0, 0, 0, 0, 0, 0, 0, 1, 1, 0, 1, 0, 0, 0, 0, 0, 0, 0, 2, 0,
    0, 0, 0, 0, 0, 0, 2, 4, 0, 0,
];

const NONE: [u8; 4] = [0, 0, 0, 0];

fn loaded(alloc: Global, schema: Schema, snapshot: ResourceSnapshot) -> Result<Memory, Fail>
    requires sound { is_sound 1 schema snapshot ≡ true }
    requires fits { FitsSnapshot snapshot }
    ensures { IfOk result CanBeSaved }
{
    match Memory::load(alloc, 1, schema, snapshot) {
        Ok(memory) => Ok(memory),
        Err(_) => Err(Fail::NoMemory),
    }
}

/// The memory that the snapshot of these bytes says.
fn read(alloc: Global, bytes: &[u8]) -> Result<Memory, Fail>
    ensures { IfOk result CanBeSaved }
{
    let schema = accounts(alloc)?;
    match read_snapshot(alloc, bytes, 1, &schema) {
        Ok(snapshot) => loaded(alloc, schema, snapshot),
        Err(_) => Err(Fail::Failed),
    }
}

/// The bytes that a memory's snapshot is written as.
fn written(alloc: Global, memory: &Memory) -> Result<Vec<u8>, Fail>
    requires { CanBeSaved memory.now }
{
    if memory.acts() > 100 {
        return Err(Fail::Differs("how many records there are"));
    }
    if !memory.has_room() {
        return Err(Fail::Differs("the room of a snapshot"));
    }
    Ok(memory.write(alloc)?)
}

fn written_again(alloc: Global, bytes: &[u8]) -> Result<Vec<u8>, Fail> {
    let memory = read(alloc, bytes)?;
    written(alloc, &memory)
}

/// Whether the memory of the snapshot of these parts is written as the others.
fn is_written_as(alloc: Global, read: &[&[u8]], written: &[&[u8]]) -> Result<bool, Fail> {
    let bytes = joined(alloc, read)?;
    let wanted = joined(alloc, written)?;
    Ok(written_again(alloc, &bytes)? == wanted)
}

/// Snapshots by their parts, with the parts that they are written in.
const SNAPSHOTS: [(Parts, Parts); 3] = [
    (
        [&HEAD, &ROWS, &UNDOS, &FENCES, &[]],
        [&HEAD, &ROWS, &UNDOS, &FENCES, &[]],
    ),
    (
        [&HEAD, &NONE, &MARKED, &NONE, &[]],
        [&HEAD, &NONE, &MARKED, &NONE, &[]],
    ),
    (
        [&[1, 0, 0, 0, 2, 0, 0, 0, 1], &ROWS, &OLD_UNDOS, &NONE, &[]],
        [&HEAD, &ROWS, &UNDOS, &NONE, &[]],
    ),
];

fn are_written(alloc: Global) -> Result<(), Fail> {
    for (k, (read, written)) in SNAPSHOTS.iter().enumerate() {
        if !is_written_as(alloc, read, written)? {
            return Err(Fail::Case(k));
        }
    }
    Ok(())
}

#[test]
fn snapshots_of_each_layout_are_written_in_the_newest(rt: HostRuntime) -> Result<(), Fail> {
    are_written(rt.alloc())
}

// Two rows of one key, and a row of a table that isn't there.
const SAME_ROWS: [u8; 54] = [
    0, 0, 0, 2, 0, 3, 97, 99, 99, 0, 2, 0, 0, 0, 0, 0, 0, 0, 0, 1, 0, 0, 0, 0, 0, 0, 0, 3, 132, 0,
    3, 97, 99, 99, 0, 2, 0, 0, 0, 0, 0, 0, 0, 0, 1, 0, 0, 0, 0, 0, 0, 0, 3, 132,
];

const OTHER_ROWS: [u8; 29] = [
    0, 0, 0, 1, 0, 3, 98, 99, 99, 0, 2, 0, 0, 0, 0, 0, 0, 0, 0, 1, 0, 0, 0, 0, 0, 0, 0, 3, 132,
];

// A row without a value in its key column.
const NO_KEY: [u8; 11] = [0, 0, 0, 1, 0, 3, 97, 99, 99, 0, 0];

// An image of another resource.
const OTHER_UNDOS: [u8; 44] = [
    0, 0, 0, 1, 0, 0, 0, 0, 0, 0, 0, 1, 0, 0, 0, 0, 0, 0, 0, 1, 0, 0, 1, 0, 1, 0, 2, 0, 3, 97, 99,
    99, 1, 0, 0, 0, 0, 0, 0, 0, 0, 1, 0, 0,
];

// A read whose row has another key.
const OTHER_READ: [u8; 55] = [
    0, 0, 0, 1, 0, 0, 0, 0, 0, 0, 0, 1, 0, 0, 0, 0, 0, 0, 0, 1, 0, 0, 1, 0, 0, 0, 1, 0, 1, 0, 3,
    97, 99, 99, 1, 0, 0, 0, 0, 0, 0, 0, 0, 1, 0, 1, 0, 0, 0, 0, 0, 0, 0, 0, 2,
];

// Two fences of one branch, and a fence of status 5.
const SAME_FENCES: [u8; 42] = [
    0, 0, 0, 2, 0, 0, 0, 0, 0, 0, 0, 2, 0, 0, 0, 0, 0, 0, 0, 1, 1, 0, 1, 0, 0, 0, 0, 0, 0, 0, 2, 0,
    0, 0, 0, 0, 0, 0, 1, 2, 0, 1,
];

const OTHER_FENCE: [u8; 23] = [
    0, 0, 0, 1, 0, 0, 0, 0, 0, 0, 0, 2, 0, 0, 0, 0, 0, 0, 0, 1, 5, 0, 1,
];

const DAMAGED: [Parts; 13] = [
    [&[3, 0, 0, 0, 2, 0, 0, 0, 1], &NONE, &NONE, &NONE, &[]],
    [&[2, 128, 0, 0, 0, 0, 0, 0, 1], &NONE, &NONE, &NONE, &[]],
    [&[2, 0, 0, 0, 2, 0, 0, 0, 3], &NONE, &NONE, &NONE, &[]],
    [&HEAD, &NONE, &NONE, &NONE, &[0]],
    [&HEAD, &NONE, &NONE, &[0, 0, 0], &[]],
    [&HEAD, &SAME_ROWS, &NONE, &NONE, &[]],
    [&HEAD, &OTHER_ROWS, &NONE, &NONE, &[]],
    [&HEAD, &NO_KEY, &NONE, &NONE, &[]],
    [&HEAD, &NONE, &OTHER_UNDOS, &NONE, &[]],
    [&HEAD, &NONE, &OTHER_READ, &NONE, &[]],
    [&HEAD, &NONE, &OLD_UNDOS, &NONE, &[]],
    [&HEAD, &NONE, &NONE, &SAME_FENCES, &[]],
    [&HEAD, &NONE, &NONE, &OTHER_FENCE, &[]],
];

/// Whether bytes are refused as damaged.
fn is_refused(alloc: Global, schema: &Schema, bytes: &[u8]) -> bool {
    match read_snapshot(alloc, bytes, 1, schema) {
        Ok(snapshot) => {
            drop(snapshot);
            false
        }
        Err(error) => error == SnapshotError::Damaged,
    }
}

fn is_damaged(alloc: Global, schema: &Schema, parts: &[&[u8]]) -> Result<bool, Fail> {
    let bytes = joined(alloc, parts)?;
    Ok(is_refused(alloc, schema, &bytes))
}

fn are_damaged(alloc: Global) -> Result<(), Fail> {
    let schema = accounts(alloc)?;
    for (k, parts) in DAMAGED.iter().enumerate() {
        if !is_damaged(alloc, &schema, parts)? {
            return Err(Fail::Case(k));
        }
    }
    Ok(())
}

#[test]
fn each_damage_is_refused(rt: HostRuntime) -> Result<(), Fail> {
    are_damaged(rt.alloc())
}
