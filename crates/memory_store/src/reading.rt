//! What two disks hold, as a memory.
ghost use Rattle.std.specs.Prelude.{◌≡◌, ◌+◌, ◌^◌, ◌<◌, IfOk, IfErr};
ghost use Rattle.disk_journal.specs.Reading.{row_length};
ghost use Rattle.memory_store.specs.Meanings.{Reads};
ghost use Rattle.memory_store.specs.Holdings.{replayed, held_in, start_of, records_at, first_place, store_error};
ghost use Rattle.memory_store.specs.Replays.{TakesIn, Replays, Finds, IsReadingError};

use crate::errors::ReadError;
use crate::machine::StateMachine;
use disk_journal::RECORD_HEAD_BYTES;
use journal_checkpoint::{Found, SNAPSHOT_HEAD_BYTES, TwinError};
use seata_types::{List, NoMemory, OpenError};
use std::alloc::Global;

/// The error of two disks, as a store's.
pub fn store_error(error: TwinError) -> OpenError
    ensures { result ≡ store_error error }
{
    match error {
        TwinError::Failed => OpenError::Failed,
        TwinError::Damaged { second, at } => OpenError::Damaged { second, at },
        TwinError::NoMemory => OpenError::NoMemory,
    }
}

/// The first record that was read, or the snapshot: whether it stands on the second disk, and its offset.
pub fn first_place(second: bool, found: &Found) -> Option<(bool, u64)>
    ensures { result ≡ first_place second found.now }
{
    match &found.snapshot {
        Some(_) => Some((second, SNAPSHOT_HEAD_BYTES)),
        None => {
            if found.records.as_slice().is_empty() {
                None
            } else {
                Some((second, SNAPSHOT_HEAD_BYTES))
            }
        }
    }
}

// Takes in the record that a body is.
fn take_in<M: StateMachine>(
    alloc: Global,
    machine: &M,
    memory: &mut M::Memory,
    body: &[u8],
) -> Result<(), ReadError>
    ensures taken { TakesIn (M.meaning machine.now) memory.old body.now result memory.new }
    ensures sound { (M.meaning machine.now).IsSound memory.old →
        (M.meaning machine.now).IsSound memory.new }
{
    let item = machine.read_record(alloc, body)?;
    let counted = machine.acts(memory) < u32::MAX;
    if counted && machine.allows(memory, &item) {
        return match machine.take(alloc, memory, item) {
            Ok(()) => Ok(()),
            Err(NoMemory) => Err(ReadError::NoMemory),
        };
    }
    Err(ReadError::Damaged)
}

// Takes in each of these records, of which the first stands at an offset of the first or second disk. An offset stands
// still at the greatest u64, where no journal reaches.
fn replay<M: StateMachine>(
    alloc: Global,
    machine: &M,
    memory: &mut M::Memory,
    second: bool,
    from: u64,
    records: &[List<u8>],
) -> Result<(), OpenError>
    ensures replayed { from + row_length records.now < 2 ^ 64 →
        Replays (replayed (M.meaning machine.now) memory.old from records.now) second result
        memory.new }
    ensures error { IfErr result IsReadingError }
    ensures sound { (M.meaning machine.now).IsSound memory.old →
        (M.meaning machine.now).IsSound memory.new }
{
    let mut at = from;
    for record in records {
        let body = record.as_slice();
        match take_in(alloc, machine, memory, body) {
            Ok(()) => {}
            Err(ReadError::Damaged) => return Err(OpenError::Damaged { second, at }),
            Err(ReadError::NoMemory) => return Err(OpenError::NoMemory),
        }
        at = at
            .saturating_add(RECORD_HEAD_BYTES)
            .saturating_add(body.len() as u64);
    }
    Ok(())
}

// The memory of a snapshot.
fn recall<M: StateMachine>(alloc: Global, machine: &M, bytes: &[u8]) -> Result<M::Memory, ReadError>
    ensures read { Reads ((M.meaning machine.now).memory_of bytes.now) result }
    ensures sound { IfOk result (M.meaning machine.now).IsSound }
{
    machine.read_snapshot(alloc, bytes)
}

// What stands before the records.
fn start<M: StateMachine>(
    alloc: Global,
    machine: &M,
    snapshot: &Option<List<u8>>,
) -> Result<M::Memory, ReadError>
    ensures start { Reads (start_of (M.meaning machine.now) snapshot.now) result }
    ensures sound { IfOk result (M.meaning machine.now).IsSound }
{
    match snapshot {
        Some(bytes) => recall(alloc, machine, bytes.as_slice()),
        None => match machine.empty(alloc) {
            Ok(memory) => Ok(memory),
            Err(NoMemory) => Err(ReadError::NoMemory),
        },
    }
}

// Where the records begin.
fn records_at(snapshot: &Option<List<u8>>) -> u64
    ensures { records_at snapshot.now < 2 ^ 64 → result ≡ records_at snapshot.now }
{
    match snapshot {
        Some(bytes) => SNAPSHOT_HEAD_BYTES.saturating_add(bytes.as_slice().len() as u64),
        None => SNAPSHOT_HEAD_BYTES,
    }
}

/// The memory that a snapshot and records on the first or second disk make, or the damage there.
pub fn read_found<M: StateMachine>(
    alloc: Global,
    machine: &M,
    second: bool,
    found: &Found,
) -> Result<M::Memory, OpenError>
    ensures held { records_at found.now.snapshot + row_length found.now.records < 2 ^ 64 →
        Finds (held_in (M.meaning machine.now) found.now) second result }
    ensures error { IfErr result IsReadingError }
    ensures sound { IfOk result (M.meaning machine.now).IsSound }
{
    let mut memory = match start(alloc, machine, &found.snapshot) {
        Ok(memory) => memory,
        Err(ReadError::Damaged) => return Err(OpenError::Damaged {
            second,
            at: SNAPSHOT_HEAD_BYTES,
        }),
        Err(ReadError::NoMemory) => return Err(OpenError::NoMemory),
    };
    let from = records_at(&found.snapshot);
    match replay(
        alloc,
        machine,
        &mut memory,
        second,
        from,
        found.records.as_slice(),
    ) {
        Ok(()) => Ok(memory),
        Err(error) => Err(error),
    }
}
