//! How records make what a coordinator knows.
ghost use Rattle.std.specs.Prelude.{◌≡◌, Some, IfOk};
ghost use Rattle.memory_store.specs.Meanings.{Reads};
ghost use Rattle.session_memory.specs.Writing.{if_within, if_held_once};
ghost use Rattle.session_store.specs.Meaning.{meaning_of, lawful};
ghost use Rattle.session_log.specs.Records.{record_of};
ghost use Rattle.session_log.specs.Snapshots.{snapshot_in_bytes};
ghost use Rattle.session_log.specs.Soundness.{if_sound};

use crate::checks;
use durable_records::SessionRecord;
use memory_store::{ReadError, StateMachine};
use seata_types::NoMemory;
use session_log::{RecordError, SnapshotError};
use session_memory::{LoadError, Memory, uncounted};
use std::alloc::Global;

/// The coordinator of a scenario with so many managers and resources.
#[derive(Clone, Copy)]
pub struct SessionMachine {
    pub managers: u16,
    pub resources: u16,
}

// The record that the bytes are, where its numbers are those of the scenario.
fn read_record(
    alloc: Global,
    managers: u16,
    resources: u16,
    body: &[u8],
) -> Result<SessionRecord, ReadError>
    ensures { Reads (if_within managers resources (record_of body.now)) result }
{
    match session_log::read_record(alloc, body) {
        Ok(item) => {
            if checks::is_within(managers, resources, &item) {
                return Ok(item);
            }
            drop(item);
            Err(ReadError::Damaged)
        }
        Err(RecordError::BadRecord) => Err(ReadError::Damaged),
        Err(RecordError::NoMemory) => Err(ReadError::NoMemory),
    }
}

// The memory of the snapshot that the bytes are.
fn read_snapshot(
    alloc: Global,
    managers: u16,
    resources: u16,
    bytes: &[u8],
) -> Result<Memory, ReadError>
    ensures { Reads (if_held_once (if_sound managers resources (snapshot_in_bytes bytes.now)))
        result }
{
    match session_log::read_snapshot(alloc, bytes, managers, resources) {
        Ok(snapshot) => match uncounted::load(alloc, snapshot) {
            Ok(memory) => Ok(memory),
            Err(LoadError::Damaged) => Err(ReadError::Damaged),
            Err(LoadError::NoMemory) => Err(ReadError::NoMemory),
        },
        Err(SnapshotError::Damaged) => Err(ReadError::Damaged),
        Err(SnapshotError::NoMemory) => Err(ReadError::NoMemory),
    }
}

impl StateMachine for SessionMachine {
    type Memory = Memory;

    type Record = SessionRecord;

    ghost meaning = { λ m. meaning_of m.managers m.resources };

    fn empty(&self, alloc: Global) -> Result<Memory, NoMemory> {
        Ok(Memory::new(alloc))
    }

    fn read_record(&self, alloc: Global, body: &[u8]) -> Result<SessionRecord, ReadError> {
        read_record(alloc, self.managers, self.resources, body)
    }

    fn allows(&self, memory: &Memory, item: &SessionRecord) -> bool {
        uncounted::allows(memory, item)
    }

    fn apply(
        &self,
        alloc: Global,
        memory: &mut Memory,
        item: &SessionRecord,
    ) -> Result<(), NoMemory> {
        uncounted::apply(alloc, memory, item)
    }

    fn take(
        &self,
        alloc: Global,
        memory: &mut Memory,
        item: SessionRecord,
    ) -> Result<(), NoMemory> {
        let taken = uncounted::apply(alloc, memory, &item);
        drop(item);
        taken
    }

    fn acts(&self, memory: &Memory) -> u32 {
        memory.snapshot().acts
    }

    fn read_snapshot(&self, alloc: Global, bytes: &[u8]) -> Result<Memory, ReadError> {
        read_snapshot(alloc, self.managers, self.resources, bytes)
    }

    fn can_write(&self, memory: &Memory) -> bool {
        checks::can_write(memory.snapshot())
    }

    fn write_snapshot(&self, alloc: Global, memory: &Memory) -> Result<Vec<u8>, NoMemory> {
        session_log::write_snapshot(alloc, memory.snapshot())
    }

    ghost lawful = { λ m. lawful m.managers m.resources };
}
