//! How records make what a resource knows.
ghost use Rattle.std.specs.Prelude.{◌≡◌, All, IfOk, option_map};
ghost use Rattle.byte_fields.specs.Parts.{FitsNamedRow};
ghost use Rattle.local_tables.specs.Rows.{IsOpening};
ghost use Rattle.memory_store.specs.Meanings.{Reads};
ghost use Rattle.resource_log.specs.Records.{record_of};
ghost use Rattle.resource_log.specs.Snapshots.{snapshot_in_bytes};
ghost use Rattle.resource_log.specs.Soundness.{if_sound};
ghost use Rattle.resource_memory.specs.Snapshots.{known_in};
ghost use Rattle.resource_store.specs.Meaning.{setting};

use durable_records::ResourceRecord;
use local_tables::Schema;
use memory_store::{ReadError, StateMachine};
use resource_log::{RecordError, SnapshotError};
use resource_memory::Memory;
use seata_types::{Duplicate, List, NoMemory, Row, Text};
use std::alloc::Global;
use std::marker::Model;

/// The resource with this number and these tables, which opened with these rows, each behind its table's name.
#[derive(Drop)]
pub struct ResourceMachine {
    resource: u16,
    schema: Schema,
    opening: List<(Text, Row)>,
}

impl Model for ResourceMachine {
    ghost use Rattle.resource_store.specs.Meaning.{Setting, setting, Opens};

    ghost Value = { Setting };

    ghost view = { λ m. setting m.resource m.schema m.opening };

    ghost invariant = { λ m. Opens (setting m.resource m.schema m.opening) };
}

impl ResourceMachine {
    /// The rows are an opening of the tables, and have places in a snapshot; takes no memory.
    pub fn new(resource: u16, schema: Schema, opening: List<(Text, Row)>) -> ResourceMachine
        requires opens { IsOpening resource schema opening }
        requires fits { All FitsNamedRow opening }
        ensures { result ≡ setting resource schema opening }
    {
        ResourceMachine {
            resource,
            schema,
            opening,
        }
    }
}

// The record that the bytes are.
fn read_record(alloc: Global, body: &[u8]) -> Result<ResourceRecord, ReadError>
    ensures { Reads (record_of body.now) result }
{
    match resource_log::read_record(alloc, body) {
        Ok(item) => Ok(item),
        Err(RecordError::BadRecord) => Err(ReadError::Damaged),
        Err(RecordError::NoMemory) => Err(ReadError::NoMemory),
    }
}

// The memory of the snapshot that the bytes are.
fn read_snapshot(
    alloc: Global,
    resource: u16,
    schema: &Schema,
    bytes: &[u8],
) -> Result<Memory, ReadError>
    ensures { Reads (option_map (known_in resource schema.now)
        (if_sound resource schema.now (snapshot_in_bytes bytes.now))) result }
{
    match resource_log::read_snapshot(alloc, bytes, resource, schema) {
        Ok(snapshot) => {
            let Ok(schema) = schema.copy(alloc) else {
                drop(snapshot);
                return Err(ReadError::NoMemory);
            };
            match Memory::load(alloc, resource, schema, snapshot) {
                Ok(memory) => Ok(memory),
                Err(NoMemory) => Err(ReadError::NoMemory),
            }
        }
        Err(SnapshotError::Damaged) => Err(ReadError::Damaged),
        Err(SnapshotError::NoMemory) => Err(ReadError::NoMemory),
    }
}

impl StateMachine for ResourceMachine {
    ghost use Rattle.resource_store.specs.Meaning.{meaning_of};
    ghost use Rattle.resource_store.specs.Lawful.{lawful};

    type Memory = Memory;

    type Record = ResourceRecord;

    ghost meaning = { meaning_of };

    fn empty(&self, alloc: Global) -> Result<Memory, NoMemory> {
        let (schema, opening) = (self.schema.copy(alloc)?, self.opening.copy(alloc)?);
        Memory::new(alloc, self.resource, schema, opening)
    }

    fn read_record(&self, alloc: Global, body: &[u8]) -> Result<ResourceRecord, ReadError> {
        read_record(alloc, body)
    }

    fn allows(&self, memory: &Memory, item: &ResourceRecord) -> bool {
        memory.allows(item)
    }

    fn apply(
        &self,
        alloc: Global,
        memory: &mut Memory,
        item: &ResourceRecord,
    ) -> Result<(), NoMemory> {
        memory.apply(alloc, item)
    }

    fn take(
        &self,
        alloc: Global,
        memory: &mut Memory,
        item: ResourceRecord,
    ) -> Result<(), NoMemory> {
        memory.take(alloc, item)
    }

    fn acts(&self, memory: &Memory) -> u32 {
        memory.acts()
    }

    fn read_snapshot(&self, alloc: Global, bytes: &[u8]) -> Result<Memory, ReadError> {
        read_snapshot(alloc, self.resource, &self.schema, bytes)
    }

    fn can_write(&self, memory: &Memory) -> bool {
        memory.has_room()
    }

    fn write_snapshot(&self, alloc: Global, memory: &Memory) -> Result<Vec<u8>, NoMemory> {
        // What is known has places in a snapshot, since the opening rows do.
        let _ = &self.opening;
        memory.write(alloc)
    }

    ghost lawful = { lawful };
}
