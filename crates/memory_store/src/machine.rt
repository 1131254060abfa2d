//! How records make a memory.
ghost use Rattle.std.specs.Prelude.{◌≡◌, ◌+◌, ◌^◌, ◌<◌, true, IfOk, OnOk, OnErr};
ghost use Rattle.memory_store.specs.Meanings.{Meaning, IsLawful, Reads};

use crate::errors::ReadError;
use seata_types::NoMemory;
use seata_types::limits::ACTS;
use std::alloc::Global;

/// How records make a memory, and how both stand as bytes. Its values are the settings of that: what must be known beside
/// the bytes to read them.
pub trait StateMachine {
    /// What is known.
    type Memory: Drop;

    /// What changes it.
    type Record: Drop;

    ghost meaning: { Self → Meaning Self.Memory Self.Record };

    /// What is known of no records.
    fn empty(&self, alloc: Global) -> Result<Self::Memory, NoMemory>
        ensures { IfOk result (λ memory. memory ≡ (meaning self.now).empty) };

    /// The record that the bytes are.
    fn read_record(&self, alloc: Global, body: &[u8]) -> Result<Self::Record, ReadError>
        ensures { Reads ((meaning self.now).record_of body.now) result };

    /// Whether a record may come; takes no memory.
    fn allows(&self, memory: &Self::Memory, item: &Self::Record) -> bool
        ensures { result ≡ (meaning self.now).may_come memory.now item.now };

    /// Takes in a record that may come. After want of memory all is as before.
    fn apply(
        &self,
        alloc: Global,
        memory: &mut Self::Memory,
        item: &Self::Record,
    ) -> Result<(), NoMemory>
        requires allowed { (meaning self.now).may_come memory.old item.now ≡ true }
        requires room { (meaning self.now).acts memory.old + 1 < 2 ^ 32 }
        ensures ok { OnOk result (memory.new ≡ (meaning self.now).after item.now memory.old) }
        ensures err { OnErr result (memory.new ≡ memory.old) };

    /// Takes in a record that may come and is of no more use. After want of memory all is as before.
    fn take(
        &self,
        alloc: Global,
        memory: &mut Self::Memory,
        item: Self::Record,
    ) -> Result<(), NoMemory>
        requires allowed { (meaning self.now).may_come memory.old item ≡ true }
        requires room { (meaning self.now).acts memory.old + 1 < 2 ^ 32 }
        ensures ok { OnOk result (memory.new ≡ (meaning self.now).after item memory.old) }
        ensures err { OnErr result (memory.new ≡ memory.old) };

    /// How many records a memory stands for; takes no memory.
    fn acts(&self, memory: &Self::Memory) -> u32
        ensures { result ≡ (meaning self.now).acts memory.now };

    /// The memory that a snapshot's bytes are.
    fn read_snapshot(&self, alloc: Global, bytes: &[u8]) -> Result<Self::Memory, ReadError>
        ensures { Reads ((meaning self.now).memory_of bytes.now) result };

    /// Whether a snapshot of a memory can be written; takes no memory.
    fn can_write(&self, memory: &Self::Memory) -> bool
        ensures { result ≡ (meaning self.now).can_write memory.now };

    /// The bytes of a snapshot.
    fn write_snapshot(&self, alloc: Global, memory: &Self::Memory) -> Result<Vec<u8>, NoMemory>
        requires can { (meaning self.now).can_write memory.now ≡ true }
        requires few { (meaning self.now).acts memory.now < ACTS }
        requires sound { (meaning self.now).IsSound memory.now }
        ensures { IfOk result
            (λ bytes. bytes.items ≡ (meaning self.now).snapshot_bytes memory.now) };

    /// What always holds of it.
    ghost lawful: { (machine : Self) → IsLawful (meaning machine) };
}
