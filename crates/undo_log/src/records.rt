//! What the undo log keeps of a branch.
ghost use Rattle.std.specs.Prelude.{◌≡◌};
ghost use Rattle.undo_log.specs.Entries.{log_status};

use seata_types::{Duplicate, Image, Leg, List, NoMemory, ReadRow};
use std::alloc::Global;

/// The undo record of a branch that committed locally: its call, counted from 1, what it did to rows, and the rows that it
/// read, both in rising order of their keys.
#[derive(Drop)]
pub struct UndoRecord {
    pub leg: Leg,
    pub call: u16,
    pub images: List<Image>,
    pub reads: List<ReadRow>,
}

impl Duplicate for UndoRecord {
    fn copy(&self, alloc: Global) -> Result<Self, NoMemory> {
        Ok(UndoRecord {
            leg: self.leg,
            call: self.call,
            images: self.images.copy(alloc)?,
            reads: self.reads.copy(alloc)?,
        })
    }
}

/// An entry of the undo log.
#[derive(Drop)]
pub enum UndoEntry {
    /// An undo record, with log_status 0 of Seata's `undo_log`.
    Normal(UndoRecord),
    /// The marker of a rollback that found no record, with log_status 1: no local commit of the branch may follow.
    Finished,
}

impl UndoEntry {
    /// The entry's log_status in Seata's `undo_log`: 0 or 1.
    pub fn log_status(&self) -> u8
        ensures { result ≡ log_status self.now }
    {
        match self {
            UndoEntry::Normal(_) => 0,
            UndoEntry::Finished => 1,
        }
    }
}

impl Duplicate for UndoEntry {
    fn copy(&self, alloc: Global) -> Result<Self, NoMemory> {
        match self {
            UndoEntry::Normal(record) => Ok(UndoEntry::Normal(record.copy(alloc)?)),
            UndoEntry::Finished => Ok(UndoEntry::Finished),
        }
    }
}

/// Why an entry wasn't put.
#[derive(Clone, Copy, PartialEq, Eq, Debug)]
pub enum UndoError {
    /// The branch has an entry already.
    Taken,
    NoMemory,
}
