//! What a resource keeps of its rows and branches, and a snapshot of all of it.
ghost use Rattle.std.specs.Prelude.{◌≡◌};
ghost use Rattle.resource_log.specs.Snapshots.{undo_leg};

use seata_types::{Image, Leg, List, ReadRow, Row, Text};
use tcc_fence::FenceStatus;
use undo_log::UndoRecord;

/// What the undo log has of a branch, after Seata's `undo_log`: its record, with log_status 0, or the marker of a rollback
/// that found none, with log_status 1.
#[derive(Drop)]
pub enum UndoItem {
    Normal(UndoRecord),
    Finished(Leg),
}

impl UndoItem {
    /// The branch.
    pub fn leg(&self) -> Leg
        ensures { result ≡ undo_leg self.now }
    {
        match self {
            UndoItem::Normal(record) => record.leg,
            UndoItem::Finished(leg) => *leg,
        }
    }
}

/// What a branch's undo record has beside the branch: its call, what it did to rows, and the rows that it read.
#[derive(Drop)]
pub(crate) struct Changes {
    pub call: u16,
    pub images: List<Image>,
    pub reads: List<ReadRow>,
}

/// The fence of a branch, after Seata's `tcc_fence_log`, and the call that was tried, counted from 1; 0 where none was.
#[derive(Clone, Copy)]
pub struct FenceItem {
    pub leg: Leg,
    pub status: FenceStatus,
    pub call: u16,
}

/// All that a list of records says over the rows of the opening: how many records there are and how many of them are boots,
/// the rows, each with its table's name, in rising order of table and key, and the undo log and the fences in rising order
/// of transaction and branch.
#[derive(Drop)]
pub struct ResourceSnapshot {
    pub acts: u32,
    pub boots: u32,
    pub rows: List<(Text, Row)>,
    pub undos: List<UndoItem>,
    pub fences: List<FenceItem>,
}
