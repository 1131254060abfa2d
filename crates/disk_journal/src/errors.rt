//! Why a disk is not opened as a journal, or a journal doesn't take a record.
ghost use Rattle.std.specs.Prelude.{◌≡◌};

use disk_model::{Failed as DiskFailed, NoMemory as NoRoom};
use seata_types::Full;

/// Why a disk is not opened as a journal. `Damaged` has the offset of the damage, in bytes from the disk's first.
#[derive(Clone, Copy, Debug, PartialEq, Eq)]
pub enum JournalError {
    Failed,
    Damaged { at: u64 },
    NoMemory,
}

impl From<DiskFailed> for JournalError {
    ghost use Rattle.disk_journal.specs.declared.errors.JournalError.TheVariants.{Failed as failed};

    ghost from_gives = { λ _ error. error ≡ failed };

    fn from(_: DiskFailed) -> Self {
        JournalError::Failed
    }
}

impl From<NoRoom> for JournalError {
    ghost use Rattle.disk_journal.specs.declared.errors.JournalError.TheVariants.{NoMemory as no_memory};

    ghost from_gives = { λ _ error. error ≡ no_memory };

    fn from(_: NoRoom) -> Self {
        JournalError::NoMemory
    }
}

/// Why a journal didn't take a record. After `Full` it is as before, and after `Failed` it is down.
#[derive(Clone, Copy, PartialEq, Eq)]
pub enum AppendError {
    Full(Full),
    Failed,
}
