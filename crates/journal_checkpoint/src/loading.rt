//! The snapshot on a disk, and where its records begin.
ghost use Rattle.std.specs.Prelude.{◌≡◌, ℕ, List, length, Some, Err, option_map, IfOk, IfErr};
ghost use Rattle.disk_model.specs.Disk.{HasCause, present};
ghost use Rattle.disk_journal.specs.Keeping.{OnlyReads};
ghost use Rattle.journal_checkpoint.specs.Pairs.{begins_at, snapshot_in};
ghost use Rattle.journal_checkpoint.specs.Images.{FitsSnapshot, IsNoDamage, error_on};

use crate::layout::SNAPSHOT_HEAD_BYTES;
use crate::types::TwinError;
use disk_journal::{JournalError, read};
use disk_model::{Disk, Failed, NoMemory, zeros};
use seata_types::List;
use std::alloc::Global;

/// The snapshot of so many bytes on a disk.
pub fn read_snapshot<D: Disk>(
    alloc: Global,
    disk: &mut D,
    count: Option<u32>,
) -> Result<Option<List<u8>>, TwinError>
    requires { FitsSnapshot (D.state disk.old).size count }
    ensures snapshot { IfOk result (λ found. (c : List ℕ) → present (D.state disk.old) ≡ Some c → found ≡ option_map (snapshot_in c) count) }
    ensures whole { IfOk result (λ found. option_map length found ≡ count) }
    ensures undamaged { IfErr result IsNoDamage }
    ensures failed { result ≡ Err TwinError.Failed → HasCause (D.state disk.old).counts (D.state disk.new).counts }
    ensures only_reads { OnlyReads (D.state disk.old) (D.state disk.new) }
{
    let Some(count) = count else {
        return Ok(None);
    };
    let mut bytes = match zeros(alloc, count as usize) {
        Ok(bytes) => bytes,
        Err(NoMemory) => return Err(TwinError::NoMemory),
    };
    match read(disk, SNAPSHOT_HEAD_BYTES, &mut bytes) {
        Ok(()) => Ok(Some(List::of(bytes))),
        Err(Failed) => Err(TwinError::Failed),
    }
}

/// The offset of the records behind a snapshot of so many bytes or none.
pub fn begins_at(snapshot: Option<u32>) -> u64
    ensures { result ≡ begins_at snapshot }
{
    match snapshot {
        None => SNAPSHOT_HEAD_BYTES,
        Some(length) => SNAPSHOT_HEAD_BYTES + length as u64,
    }
}

/// A journal's error, with the disk that it is on.
pub fn error_on(second: bool, error: JournalError) -> TwinError
    ensures { result ≡ error_on second error }
{
    match error {
        JournalError::Failed => TwinError::Failed,
        JournalError::Damaged { at } => TwinError::Damaged { second, at },
        JournalError::NoMemory => TwinError::NoMemory,
    }
}
