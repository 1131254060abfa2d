//! What a disk holds, read record by record.
ghost use Rattle.std.specs.Prelude.{◌≡◌, ◌+◌, ◌^◌, ◌<◌, ◌≤◌, ℕ, List, Some, length, IfOk, IfErr, IfSome};
ghost use Rattle.disk_model.specs.Disk.{HasCause, present};
ghost use Rattle.disk_journal.specs.Reading.{record_length, row_length};
ghost use Rattle.disk_journal.specs.Keeping.{StandsFor, OnlyReads, IsFoundAt, IsDamageIn};

use crate::device::read;
use crate::errors::JournalError;
use crate::layout::{OPEN, RECORD_HEAD_BYTES, SHORTEST};
use disk_model::{Disk, zeros};
use seata_types::List;
use seata_types::limits::BODY_BYTES;
use std::alloc::Global;

/// The records of a disk, and the offset of the closed gate behind them.
pub fn read_records<D: Disk>(
    alloc: Global,
    disk: &mut D,
    from: u64,
) -> Result<(Vec<List<u8>>, u64), JournalError>
    ensures records { IfOk result (λ found. (c : List ℕ) → present (D.state disk.old) ≡ Some c → StandsFor from found.0.items c) }
    ensures end { IfOk result (λ found. found.1 ≡ from + row_length found.0.items) }
    ensures small { IfOk result (λ found. found.1 < 2 ^ 32) }
    ensures damaged { IfErr result (λ error. (c : List ℕ) → present (D.state disk.old) ≡ Some c → IsDamageIn from c error) }
    ensures failed { IfErr result (λ error. error ≡ JournalError.Failed → HasCause (D.state disk.old).counts (D.state disk.new).counts) }
    ensures only_reads { OnlyReads (D.state disk.old) (D.state disk.new) }
{
    if from >= disk.size() {
        return Err(JournalError::Damaged { at: from });
    }
    let mut records = Vec::new(alloc);
    let mut gate = from;
    while let Some(body) = read_record(alloc, disk, gate)? {
        gate += body.as_slice().len() as u64 + RECORD_HEAD_BYTES;
        let Ok(()) = records.push(body) else {
            return Err(JournalError::NoMemory);
        };
    }
    Ok((records, gate))
}

// The body of the record whose gate is at this offset, or none where the gate is closed.
fn read_record<D: Disk>(
    alloc: Global,
    disk: &mut D,
    gate: u64,
) -> Result<Option<List<u8>>, JournalError>
    requires { gate < (D.state disk.old).size }
    ensures found { (c : List ℕ) → present (D.state disk.old) ≡ Some c → IsFoundAt gate c result }
    ensures fits { IfOk result (λ found. IfSome found (λ body. gate + record_length body < (D.state disk.old).size)) }
    ensures small { (D.state disk.old).size < 2 ^ 32 }
    ensures failed { IfErr result (λ error. error ≡ JournalError.Failed → HasCause (D.state disk.old).counts (D.state disk.new).counts) }
    ensures only_reads { OnlyReads (D.state disk.old) (D.state disk.new) }
{
    let left = disk.size() - gate;
    let mut first = [0];
    read(disk, gate, &mut first)?;
    if first[0] != OPEN {
        return Ok(None);
    }
    if left < SHORTEST {
        return Err(JournalError::Damaged { at: gate });
    }
    let mut head = [0; 4];
    read(disk, gate + 1, &mut head)?;
    let count = u32::from_be_bytes(head) as usize;
    if count > BODY_BYTES || left < count as u64 + SHORTEST {
        return Err(JournalError::Damaged { at: gate });
    }
    let mut body = zeros(alloc, count)?;
    read(disk, gate + RECORD_HEAD_BYTES, &mut body)?;
    Ok(Some(List::of(body)))
}
