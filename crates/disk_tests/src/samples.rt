//! What several tests share: why a test fails, disks that begin with given bytes, and rows of bodies.
ghost use Rattle.std.specs.Prelude.{◌^◌, ◌<◌};

use disk_journal::JournalError;
use disk_model::{Disk, Failed, MemDisk, NoMemory, ShelfError};
use journal_checkpoint::TwinError;
use seata_types::List;
use std::alloc::{AllocError, Global};

/// Why a test fails.
#[derive(Clone, Copy, Debug)]
pub enum Fail {
    NoMemory,
    /// A call failed that was to pass.
    Failed,
    /// This isn't so.
    Differs(&'static str),
    /// It isn't so in the case with these two numbers.
    Case(usize, usize),
}

impl From<NoMemory> for Fail {
    fn from(_: NoMemory) -> Fail {
        Fail::NoMemory
    }
}

impl From<AllocError> for Fail {
    fn from(_: AllocError) -> Fail {
        Fail::NoMemory
    }
}

impl From<Failed> for Fail {
    fn from(_: Failed) -> Fail {
        Fail::Failed
    }
}

impl From<ShelfError> for Fail {
    fn from(_: ShelfError) -> Fail {
        Fail::Failed
    }
}

impl From<JournalError> for Fail {
    fn from(_: JournalError) -> Fail {
        Fail::Failed
    }
}

impl From<TwinError> for Fail {
    fn from(_: TwinError) -> Fail {
        Fail::Failed
    }
}

/// A test of what a name says.
pub fn so(is: bool, what: &'static str) -> Result<(), Fail> {
    if is { Ok(()) } else { Err(Fail::Differs(what)) }
}

/// Writes bytes to the front of a disk, and syncs them.
fn begin_with(disk: &mut MemDisk, bytes: &[u8]) -> Result<(), Fail> {
    if bytes.len() as u64 > disk.size() {
        return Err(Fail::Failed);
    }
    disk.write_at(0, bytes)?;
    disk.sync()?;
    Ok(())
}

/// A blank disk of so many bytes.
pub fn blank(alloc: Global, size: u64) -> Result<MemDisk, Fail> {
    if size > 16_777_216 {
        return Err(Fail::Failed);
    }
    Ok(MemDisk::new(alloc, size)?)
}

/// A disk of so many bytes that begins with these.
pub fn disk_with(alloc: Global, size: u64, bytes: &[u8]) -> Result<MemDisk, Fail> {
    let mut disk = blank(alloc, size)?;
    match begin_with(&mut disk, bytes) {
        Ok(()) => Ok(disk),
        Err(fail) => Err(fail),
    }
}

/// Whether records have these bodies.
pub fn are(records: &List<List<u8>>, bodies: &[&[u8]]) -> bool {
    let records = records.as_slice();
    for (k, record) in records.iter().enumerate() {
        match bodies.get(k) {
            Some(body) if record.as_slice() == *body => {}
            _ => return false,
        }
    }
    records.len() == bodies.len()
}
