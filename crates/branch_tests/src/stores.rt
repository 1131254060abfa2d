//! A resource's store on two disks: the table acc, with the row (1, 1000) at its opening.
ghost use Rattle.std.specs.Prelude.{◌≡◌, false, IfOk};
ghost use Rattle.record_places.specs.Within.{AreTablesWithin};
ghost use Rattle.resource_store.specs.Keeping.{known, is_down};
ghost use Rattle.branch_tests.specs.Accounts.{accounts, account_rows};

use crate::samples::{Fail, accounts, joined, key, text};
use disk_model::{Disk, MemDisk};
use local_tables::Schema;
use resource_store::Store;
use seata_types::{List, OpenError, Row, Text, Value};
use std::alloc::Global;

pub type Resource = Store<MemDisk>;

/// The row of the opening.
pub fn opening(alloc: Global) -> Result<List<(Text, Row)>, Fail>
    ensures { IfOk result (λ rows. rows ≡ account_rows) }
{
    let cells = Vec::from_array(alloc, [Value::Int(1), Value::Int(1000)])?;
    let named = (text(alloc, "acc")?, Row(List::of(cells)));
    Ok(List::of(Vec::from_array(alloc, [named])?))
}

/// Writes bytes to the front of a disk, where they fit.
fn begin_with(disk: &mut MemDisk, bytes: &[u8]) -> bool {
    bytes.len() as u64 <= disk.size() && disk.write_at(0, bytes).is_ok() && disk.sync().is_ok()
}

/// A disk of 4,096 bytes that begins with these.
fn disk(alloc: Global, bytes: &[u8]) -> Result<MemDisk, Fail> {
    let Ok(mut disk) = MemDisk::new(alloc, 4_096) else {
        return Err(Fail::NoMemory);
    };
    if !begin_with(&mut disk, bytes) {
        return Err(Fail::Failed);
    }
    Ok(disk)
}

fn fail_of(error: OpenError) -> Fail {
    match error {
        OpenError::Damaged { .. } => Fail::Damaged,
        OpenError::NoMemory => Fail::NoMemory,
        OpenError::Failed | OpenError::Full(_) => Fail::Failed,
    }
}

/// The resource's store on two disks, which come back after a crash.
pub fn open(
    alloc: Global,
    disks: (MemDisk, MemDisk),
    schema: Schema,
    opening: List<(Text, Row)>,
) -> Result<Resource, Fail>
    requires schema { schema ≡ accounts }
    requires opening { opening ≡ account_rows }
    ensures up { IfOk result (λ s. is_down s ≡ false) }
    ensures within { IfOk result (λ s. AreTablesWithin (known s).tables) }
{
    let (mut first, mut second) = disks;
    if first.restart(0).is_err() || second.restart(0).is_err() {
        return Err(Fail::Failed);
    }
    match Store::open(alloc, first, second, 1, schema, opening) {
        Ok(store) => Ok(store),
        Err((error, _, _)) => Err(fail_of(error)),
    }
}

/// The same, of disks that are read and not changed.
pub fn read(
    alloc: Global,
    disks: (MemDisk, MemDisk),
    schema: Schema,
    opening: List<(Text, Row)>,
) -> Result<Resource, Fail>
    requires schema { schema ≡ accounts }
    requires opening { opening ≡ account_rows }
{
    let (mut first, mut second) = disks;
    if first.restart(0).is_err() || second.restart(0).is_err() {
        return Err(Fail::Failed);
    }
    match Store::read(alloc, first, second, 1, schema, opening) {
        Ok(store) => Ok(store),
        Err((error, _, _)) => Err(fail_of(error)),
    }
}

/// Two disks of which the first begins with these parts, and the second is blank.
pub fn disks(alloc: Global, parts: &[&[u8]]) -> Result<(MemDisk, MemDisk), Fail> {
    let bytes = joined(alloc, parts)?;
    let first = disk(alloc, &bytes)?;
    let second = disk(alloc, &[])?;
    Ok((first, second))
}

/// The store on two disks of which the first begins with these parts.
pub fn opened(alloc: Global, parts: &[&[u8]]) -> Result<Resource, Fail>
    ensures up { IfOk result (λ s. is_down s ≡ false) }
    ensures within { IfOk result (λ s. AreTablesWithin (known s).tables) }
{
    let schema = accounts(alloc)?;
    let opening = opening(alloc)?;
    let disks = disks(alloc, parts)?;
    open(alloc, disks, schema, opening)
}

/// What row 1 has beside its key.
pub fn amount(alloc: Global, store: &Resource) -> Result<Option<i64>, Fail> {
    let key = key(alloc, 1)?;
    match store.tables().get(&key) {
        Some(row) => match row.0.as_slice() {
            [_, Value::Int(amount)] => Ok(Some(*amount)),
            _ => Ok(None),
        },
        None => Ok(None),
    }
}

/// No snapshot, and the record of the first opening.
pub const FIRST_BOOT: [u8; 19] = [0, 0, 0, 0, 0, 0, 0, 0, 0, 1, 0, 0, 0, 5, 1, 0, 0, 0, 1];
