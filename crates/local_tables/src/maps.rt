//! Maps by the keys of rows, and copies of what may be there.
ghost use Rattle.std.specs.Prelude.{◌≡◌, IfOk, OnOk, OnErr};
ghost use Rattle.std.specs.BTreeMap.{insert_entry};
ghost use Rattle.std.specs.Option.{option_copied};
ghost use Rattle.seata_types.specs.Orders.{key_cmp};
ghost use Rattle.local_tables.specs.Lookups.{IsRising, change_at, over};
ghost use Rattle.local_tables.specs.Rows.{key_in, row_at};

use crate::row_map::RowMap;
use crate::schemas::TableDef;
use seata_types::{Boxed, Duplicate, List, NoMemory, Row, RowKey, Value};
use std::alloc::Global;
use std::collections::BTreeMap;

/// A copy of a value that may be there.
pub fn copied<T: Duplicate>(alloc: Global, value: Option<&T>) -> Result<Option<T>, NoMemory>
    ensures { IfOk result (λ copy. copy ≡ option_copied value.entry) }
{
    match value {
        Some(value) => Ok(Some(value.copy(alloc)?)),
        None => Ok(None),
    }
}

/// A copy of a value that is there, in a box.
pub fn boxed<T: Duplicate + Drop>(
    alloc: Global,
    value: Option<&T>,
) -> Result<Option<Boxed<T>>, NoMemory>
    ensures { IfOk result (λ copy. copy ≡ option_copied value.entry) }
{
    match value {
        Some(value) => Ok(Some(Boxed::new(alloc, value.copy(alloc)?)?)),
        None => Ok(None),
    }
}

/// The key of a row of a table, by the values of its key columns.
pub fn key_in(
    alloc: Global,
    resource: u16,
    def: &TableDef,
    values: List<Value>,
) -> Result<RowKey, NoMemory>
    ensures { IfOk result (λ key. key ≡ key_in resource def.now values) }
{
    Ok(RowKey {
        resource,
        table: def.name.copy(alloc)?,
        pk: values,
    })
}

/// Puts a value at a key. Without memory all is as before.
pub fn insert<V: Drop>(map: &mut BTreeMap<RowKey, V>, key: RowKey, value: V) -> Result<(), NoMemory>
    ensures ok { OnOk result (map.new.entries ≡ insert_entry key_cmp map.old.entries key value) }
    ensures err { OnErr result (map.new.entries ≡ map.old.entries) }
    ensures in_order { IsRising map.new.entries }
{
    map.insert(key, value)?;
    Ok(())
}

/// What stands at a key under the changes.
pub fn present<'a>(
    rows: &'a BTreeMap<RowKey, Row>,
    changes: &'a RowMap<Option<Row>>,
    key: &RowKey,
) -> Option<&'a Row>
    ensures { option_copied result ≡ over (row_at rows.now.entries key.now) (change_at changes.now key.now) }
{
    match changes.get(key) {
        Some(Some(row)) => Some(row),
        Some(None) => None,
        None => rows.get(key),
    }
}
