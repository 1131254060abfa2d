//! The rows that a statement touches and reads, under the changes of its call so far.
ghost use Rattle.std.specs.Prelude.{◌≡◌, map, position, slice_get, IfOk};
ghost use Rattle.seata_types.specs.Orders.{same_text};
ghost use Rattle.std.specs.Option.{option_copied};
ghost use Rattle.local_tables.specs.Rows.{comes, goes, key_values, keyed, put_all, IsMap};
ghost use Rattle.local_tables.specs.Touches.{value_for, tuple_row, inserted, becomes, touches, readings};
ghost use Rattle.local_tables.specs.Lookups.{IsRising, HasKeysOf};

use crate::expressions::updated;
use crate::maps::key_in;
use crate::matching::matched;
use crate::row_map::RowMap;
use crate::schemas::{ColType, TableDef};
use seata_types::{Duplicate, Expr, List, NoMemory, Row, RowKey, Stmt, Text, Value};
use std::alloc::Global;
use std::collections::BTreeMap;

/// The place of a column among those that an INSERT names.
fn place_among(columns: &[Text], name: &Text) -> Option<usize>
    ensures { result ≡ position (same_text name.now) columns.now }
{
    columns.iter().position(|other| *name == *other)
}

/// The value that a tuple has for a column.
fn value_for<'a>(
    columns: &[Text],
    tuple: &'a [Value],
    column: &(Text, ColType),
) -> Option<&'a Value>
    ensures { option_copied result ≡ value_for columns.now tuple.now column.now }
{
    match place_among(columns, &column.0) {
        Some(place) => tuple.get(place),
        None => None,
    }
}

/// A tuple's values in the order of the table's columns.
fn tuple_row(
    alloc: Global,
    def: &TableDef,
    columns: &[Text],
    tuple: &[Value],
) -> Result<Row, NoMemory>
    ensures { IfOk result (λ row. row ≡ tuple_row def.now columns.now tuple.now) }
{
    let mut cells = Vec::new(alloc);
    for column in def.columns.as_slice() {
        if let Some(value) = value_for(columns, tuple, column) {
            cells.push(value.copy(alloc)?)?;
        }
    }
    Ok(Row(List::of(cells)))
}

/// The cell at a place, counted from 0.
fn cell_at(row: &Row, place: u16) -> Option<&Value>
    ensures { option_copied result ≡ slice_get row.now.0 place }
{
    row.0.as_slice().get(usize::from(place))
}

/// A row's values in the key columns, in key order, where all are there.
pub fn key_values(alloc: Global, def: &TableDef, row: &Row) -> Result<Option<List<Value>>, NoMemory>
    ensures { IfOk result (λ found. found ≡ key_values def.now row.now) }
{
    let mut values = Vec::new(alloc);
    for place in def.key.as_slice() {
        let Some(value) = cell_at(row, *place) else {
            return Ok(None);
        };
        values.push(value.copy(alloc)?)?;
    }
    Ok(Some(List::of(values)))
}

/// A row of a table with its key.
pub fn keyed(
    alloc: Global,
    resource: u16,
    def: &TableDef,
    row: Row,
) -> Result<Option<(RowKey, Row)>, NoMemory>
    ensures { IfOk result (λ entry. entry ≡ keyed resource def.now row) }
{
    let Some(values) = key_values(alloc, def, &row)? else {
        return Ok(None);
    };
    let key = key_in(alloc, resource, def, values)?;
    Ok(Some((key, row)))
}

/// The rows that an INSERT makes, in the order of its tuples.
fn insertions(
    alloc: Global,
    resource: u16,
    def: &TableDef,
    columns: &[Text],
    tuples: &[List<Value>],
) -> Result<Vec<(RowKey, Option<Row>)>, NoMemory>
    ensures { IfOk result (λ changes. changes.items ≡ map comes (inserted resource def.now columns.now tuples.now)) }
{
    let mut changes = Vec::new(alloc);
    for tuple in tuples {
        let row = tuple_row(alloc, def, columns, tuple.as_slice())?;
        if let Some((key, row)) = keyed(alloc, resource, def, row)? {
            changes.push((key, Some(row)))?;
        }
    }
    Ok(changes)
}

/// The matched rows as an UPDATE leaves them.
fn updates(
    alloc: Global,
    def: &TableDef,
    sets: &[(Text, Expr)],
    found: Vec<(RowKey, Row)>,
) -> Result<Vec<(RowKey, Option<Row>)>, NoMemory>
    ensures { IfOk result (λ changes. changes.items ≡ map (becomes def.now sets.now) found.items) }
{
    let mut changes = Vec::new(alloc);
    for (key, row) in found {
        let new = updated(alloc, def, sets, &row)?;
        changes.push((key, new))?;
    }
    Ok(changes)
}

/// The matched rows as a DELETE leaves them.
fn removals(
    alloc: Global,
    found: Vec<(RowKey, Row)>,
) -> Result<Vec<(RowKey, Option<Row>)>, NoMemory>
    ensures { IfOk result (λ changes. changes.items ≡ map goes found.items) }
{
    let mut changes = Vec::new(alloc);
    for (key, _row) in found {
        changes.push((key, None))?;
    }
    Ok(changes)
}

/// Each row that a statement touches, as it leaves it.
pub fn touches(
    alloc: Global,
    resource: u16,
    def: &TableDef,
    stmt: &Stmt,
    rows: &BTreeMap<RowKey, Row>,
    changes: &RowMap<Option<Row>>,
) -> Result<Vec<(RowKey, Option<Row>)>, NoMemory>
    requires in_order { IsMap rows.now.entries }
    requires rising { IsRising changes.now }
    requires keyed { HasKeysOf def.now (put_all rows.now.entries changes.now) }
    ensures { IfOk result (λ made. made.items ≡ touches resource def.now stmt.now (put_all rows.now.entries changes.now)) }
{
    match stmt {
        Stmt::Insert {
            columns,
            rows: tuples,
            ..
        } => {
            let made = insertions(alloc, resource, def, columns.as_slice(), tuples.as_slice())?;
            Ok(made)
        }
        Stmt::Update { sets, cond, .. } => {
            let found = matched(alloc, resource, def, cond, rows, changes)?;
            let made = updates(alloc, def, sets.as_slice(), found)?;
            Ok(made)
        }
        Stmt::Delete { cond, .. } => {
            let found = matched(alloc, resource, def, cond, rows, changes)?;
            let made = removals(alloc, found)?;
            Ok(made)
        }
        Stmt::Select { .. } => Ok(Vec::new(alloc)),
    }
}

/// Each row that a statement reads.
pub fn readings(
    alloc: Global,
    resource: u16,
    def: &TableDef,
    stmt: &Stmt,
    rows: &BTreeMap<RowKey, Row>,
    changes: &RowMap<Option<Row>>,
) -> Result<Vec<(RowKey, Row)>, NoMemory>
    requires in_order { IsMap rows.now.entries }
    requires rising { IsRising changes.now }
    requires keyed { HasKeysOf def.now (put_all rows.now.entries changes.now) }
    ensures { IfOk result (λ found. found.items ≡ readings resource def.now stmt.now (put_all rows.now.entries changes.now)) }
{
    match stmt {
        Stmt::Select { cond, .. } => {
            let found = matched(alloc, resource, def, cond, rows, changes)?;
            Ok(found)
        }
        Stmt::Insert { .. } => Ok(Vec::new(alloc)),
        Stmt::Update { .. } => Ok(Vec::new(alloc)),
        Stmt::Delete { .. } => Ok(Vec::new(alloc)),
    }
}
