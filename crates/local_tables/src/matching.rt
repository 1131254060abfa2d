//! The rows of a table of which a condition holds, under the changes of a call so far.
ghost use Rattle.std.specs.Prelude.{◌≡◌, map, option_and_then, IfOk, OnOk};
ghost use Rattle.local_tables.specs.Cells.{place_of};
ghost use Rattle.local_tables.specs.Checks.{is_place};
ghost use Rattle.std.specs.Option.{option_copied};
ghost use Rattle.local_tables.specs.Rows.{is_in, key_in, row_at, put, put_all, IsMap};
ghost use Rattle.local_tables.specs.Touches.{is_matched, matched};
ghost use Rattle.local_tables.specs.Lookups.{IsRising, HasKeysOf, over, change_at, kept, is_equality, literal_at, key_literals, key_above, is_before, only};

use crate::conditions::{place_of, selects};
use crate::maps::{insert, key_in, present};
use crate::row_map::RowMap;
use crate::schemas::TableDef;
use seata_types::{Cond, CondNode, Duplicate, List, NoMemory, Op, Row, RowKey, Text, Value};
use std::alloc::Global;
use std::collections::BTreeMap;

/// Whether a key is of a table.
fn is_in(resource: u16, def: &TableDef, key: &RowKey) -> bool
    ensures { result ≡ is_in resource def.now key.now }
{
    key.resource == resource && key.table == def.name
}

/// Whether a row is of a table and a condition holds of it.
fn is_matched(resource: u16, def: &TableDef, cond: &Option<Cond>, key: &RowKey, row: &Row) -> bool
    ensures { result ≡ is_matched resource def.now cond.now (key.now, row.now) }
{
    is_in(resource, def, key) && selects(def, cond, row)
}

/// Whether a key is of a table that stands before this one.
fn is_before(resource: u16, def: &TableDef, key: &RowKey) -> bool
    ensures { result ≡ is_before resource def.now key.now }
{
    if key.resource != resource {
        return key.resource < resource;
    }
    key.table < def.name
}

/// A key above all keys of a table: one more character makes the next text after its name.
fn key_above(alloc: Global, resource: u16, def: &TableDef) -> Result<RowKey, NoMemory>
    ensures { IfOk result (λ key. key ≡ key_above resource def.now) }
{
    let mut name = String::from_str(alloc, def.name.as_str())?;
    name.push_str("\0")?;
    Ok(RowKey {
        resource,
        table: Text::of(name),
        pk: List::of(Vec::new(alloc)),
    })
}

/// The rows of a table of which the condition holds. They stand together, so they are passed from the last one back.
fn filtered(
    alloc: Global,
    resource: u16,
    def: &TableDef,
    cond: &Option<Cond>,
    rows: &BTreeMap<RowKey, Row>,
) -> Result<BTreeMap<RowKey, Row>, NoMemory>
    requires { IsMap rows.now.entries }
    ensures { IfOk result (λ found. found.entries ≡ matched resource def.now cond.now rows.now.entries) }
{
    let mut found = BTreeMap::new(alloc);
    let mut left = rows.range(..key_above(alloc, resource, def)?);
    while let Some((key, row)) = left.next_back() {
        if is_before(resource, def, key) {
            break;
        }
        if is_matched(resource, def, cond, key, row) {
            insert(&mut found, key.copy(alloc)?, row.copy(alloc)?)?;
        }
    }
    Ok(found)
}

/// Lets a change stand among the rows found: its row where the condition holds of it, else no row.
fn follow(
    alloc: Global,
    resource: u16,
    def: &TableDef,
    cond: &Option<Cond>,
    found: &mut BTreeMap<RowKey, Row>,
    key: &RowKey,
    change: &Option<Row>,
) -> Result<(), NoMemory>
    ensures { OnOk result (found.new.entries ≡ put found.old.entries key.now (kept (is_matched resource def.now cond.now) (key.now, change.now)).1) }
{
    if let Some(row) = change
        && is_matched(resource, def, cond, key, row)
    {
        return insert(found, key.copy(alloc)?, row.copy(alloc)?);
    }
    found.remove(key);
    Ok(())
}

/// The rows of which the condition holds: those without changes, and each change put over them.
fn passed(
    alloc: Global,
    resource: u16,
    def: &TableDef,
    cond: &Option<Cond>,
    rows: &BTreeMap<RowKey, Row>,
    changes: &RowMap<Option<Row>>,
) -> Result<BTreeMap<RowKey, Row>, NoMemory>
    requires { IsMap rows.now.entries }
    ensures { IfOk result (λ found. found.entries ≡ matched resource def.now cond.now (put_all rows.now.entries changes.now)) }
{
    let mut found = filtered(alloc, resource, def, cond, rows)?;
    let entries = changes.entries();
    for change in entries {
        follow(alloc, resource, def, cond, &mut found, &change.0, &change.1)?;
    }
    Ok(found)
}

/// Whether a column stands at a place.
fn is_place(def: &TableDef, name: &Text, place: u16) -> bool
    ensures { result ≡ is_place place (place_of def.now name.now) }
{
    match place_of(def, name) {
        Some(other) => other == usize::from(place),
        None => false,
    }
}

/// The literal that the column at a place equals wherever a condition holds, where the condition says so. Recurses over
/// the condition, which has at most as many levels as a statement's 2,000 bytes have comparisons.
fn literal_at<'a>(def: &TableDef, cond: &'a Cond, place: u16) -> Option<&'a Value>
    ensures { option_copied result ≡ literal_at def.now cond.now place }
{
    match &cond.node {
        CondNode::Cmp { column, op, value } => {
            if !is_equality(*op) || !is_place(def, column, place) {
                return None;
            }
            Some(value)
        }
        CondNode::And(parts) => match literal_at(def, &parts.0, place) {
            Some(literal) => Some(literal),
            None => literal_at(def, &parts.1, place),
        },
        CondNode::Or(_) => None,
        CondNode::Not(_) => None,
    }
}

fn is_equality(op: Op) -> bool
    ensures { result ≡ is_equality op }
{
    matches!(op, Op::Eq)
}

/// The literals of all key columns, where a condition asks for each.
fn key_literals(alloc: Global, def: &TableDef, cond: &Cond) -> Result<Option<List<Value>>, NoMemory>
    ensures { IfOk result (λ found. found ≡ key_literals def.now cond.now) }
{
    let mut values = Vec::new(alloc);
    for place in def.key.as_slice() {
        let Some(literal) = literal_at(def, cond, *place) else {
            return Ok(None);
        };
        values.push(literal.copy(alloc)?)?;
    }
    Ok(Some(List::of(values)))
}

/// The values of the one key that a condition asks for, where there is a condition and it asks for one.
fn asked_key(
    alloc: Global,
    def: &TableDef,
    cond: &Option<Cond>,
) -> Result<Option<List<Value>>, NoMemory>
    ensures { IfOk result (λ found. found ≡ option_and_then (key_literals def.now) cond.now) }
{
    match cond {
        Some(asked) => key_literals(alloc, def, asked),
        None => Ok(None),
    }
}

/// The rows of a map, in its order.
fn listed(alloc: Global, rows: BTreeMap<RowKey, Row>) -> Result<Vec<(RowKey, Row)>, NoMemory>
    ensures { IfOk result (λ list. list.items ≡ rows.entries) }
{
    let mut list = Vec::new(alloc);
    for (key, row) in rows {
        list.push((key, row))?;
    }
    Ok(list)
}

/// The one row of which a condition may hold that asks for the key of these values.
fn looked_up(
    alloc: Global,
    resource: u16,
    def: &TableDef,
    cond: &Option<Cond>,
    values: List<Value>,
    rows: &BTreeMap<RowKey, Row>,
    changes: &RowMap<Option<Row>>,
) -> Result<Vec<(RowKey, Row)>, NoMemory>
    ensures { let key = key_in resource def.now values in
        IfOk result (λ found. found.items ≡ only key
        (kept (is_matched resource def.now cond.now) (key, over (row_at rows.now.entries key) (change_at changes.now key))).1) }
{
    let key = key_in(alloc, resource, def, values)?;
    let mut found = Vec::new(alloc);
    if let Some(row) = present(rows, changes, &key)
        && is_matched(resource, def, cond, &key, row)
    {
        found.push((key, row.copy(alloc)?))?;
    }
    Ok(found)
}

/// The rows of a table of which the condition holds, under the changes. Where the condition asks for one key, that
/// is for all its columns, the row is looked up, else the rows of the table are passed.
pub fn matched(
    alloc: Global,
    resource: u16,
    def: &TableDef,
    cond: &Option<Cond>,
    rows: &BTreeMap<RowKey, Row>,
    changes: &RowMap<Option<Row>>,
) -> Result<Vec<(RowKey, Row)>, NoMemory>
    requires in_order { IsMap rows.now.entries }
    requires rising { IsRising changes.now }
    requires keyed { HasKeysOf def.now (put_all rows.now.entries changes.now) }
    ensures { IfOk result (λ found. found.items ≡ matched resource def.now cond.now (put_all rows.now.entries changes.now)) }
{
    let asked = asked_key(alloc, def, cond)?;
    match asked {
        Some(values) => {
            let found = looked_up(alloc, resource, def, cond, values, rows, changes)?;
            Ok(found)
        }
        None => {
            let found = passed(alloc, resource, def, cond, rows, changes)?;
            listed(alloc, found)
        }
    }
}
