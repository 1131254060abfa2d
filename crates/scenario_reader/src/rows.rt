//! The rows of a table at the opening.
ghost use Rattle.std.specs.Prelude.{◌≡◌, ◌≤◌, ◌+◌, ◌-◌, [], slice_get, option_map, option_copied, length, not, ◌++◌, ◌∷◌, true, IfOk, IfErr, OnOk};
ghost use Rattle.std.specs.BTreeSet as sets;
ghost use Rattle.std.specs.List.{list_all};
ghost use Rattle.seata_types.specs.declared.limits.TheConstants.{RESOURCE_ROWS};
ghost use Rattle.serde_json.specs.Find.{as_array};
ghost use Rattle.serde_json.specs.View.{view, items_view};
ghost use Rattle.scenario_form.specs.Contents as contents;
ghost use Rattle.scenario_reader.specs.Tables as form;
ghost use Rattle.scenario_reader.specs.Faults.{Answers, AnswersAs, each, vec_of};

use crate::errors::ScenarioError;
use crate::names::owned;
use crate::shapes::text_in;
use local_tables::ColType;
use seata_types::limits::{RESOURCE_ROWS, TEXT_BYTES};
use seata_types::{Duplicate, List, Row, Text, Value as Cell};
use serde_json::Value;
use std::alloc::Global;
use std::cmp::Ordering;
use std::collections::BTreeSet;

/// A whole number.
#[tactic(auto, unfolding(crate::specs::Tables::int_cell))]
fn int_cell(alloc: Global, value: &Value) -> Result<Cell, ScenarioError>
    ensures { Answers (form.int_cell (view value.now)) result }
{
    match value.as_i64() {
        Some(number) => Ok(Cell::Int(number)),
        None => match value.as_u64() {
            Some(_) => Err(ScenarioError::beyond(alloc, i64::MAX as u64)),
            None => Err(ScenarioError::shape(alloc)),
        },
    }
}

fn is_printable(byte: u8) -> bool
    ensures { result ≡ contents.is_printable byte }
{
    byte >= 32 && byte != 127
}

fn all_printable(text: &[u8]) -> bool
    ensures { result ≡ list_all contents.is_printable text.now }
{
    text.iter().all(|byte| is_printable(*byte))
}

/// A text of at most 120 bytes without control characters.
#[tactic(auto, unfolding(crate::specs::Tables::text_cell))]
fn text_cell(alloc: Global, value: &Value) -> Result<Cell, ScenarioError>
    ensures { Answers (form.text_cell (view value.now)) result }
{
    let text = text_in(alloc, value)?;
    if !all_printable(text.as_bytes()) {
        return Err(ScenarioError::shape(alloc));
    }
    if text.len() > TEXT_BYTES {
        return Err(ScenarioError::beyond(alloc, TEXT_BYTES as u64));
    }
    let text = owned(alloc, text)?;
    Ok(Cell::Text(text))
}

/// A row's value in the column at this place, counted from 0.
#[tactic(auto, unfolding(crate::specs::Tables::cell_at))]
fn cell_at(
    alloc: Global,
    columns: &[(Text, ColType)],
    place: usize,
    value: &Value,
) -> Result<Cell, ScenarioError>
    ensures { Answers (form.cell_at columns.now place (view value.now)) result }
{
    match columns.get(place) {
        Some(column) => match column.1 {
            ColType::Int => int_cell(alloc, value),
            ColType::Text => text_cell(alloc, value),
        },
        None => Err(ScenarioError::shape(alloc)),
    }
}

fn each_cell(
    alloc: Global,
    columns: &[(Text, ColType)],
    values: &[Value],
) -> Result<Vec<Cell>, ScenarioError>
    ensures { AnswersAs vec_of (each (form.cell columns.now) [] (items_view values.now)) result }
{
    let mut cells = Vec::with_capacity(alloc, values.len())?;
    for value in values {
        let cell = match cell_at(alloc, columns, cells.len(), value) {
            Ok(cell) => cell,
            Err(fault) => return Err(fault.in_item(alloc, cells.len())),
        };
        cells.push(cell)?;
    }
    Ok(cells)
}

/// A row, with a value for each column.
#[tactic(auto, using(crate::proofs::Items::length_of_items), unfolding(crate::specs::Tables::row))]
fn row(alloc: Global, columns: &[(Text, ColType)], value: &Value) -> Result<Row, ScenarioError>
    ensures { Answers (form.row columns.now (view value.now)) result }
{
    match value.as_array() {
        Some(values) => {
            if values.len() != columns.len() {
                return Err(ScenarioError::shape(alloc));
            }
            let cells = each_cell(alloc, columns, values.as_slice())?;
            Ok(Row(List::of(cells)))
        }
        None => Err(ScenarioError::shape(alloc)),
    }
}

/// The value at a place of a row, if there is one, behind the others.
fn push_part(
    alloc: Global,
    parts: &mut Vec<Cell>,
    row: &Row,
    place: u16,
) -> Result<(), ScenarioError>
    ensures ok { OnOk result (parts.new.items ≡ form.with_part parts.old.items (slice_get row.now.0 place)) }
    ensures refused { IfErr result (λ e. e ≡ ScenarioError.NoMemory) }
{
    match row.0.as_slice().get(place as usize) {
        Some(cell) => {
            parts.push(cell.copy(alloc)?)?;
            Ok(())
        }
        None => Ok(()),
    }
}

/// The key of a row: its values at these places.
fn key_of(alloc: Global, places: &[u16], row: &Row) -> Result<List<Cell>, ScenarioError>
    ensures value { IfOk result (λ key. key ≡ form.key_of places.now row.now) }
    ensures refused { IfErr result (λ e. e ≡ ScenarioError.NoMemory) }
{
    let mut parts = Vec::new(alloc);
    for place in places {
        push_part(alloc, &mut parts, row, *place)?;
    }
    Ok(List::of(parts))
}

/// Notes a key, and says whether it is new.
fn is_new(keys: &mut BTreeSet<List<Cell>>, key: List<Cell>) -> Result<bool, ScenarioError>
    ensures answer { IfOk result (λ new. new ≡ not (form.is_noted keys.old.keys key)) }
    ensures noted { OnOk result (form.Notes key keys.old.keys keys.new.keys) }
    ensures refused { IfErr result (λ e. e ≡ ScenarioError.NoMemory) }
{
    Ok(keys.insert(key)?)
}

/// The keys of rows.
#[tactic(auto, using(crate::proofs::Rowed::no_keys))]
fn keys_of(
    alloc: Global,
    places: &[u16],
    rows: &[Row],
) -> Result<BTreeSet<List<Cell>>, ScenarioError>
    ensures value { IfOk result (λ keys. form.HaveKeys places.now rows.now keys.keys) }
    ensures refused { IfErr result (λ e. e ≡ ScenarioError.NoMemory) }
{
    let mut keys = BTreeSet::new(alloc);
    for row in rows {
        let key = key_of(alloc, places, row)?;
        is_new(&mut keys, key)?;
    }
    Ok(keys)
}

/// How two rows' values at a place stand to each other, if both have one.
fn part_order(place: u16, a: &Row, b: &Row) -> Option<Ordering>
    ensures { result ≡ form.part_order (slice_get a.now.0 place) (slice_get b.now.0 place) }
{
    match (
        a.0.as_slice().get(place as usize),
        b.0.as_slice().get(place as usize),
    ) {
        (Some(first), Some(second)) => Some(first.cmp(second)),
        _ => None,
    }
}

/// Whether the second row's key stands behind the first's.
fn rises(places: &[u16], a: &Row, b: &Row) -> bool
    ensures { result ≡ form.rises places.now a.now b.now }
{
    for place in places {
        match part_order(*place, a, b) {
            Some(Ordering::Less) => return true,
            Some(Ordering::Equal) => {}
            _ => return false,
        }
    }
    false
}

/// Whether a row's key stands behind that of the last of these.
fn is_behind(places: &[u16], rows: &[Row], row: &Row) -> bool
    ensures { result ≡ form.is_behind places.now rows.now row.now }
{
    match rows.last() {
        Some(last) => rises(places, last, row),
        None => true,
    }
}

/// Whether none of these rows has this row's key. As long as the rows rise, their keys aren't noted.
#[tactic(auto, using(crate::proofs::Rowed::behind_free, crate::proofs::Rowed::behind_push, crate::proofs::Rowed::keys_push), unfolding(crate::specs::Tables::IsNoted))]
fn is_free(
    alloc: Global,
    places: &[u16],
    rows: &[Row],
    noted: &mut Option<BTreeSet<List<Cell>>>,
    row: &Row,
) -> Result<bool, ScenarioError>
    ensures answer { form.IsNoted places.now rows.now (option_map sets.keys noted.old) → IfOk result (λ free. free ≡ not (form.has_key places.now rows.now (form.key_of places.now row.now))) }
    ensures noted { form.IsNoted places.now rows.now (option_map sets.keys noted.old) → IfOk result (λ free. free ≡ true → form.IsNoted places.now (rows.now ++ row.now ∷ []) (option_map sets.keys noted.new)) }
    ensures refused { IfErr result (λ e. e ≡ ScenarioError.NoMemory) }
{
    if let Some(keys) = noted {
        let key = key_of(alloc, places, row)?;
        return is_new(keys, key);
    }
    if is_behind(places, rows, row) {
        return Ok(true);
    }
    let mut keys = keys_of(alloc, places, rows)?;
    let key = key_of(alloc, places, row)?;
    let is_free = is_new(&mut keys, key)?;
    *noted = Some(keys);
    Ok(is_free)
}

/// A row whose key none of these has.
#[tactic(auto, using(crate::proofs::Rowed::used_row, crate::proofs::Rowed::free_row), unfolding(crate::specs::Tables::new_row))]
fn new_row(
    alloc: Global,
    columns: &[(Text, ColType)],
    places: &[u16],
    rows: &[Row],
    noted: &mut Option<BTreeSet<List<Cell>>>,
    value: &Value,
) -> Result<Row, ScenarioError>
    ensures exact { form.IsNoted places.now rows.now (option_map sets.keys noted.old) → Answers (form.new_row columns.now places.now rows.now (view value.now)) result }
    ensures noted { form.IsNoted places.now rows.now (option_map sets.keys noted.old) → IfOk result (λ row. form.IsNoted places.now (rows.now ++ row ∷ []) (option_map sets.keys noted.new)) }
{
    let row = row(alloc, columns, value)?;
    if !is_free(alloc, places, rows, noted, &row)? {
        return Err(ScenarioError::name(alloc));
    }
    Ok(row)
}

#[tactic(auto, using(crate::proofs::Rowed::nothing_noted))]
fn each_row(
    alloc: Global,
    columns: &[(Text, ColType)],
    places: &[u16],
    values: &[Value],
) -> Result<Vec<Row>, ScenarioError>
    ensures exact { AnswersAs vec_of (each (form.new_row columns.now places.now) [] (items_view values.now)) result }
    ensures whole { IfOk result (λ rows. length rows.items ≡ length values.now) }
{
    let mut rows = Vec::with_capacity(alloc, values.len())?;
    let mut noted = None;
    for value in values {
        let row = match new_row(alloc, columns, places, rows.as_slice(), &mut noted, value) {
            Ok(row) => row,
            Err(fault) => return Err(fault.in_item(alloc, rows.len())),
        };
        rows.push(row)?;
    }
    Ok(rows)
}

/// The rows of a table, where its resource has so many already.
#[tactic(auto, using(crate::proofs::Items::length_of_items), unfolding(crate::specs::Tables::rows))]
pub fn rows(
    alloc: Global,
    used: usize,
    columns: &[(Text, ColType)],
    places: &[u16],
    found: Option<&Value>,
) -> Result<List<Row>, ScenarioError>
    requires { used ≤ RESOURCE_ROWS }
    ensures exact { Answers (form.rows used columns.now places.now (option_map view (option_copied found.entry))) result }
    ensures few { IfOk result (λ rows. used + length rows ≤ RESOURCE_ROWS) }
{
    match found.and_then(Value::as_array) {
        Some(values) => {
            if values.len() > RESOURCE_ROWS - used {
                return Err(ScenarioError::beyond(alloc, RESOURCE_ROWS as u64));
            }
            let rows = each_row(alloc, columns, places, values.as_slice())?;
            Ok(List::of(rows))
        }
        None => Err(ScenarioError::shape(alloc)),
    }
}
