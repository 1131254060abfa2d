//! Tables: their modes, their columns and their keys.
ghost use Rattle.std.specs.Prelude.{◌≡◌, ◌≤◌, ◌+◌, ◌==◌, [], option_map, option_copied, length, IfOk};
ghost use Rattle.std.specs.List.{list_any};
ghost use Rattle.seata_types.specs.declared.limits.TheConstants.{COLUMNS, RESOURCE_ROWS};
ghost use Rattle.serde_json.specs.Find.{as_str};
ghost use Rattle.serde_json.specs.View.{view, items_view};
ghost use Rattle.scenario_reader.specs.Tables as form;
ghost use Rattle.scenario_reader.specs.Faults.{Answers, AnswersAs, each, vec_of};

use crate::errors::ScenarioError;
use crate::names::{has_name, is_table_name, new_name, position_of};
use crate::rows::rows;
use crate::shapes::{an_object, list, only, pair, text, text_in};
use local_tables::{ColType, TableDef};
use seata_types::limits::{COLUMNS, KEY_PARTS};
use seata_types::{BranchKind, List, Row, Text};
use serde_json::Value;
use std::alloc::Global;

/// A table's name, behind these tables.
#[tactic(auto, unfolding(crate::specs::Tables::table_name))]
fn table_name(
    alloc: Global,
    defs: &[TableDef],
    found: Option<&Value>,
) -> Result<Text, ScenarioError>
    ensures { Answers (form.table_name defs.now (option_map view (option_copied found.entry))) result }
{
    let name = text(alloc, found)?;
    new_name(alloc, has_name(defs, name), name)
}

/// The mode of a table.
#[tactic(auto, unfolding(crate::specs::Tables::mode))]
fn mode(alloc: Global, found: Option<&Value>) -> Result<BranchKind, ScenarioError>
    ensures { Answers (form.mode (option_map view (option_copied found.entry))) result }
{
    let word = text(alloc, found)?;
    if word == "AT" {
        return Ok(BranchKind::At);
    }
    if word == "TCC" {
        return Ok(BranchKind::Tcc);
    }
    Err(ScenarioError::shape(alloc))
}

// ---- columns

fn column_name(
    alloc: Global,
    columns: &[(Text, ColType)],
    value: &Value,
) -> Result<Text, ScenarioError>
    ensures { Answers (form.column_name columns.now (as_str (view value.now))) result }
{
    let name = text_in(alloc, value)?;
    new_name(alloc, has_name(columns, name), name)
}

/// The type of a column.
fn column_type(alloc: Global, value: &Value) -> Result<ColType, ScenarioError>
    ensures { Answers (form.column_type (view value.now)) result }
{
    let word = text_in(alloc, value)?;
    if word == "int" {
        return Ok(ColType::Int);
    }
    if word == "text" {
        return Ok(ColType::Text);
    }
    Err(ScenarioError::shape(alloc))
}

/// A column, behind these.
#[tactic(auto, unfolding(crate::specs::Tables::column))]
fn column(
    alloc: Global,
    columns: &[(Text, ColType)],
    value: &Value,
) -> Result<(Text, ColType), ScenarioError>
    ensures { Answers (form.column columns.now (view value.now)) result }
{
    let (first, second) = pair(alloc, value)?;
    let name = match column_name(alloc, columns, first) {
        Ok(name) => name,
        Err(fault) => return Err(fault.in_item(alloc, 0)),
    };
    match column_type(alloc, second) {
        Ok(kind) => Ok((name, kind)),
        Err(fault) => Err(fault.in_item(alloc, 1)),
    }
}

fn each_column(alloc: Global, values: &[Value]) -> Result<Vec<(Text, ColType)>, ScenarioError>
    ensures exact { AnswersAs vec_of (each form.column [] (items_view values.now)) result }
    ensures whole { IfOk result (λ columns. length columns.items ≡ length values.now) }
{
    let mut columns = Vec::new(alloc);
    for value in values {
        let found = match column(alloc, columns.as_slice(), value) {
            Ok(found) => found,
            Err(fault) => return Err(fault.in_item(alloc, columns.len())),
        };
        columns.push(found)?;
    }
    Ok(columns)
}

/// The columns, at least one.
#[tactic(auto, unfolding(crate::specs::Tables::columns))]
fn columns(alloc: Global, found: Option<&Value>) -> Result<List<(Text, ColType)>, ScenarioError>
    ensures exact { Answers (form.columns (option_map view (option_copied found.entry))) result }
    ensures few { IfOk result (λ columns. length columns ≤ COLUMNS) }
{
    let values = list(alloc, COLUMNS, found)?;
    let columns = each_column(alloc, values)?;
    if columns.is_empty() {
        return Err(ScenarioError::beyond(alloc, 1));
    }
    Ok(List::of(columns))
}

// ---- keys

/// The place of the column of this name, counted from 0.
#[tactic(auto, unfolding(crate::specs::Tables::key_column))]
fn key_column(alloc: Global, columns: &[(Text, ColType)], name: &str) -> Result<u16, ScenarioError>
    requires { length columns.now ≤ COLUMNS }
    ensures { Answers (form.key_column columns.now name.now) result }
{
    if !is_table_name(name) {
        return Err(ScenarioError::shape(alloc));
    }
    match position_of(columns, name) {
        Some(place) => Ok(place as u16),
        None => Err(ScenarioError::name(alloc)),
    }
}

fn has_place(places: &[u16], place: u16) -> bool
    ensures { result ≡ list_any (λ p. p == place) places.now }
{
    places.iter().any(|other| *other == place)
}

/// A column of a key, behind those at these places.
#[tactic(auto, unfolding(crate::specs::Tables::key_part))]
fn key_part(
    alloc: Global,
    columns: &[(Text, ColType)],
    places: &[u16],
    value: &Value,
) -> Result<u16, ScenarioError>
    requires { length columns.now ≤ COLUMNS }
    ensures { Answers (form.key_part columns.now places.now (view value.now)) result }
{
    let name = text_in(alloc, value)?;
    let place = key_column(alloc, columns, name)?;
    if has_place(places, place) {
        return Err(ScenarioError::name(alloc));
    }
    Ok(place)
}

fn each_key_part(
    alloc: Global,
    columns: &[(Text, ColType)],
    values: &[Value],
) -> Result<Vec<u16>, ScenarioError>
    requires { length columns.now ≤ COLUMNS }
    ensures { AnswersAs vec_of (each (form.key_part columns.now) [] (items_view values.now)) result }
{
    let mut places = Vec::new(alloc);
    for value in values {
        let found = match key_part(alloc, columns, places.as_slice(), value) {
            Ok(found) => found,
            Err(fault) => return Err(fault.in_item(alloc, places.len())),
        };
        places.push(found)?;
    }
    Ok(places)
}

/// The key columns of a list.
#[tactic(auto, unfolding(crate::specs::Tables::key_list))]
fn key_list(
    alloc: Global,
    columns: &[(Text, ColType)],
    found: Option<&Value>,
) -> Result<List<u16>, ScenarioError>
    requires { length columns.now ≤ COLUMNS }
    ensures { Answers (form.key_list columns.now (option_map view (option_copied found.entry))) result }
{
    let values = list(alloc, KEY_PARTS, found)?;
    let places = each_key_part(alloc, columns, values)?;
    if places.is_empty() {
        return Err(ScenarioError::beyond(alloc, 1));
    }
    Ok(List::of(places))
}

/// The places of the key's columns: one by its name, or those of a list.
#[tactic(auto, unfolding(crate::specs::Tables::key))]
fn key(
    alloc: Global,
    columns: &[(Text, ColType)],
    found: Option<&Value>,
) -> Result<List<u16>, ScenarioError>
    requires { length columns.now ≤ COLUMNS }
    ensures { Answers (form.key columns.now (option_map view (option_copied found.entry))) result }
{
    match found.and_then(Value::as_str) {
        Some(name) => {
            let place = key_column(alloc, columns, name)?;
            let mut places = Vec::new(alloc);
            places.push(place)?;
            Ok(List::of(places))
        }
        None => key_list(alloc, columns, found),
    }
}

// ---- tables

const TABLE_MEMBERS: [&str; 5] = ["name", "mode", "columns", "key", "rows"];

/// A table's name, mode and columns, behind these tables.
#[tactic(auto, unfolding(crate::specs::Tables::heading))]
fn heading(
    alloc: Global,
    defs: &[TableDef],
    value: &Value,
) -> Result<(Text, BranchKind, List<(Text, ColType)>), ScenarioError>
    ensures exact { Answers (form.heading defs.now (view value.now)) result }
    ensures few { IfOk result (λ head. length head.2 ≤ COLUMNS) }
{
    an_object(alloc, value)?;
    let name = match table_name(alloc, defs, value.get("name")) {
        Ok(name) => name,
        Err(fault) => return Err(fault.in_member(alloc, "name")),
    };
    let mode = match mode(alloc, value.get("mode")) {
        Ok(mode) => mode,
        Err(fault) => return Err(fault.in_member(alloc, "mode")),
    };
    match columns(alloc, value.get("columns")) {
        Ok(columns) => Ok((name, mode, columns)),
        Err(fault) => Err(fault.in_member(alloc, "columns")),
    }
}

/// A table's key and its rows, where its resource has so many already.
#[tactic(auto, unfolding(crate::specs::Tables::content))]
fn content(
    alloc: Global,
    used: usize,
    columns: &[(Text, ColType)],
    value: &Value,
) -> Result<(List<u16>, List<Row>), ScenarioError>
    requires used { used ≤ RESOURCE_ROWS }
    requires columns { length columns.now ≤ COLUMNS }
    ensures exact { Answers (form.content used columns.now (view value.now)) result }
    ensures few { IfOk result (λ t. used + length t.1 ≤ RESOURCE_ROWS) }
{
    let key = match key(alloc, columns, value.get("key")) {
        Ok(key) => key,
        Err(fault) => return Err(fault.in_member(alloc, "key")),
    };
    match rows(alloc, used, columns, key.as_slice(), value.get("rows")) {
        Ok(rows) => Ok((key, rows)),
        Err(fault) => Err(fault.in_member(alloc, "rows")),
    }
}

/// A table with its rows, behind these tables and so many rows of its resource.
#[tactic(auto, unfolding(crate::specs::Tables::table))]
pub fn table(
    alloc: Global,
    defs: &[TableDef],
    used: usize,
    value: &Value,
) -> Result<(TableDef, List<Row>), ScenarioError>
    requires { used ≤ RESOURCE_ROWS }
    ensures exact { Answers (form.table defs.now used (view value.now)) result }
    ensures few { IfOk result (λ t. used + length t.1 ≤ RESOURCE_ROWS) }
{
    let (name, mode, columns) = heading(alloc, defs, value)?;
    let (key, rows) = content(alloc, used, columns.as_slice(), value)?;
    only(alloc, &TABLE_MEMBERS, value)?;
    let def = TableDef {
        name,
        mode,
        columns,
        key,
    };
    Ok((def, rows))
}
