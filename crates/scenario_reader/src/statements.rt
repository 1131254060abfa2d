//! The statements of calls and locals.
ghost use Rattle.std.specs.Prelude.{◌≡◌, [], find, option_map, option_copied};
ghost use Rattle.serde_json.specs.View.{view, items_view};
ghost use Rattle.scenario_form.specs.Contents as contents;
ghost use Rattle.scenario_reader.specs.Calls as form;
ghost use Rattle.scenario_reader.specs.Tables.{is_table_named};
ghost use Rattle.scenario_reader.specs.Faults.{Answers, AnswersAs, each, vec_of};

use crate::errors::ScenarioError;
use crate::shapes::{list, text_in};
use local_tables::{Schema, TableDef};
use seata_types::limits::{STATEMENT_BYTES, STATEMENTS};
use seata_types::{BranchKind, List, Stmt};
use serde_json::Value;
use sql_reader::{SqlError, StmtReader};
use std::alloc::Global;

/// A statement of the grammar.
#[tactic(auto, unfolding(crate::specs::Calls::parsed))]
fn parsed<'a>(
    alloc: Global,
    reader: &mut StmtReader<'a>,
    text: &'a str,
) -> Result<Stmt, ScenarioError>
    ensures { Answers (form.parsed text.now) result }
{
    if text.len() > STATEMENT_BYTES {
        return Err(ScenarioError::beyond(alloc, STATEMENT_BYTES as u64));
    }
    match reader.read(alloc, text) {
        Ok(found) => Ok(found),
        Err(SqlError::Refused { at, .. }) => Err(ScenarioError::sql(alloc, at)),
        Err(SqlError::NoMemory) => Err(ScenarioError::NoMemory),
    }
}

/// The table that a statement names.
fn table_of(found: &Stmt) -> &str
    ensures { result.now ≡ contents.table_of found.now }
{
    match found {
        Stmt::Insert { table, .. } => table.as_str(),
        Stmt::Update { table, .. } => table.as_str(),
        Stmt::Delete { table, .. } => table.as_str(),
        Stmt::Select { table, .. } => table.as_str(),
    }
}

/// Whether a statement on a table of this mode may stand in a call of the wanted kind.
fn suits(wanted: BranchKind, mode: BranchKind, found: &Stmt) -> bool
    ensures { result ≡ contents.suits wanted mode found.now }
{
    match (wanted, mode) {
        (BranchKind::At, BranchKind::At) => true,
        (BranchKind::Tcc, BranchKind::Tcc) => !matches!(found, Stmt::Select { .. }),
        (BranchKind::At, BranchKind::Tcc) | (BranchKind::Tcc, BranchKind::At) => false,
    }
}

fn table_named<'a>(tables: &'a [TableDef], name: &str) -> Option<&'a TableDef>
    ensures { option_copied result ≡ find (is_table_named name.now) tables.now }
{
    tables.iter().find(|def| name == def.name.as_str())
}

/// Whether the table of a statement is there and of the kind of its call. The statement is lent, so that
/// a fault lets it go at one place.
#[tactic(auto, unfolding(crate::specs::Calls::standing))]
fn stands(
    alloc: Global,
    schema: &Schema,
    wanted: BranchKind,
    found: &Stmt,
) -> Result<(), ScenarioError>
    ensures { AnswersAs (λ _. found.now) (form.standing schema.now wanted found.now) result }
{
    match table_named(schema.tables.as_slice(), table_of(found)) {
        Some(def) => {
            if !suits(wanted, def.mode, found) {
                return Err(ScenarioError::mode(alloc));
            }
            Ok(())
        }
        None => Err(ScenarioError::name(alloc)),
    }
}

#[tactic(auto, unfolding(crate::specs::Calls::statement))]
fn statement<'a>(
    alloc: Global,
    reader: &mut StmtReader<'a>,
    schema: &Schema,
    wanted: BranchKind,
    value: &'a Value,
) -> Result<Stmt, ScenarioError>
    ensures { Answers (form.statement schema.now wanted (view value.now)) result }
{
    let text = text_in(alloc, value)?;
    let found = parsed(alloc, reader, text)?;
    match stands(alloc, schema, wanted, &found) {
        Ok(()) => Ok(found),
        Err(fault) => {
            drop(found);
            Err(fault)
        }
    }
}

fn each_statement(
    alloc: Global,
    schema: &Schema,
    wanted: BranchKind,
    values: &[Value],
) -> Result<Vec<Stmt>, ScenarioError>
    ensures { AnswersAs vec_of (each (form.next_statement schema.now wanted) [] (items_view values.now)) result }
{
    let mut reader = StmtReader::new(alloc);
    let mut statements = Vec::with_capacity(alloc, values.len())?;
    for value in values {
        let found = match statement(alloc, &mut reader, schema, wanted, value) {
            Ok(found) => found,
            Err(fault) => return Err(fault.in_item(alloc, statements.len())),
        };
        statements.push(found)?;
    }
    Ok(statements)
}

/// The statements of a list, for tables of this kind.
#[tactic(auto, unfolding(crate::specs::Calls::statements))]
pub fn statements(
    alloc: Global,
    schema: &Schema,
    wanted: BranchKind,
    found: Option<&Value>,
) -> Result<List<Stmt>, ScenarioError>
    ensures { Answers (form.statements schema.now wanted (option_map view (option_copied found.entry))) result }
{
    let values = list(alloc, STATEMENTS, found)?;
    let statements = each_statement(alloc, schema, wanted, values)?;
    Ok(List::of(statements))
}
