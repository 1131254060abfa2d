//! Columns of a table, and what a condition says of a row.
ghost use Rattle.std.specs.Prelude.{◌≡◌};
ghost use Rattle.std.specs.Option.{option_copied};
ghost use Rattle.local_tables.specs.Rows.{table_named};
ghost use Rattle.local_tables.specs.Cells.{place_of, cell, meets, compares, holds, selects};

use crate::schemas::{Schema, TableDef};
use seata_types::{Cond, CondNode, Op, Row, Text, Value};
use std::cmp::Ordering;

/// The table of this name.
pub fn table_named<'a>(schema: &'a Schema, name: &Text) -> Option<&'a TableDef>
    ensures { option_copied result ≡ table_named schema.now name.now }
{
    schema
        .tables
        .as_slice()
        .iter()
        .find(|def| def.name == *name)
}

/// The place of a column in the rows of its table.
pub fn place_of(def: &TableDef, name: &Text) -> Option<usize>
    ensures { result ≡ place_of def.now name.now }
{
    def.columns
        .as_slice()
        .iter()
        .position(|column| column.0 == *name)
}

/// The value of a column in a row.
pub fn cell<'a>(def: &TableDef, row: &'a Row, name: &Text) -> Option<&'a Value>
    ensures { option_copied result ≡ cell def.now row.now name.now }
{
    match place_of(def, name) {
        Some(place) => row.0.as_slice().get(place),
        None => None,
    }
}

/// Whether an order meets a comparison.
fn meets(op: Op, order: Ordering) -> bool
    ensures { result ≡ meets op order }
{
    match op {
        Op::Eq => order.is_eq(),
        Op::Ne => !order.is_eq(),
        Op::Lt => order.is_lt(),
        Op::Le => !order.is_gt(),
        Op::Gt => order.is_gt(),
        Op::Ge => !order.is_lt(),
    }
}

/// Whether a value that is there meets a comparison with a literal.
fn compares(op: Op, literal: &Value, found: Option<&Value>) -> bool
    ensures { result ≡ compares op literal.now (option_copied found.entry) }
{
    match found {
        Some(value) => meets(op, value.cmp(literal)),
        None => false,
    }
}

/// Whether a condition holds of a row.
pub fn holds(def: &TableDef, row: &Row, cond: &Cond) -> bool
    ensures { result ≡ holds def.now row.now cond.now }
{
    match &cond.node {
        CondNode::Cmp { column, op, value } => compares(*op, value, cell(def, row, column)),
        CondNode::And(parts) => holds(def, row, &parts.0) && holds(def, row, &parts.1),
        CondNode::Or(parts) => holds(def, row, &parts.0) || holds(def, row, &parts.1),
        CondNode::Not(inner) => !holds(def, row, inner),
    }
}

/// Whether a statement's condition holds of a row; without one it holds of all.
pub fn selects(def: &TableDef, cond: &Option<Cond>, row: &Row) -> bool
    ensures { result ≡ selects def.now cond.now row.now }
{
    match cond {
        Some(asked) => holds(def, row, asked),
        None => true,
    }
}
