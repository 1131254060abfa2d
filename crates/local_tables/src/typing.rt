//! Whether literals, inserted values, set expressions and the values of rows have their column's type.
ghost use Rattle.std.specs.Prelude.{◌≡◌, zip, Some};
ghost use Rattle.std.specs.List.{list_all};
ghost use Rattle.local_tables.specs.Checks.{passes, type_of, column_type, same_type, fits_column, term_type, is_number, is_number_part, sum_fits, fits_set, fits_condition, fits_tuple, has_types};
ghost use Rattle.local_tables.specs.Rows.{fits_cell, fits_row};

use crate::schemas::{ColType, TableDef};
use seata_types::{Cond, CondNode, Expr, List, Row, Sign, Stmt, Term, Text, Value};

fn type_of(value: &Value) -> ColType
    ensures { result ≡ type_of value.now }
{
    match value {
        Value::Int(_) => ColType::Int,
        Value::Text(_) => ColType::Text,
    }
}

fn column_type(def: &TableDef, name: &Text) -> Option<ColType>
    ensures { result ≡ column_type def.now name.now }
{
    def.columns
        .as_slice()
        .iter()
        .find(|column| column.0 == *name)
        .map(|column| column.1)
}

fn same_type(left: Option<ColType>, right: Option<ColType>) -> bool
    ensures { result ≡ same_type left right }
{
    match (left, right) {
        (Some(ColType::Int), Some(ColType::Int)) => true,
        (Some(ColType::Text), Some(ColType::Text)) => true,
        _ => false,
    }
}

fn fits_column(def: &TableDef, name: &Text, value: &Value) -> bool
    ensures { result ≡ fits_column def.now name.now value.now }
{
    same_type(column_type(def, name), Some(type_of(value)))
}

fn term_type(def: &TableDef, term: &Term) -> Option<ColType>
    ensures { result ≡ term_type def.now term.now }
{
    match term {
        Term::Lit(literal) => Some(type_of(literal)),
        Term::Column(name) => column_type(def, name),
    }
}

fn is_number(def: &TableDef, term: &Term) -> bool
    ensures { result ≡ is_number def.now term.now }
{
    same_type(term_type(def, term), Some(ColType::Int))
}

fn are_numbers(def: &TableDef, rest: &[(Sign, Term)]) -> bool
    ensures { result ≡ list_all (is_number_part def.now) rest.now }
{
    rest.iter().all(|part| is_number(def, &part.1))
}

fn sum_fits(def: &TableDef, wanted: Option<ColType>, expr: &Expr) -> bool
    ensures { result ≡ sum_fits def.now wanted expr.now.first expr.now.rest }
{
    let rest = expr.rest.as_slice();
    if rest.is_empty() {
        return same_type(wanted, term_type(def, &expr.first));
    }
    same_type(wanted, Some(ColType::Int)) && is_number(def, &expr.first) && are_numbers(def, rest)
}

fn fits_set(def: &TableDef, set: &(Text, Expr)) -> bool
    ensures { result ≡ fits_set def.now set.now }
{
    sum_fits(def, column_type(def, &set.0), &set.1)
}

fn fits_sets(def: &TableDef, sets: &[(Text, Expr)]) -> bool
    ensures { result ≡ list_all (fits_set def.now) sets.now }
{
    sets.iter().all(|set| fits_set(def, set))
}

fn fits_condition(def: &TableDef, cond: &Cond) -> bool
    ensures { result ≡ fits_condition def.now cond.now }
{
    match &cond.node {
        CondNode::Cmp { column, value, .. } => fits_column(def, column, value),
        CondNode::And(parts) => fits_condition(def, &parts.0) && fits_condition(def, &parts.1),
        CondNode::Or(parts) => fits_condition(def, &parts.0) && fits_condition(def, &parts.1),
        CondNode::Not(inner) => fits_condition(def, inner),
    }
}

fn fits_asked(def: &TableDef, cond: &Option<Cond>) -> bool
    ensures { result ≡ passes (fits_condition def.now) cond.now }
{
    match cond {
        Some(asked) => fits_condition(def, asked),
        None => true,
    }
}

fn fits_tuple(def: &TableDef, columns: &[Text], tuple: &[Value]) -> bool
    ensures { result ≡ fits_tuple def.now columns.now tuple.now }
{
    columns
        .iter()
        .zip(tuple)
        .all(|(name, value)| fits_column(def, name, value))
}

fn fits_tuples(def: &TableDef, columns: &[Text], tuples: &[List<Value>]) -> bool
    ensures { result ≡ list_all (fits_tuple def.now columns.now) tuples.now }
{
    tuples
        .iter()
        .all(|tuple| fits_tuple(def, columns, tuple.as_slice()))
}

/// Whether literals, inserted values and set expressions have their column's type.
pub fn has_types(def: &TableDef, stmt: &Stmt) -> bool
    ensures { result ≡ has_types def.now stmt.now }
{
    match stmt {
        Stmt::Insert { columns, rows, .. } => fits_tuples(def, columns.as_slice(), rows.as_slice()),
        Stmt::Update { sets, cond, .. } => {
            fits_sets(def, sets.as_slice()) && fits_asked(def, cond)
        }
        Stmt::Delete { cond, .. } => fits_asked(def, cond),
        Stmt::Select { cond, .. } => fits_asked(def, cond),
    }
}

fn fits_cells(def: &TableDef, columns: &[(Text, ColType)], values: &[Value]) -> bool
    ensures { result ≡ list_all (fits_cell def.now) (zip columns.now values.now) }
{
    columns
        .iter()
        .zip(values)
        .all(|(column, value)| fits_column(def, &column.0, value))
}

/// Whether a row has as many values as its table has columns, each of its column's type. Takes no memory.
pub fn fits_row(def: &TableDef, row: &Row) -> bool
    ensures { result ≡ fits_row def.now row.now }
{
    let (columns, values) = (def.columns.as_slice(), row.0.as_slice());
    values.len() == columns.len() && fits_cells(def, columns, values)
}
