//! What is asked of a statement by its table's definition alone, whatever the rows are.
ghost use Rattle.std.specs.Prelude.{◌≡◌, map, Some};
ghost use Rattle.std.specs.List.{list_all, list_any};
ghost use Rattle.local_tables.specs.Checks.{table_of, passes, is_column, knows_term, knows_part, knows_set, knows_condition, knows_columns, is_once, name_of, has_length, set_name, fills_columns, is_among, is_key_column, sets_key, leaves_key};

use crate::conditions::place_of;
use crate::schemas::{ColType, TableDef};
use seata_types::{Cond, CondNode, Expr, List, Stmt, Term, Text, Value};

/// The table that a statement names.
pub fn table_of(stmt: &Stmt) -> &Text
    ensures { result.now ≡ table_of stmt.now }
{
    match stmt {
        Stmt::Insert { table, .. } => table,
        Stmt::Update { table, .. } => table,
        Stmt::Delete { table, .. } => table,
        Stmt::Select { table, .. } => table,
    }
}

// ---- each named column is the table's

fn is_column(def: &TableDef, name: &Text) -> bool
    ensures { result ≡ is_column def.now name.now }
{
    place_of(def, name).is_some()
}

fn knows_term(def: &TableDef, term: &Term) -> bool
    ensures { result ≡ knows_term def.now term.now }
{
    match term {
        Term::Lit(_) => true,
        Term::Column(name) => is_column(def, name),
    }
}

fn knows_terms(def: &TableDef, expr: &Expr) -> bool
    ensures { result ≡ list_all (knows_part def.now) expr.now.rest }
{
    expr.rest
        .as_slice()
        .iter()
        .all(|part| knows_term(def, &part.1))
}

fn knows_set(def: &TableDef, set: &(Text, Expr)) -> bool
    ensures { result ≡ knows_set def.now set.now }
{
    is_column(def, &set.0) && knows_term(def, &set.1.first) && knows_terms(def, &set.1)
}

fn knows_condition(def: &TableDef, cond: &Cond) -> bool
    ensures { result ≡ knows_condition def.now cond.now }
{
    match &cond.node {
        CondNode::Cmp { column, .. } => is_column(def, column),
        CondNode::And(parts) => knows_condition(def, &parts.0) && knows_condition(def, &parts.1),
        CondNode::Or(parts) => knows_condition(def, &parts.0) && knows_condition(def, &parts.1),
        CondNode::Not(inner) => knows_condition(def, inner),
    }
}

fn knows_asked(def: &TableDef, cond: &Option<Cond>) -> bool
    ensures { result ≡ passes (knows_condition def.now) cond.now }
{
    match cond {
        Some(asked) => knows_condition(def, asked),
        None => true,
    }
}

fn knows_sets(def: &TableDef, sets: &[(Text, Expr)]) -> bool
    ensures { result ≡ list_all (knows_set def.now) sets.now }
{
    sets.iter().all(|set| knows_set(def, set))
}

fn knows_names(def: &TableDef, columns: &[Text]) -> bool
    ensures { result ≡ list_all (is_column def.now) columns.now }
{
    columns.iter().all(|name| is_column(def, name))
}

/// Whether each column that a statement names is the table's.
pub fn knows_columns(def: &TableDef, stmt: &Stmt) -> bool
    ensures { result ≡ knows_columns def.now stmt.now }
{
    match stmt {
        Stmt::Insert { columns, .. } => knows_names(def, columns.as_slice()),
        Stmt::Update { sets, cond, .. } => {
            knows_sets(def, sets.as_slice()) && knows_asked(def, cond)
        }
        Stmt::Delete { cond, .. } => knows_asked(def, cond),
        Stmt::Select { cond, .. } => knows_asked(def, cond),
    }
}

// ---- each column once

fn is_once(names: &[Text], name: &Text) -> bool
    ensures { result ≡ is_once names.now name.now }
{
    names.iter().filter(|other| *name == **other).count() == 1
}

fn each_once(names: &[Text], columns: &[(Text, ColType)]) -> bool
    ensures { result ≡ list_all (is_once names.now) (map name_of columns.now) }
{
    for column in columns {
        if !is_once(names, &column.0) {
            return false;
        }
    }
    true
}

fn have_length(tuples: &[List<Value>], count: usize) -> bool
    ensures { result ≡ list_all (has_length count) tuples.now }
{
    tuples.iter().all(|tuple| tuple.as_slice().len() == count)
}

fn is_set_once(sets: &[(Text, Expr)], name: &Text) -> bool
    ensures { result ≡ is_once (map set_name sets.now) name.now }
{
    sets.iter().filter(|set| *name == set.0).count() == 1
}

fn sets_once(sets: &[(Text, Expr)]) -> bool
    ensures { result ≡ list_all (is_once (map set_name sets.now)) (map set_name sets.now) }
{
    for set in sets {
        if !is_set_once(sets, &set.0) {
            return false;
        }
    }
    true
}

/// Whether an INSERT names each column once and its tuples have as many values, and an UPDATE sets no column twice.
pub fn fills_columns(def: &TableDef, stmt: &Stmt) -> bool
    ensures { result ≡ fills_columns def.now stmt.now }
{
    match stmt {
        Stmt::Insert { columns, rows, .. } => {
            let names = columns.as_slice();
            each_once(names, def.columns.as_slice()) && have_length(rows.as_slice(), names.len())
        }
        Stmt::Update { sets, .. } => sets_once(sets.as_slice()),
        Stmt::Delete { .. } => true,
        Stmt::Select { .. } => true,
    }
}

// ---- an UPDATE leaves the key columns

/// Whether a place is one of those of the key columns.
fn is_among(keys: &[u16], place: usize) -> bool
    ensures { result ≡ is_among keys.now (Some place) }
{
    keys.iter().any(|key| place == usize::from(*key))
}

/// Whether a column is a key column.
pub fn is_key_column(def: &TableDef, name: &Text) -> bool
    ensures { result ≡ is_key_column def.now name.now }
{
    match place_of(def, name) {
        Some(place) => is_among(def.key.as_slice(), place),
        None => false,
    }
}

fn set_the_key(def: &TableDef, sets: &[(Text, Expr)]) -> bool
    ensures { result ≡ list_any (sets_key def.now) sets.now }
{
    sets.iter().any(|set| is_key_column(def, &set.0))
}

/// Whether an UPDATE leaves the key column as it is.
pub fn leaves_key(def: &TableDef, stmt: &Stmt) -> bool
    ensures { result ≡ leaves_key def.now stmt.now }
{
    match stmt {
        Stmt::Update { sets, .. } => !set_the_key(def, sets.as_slice()),
        Stmt::Insert { .. } => true,
        Stmt::Delete { .. } => true,
        Stmt::Select { .. } => true,
    }
}
