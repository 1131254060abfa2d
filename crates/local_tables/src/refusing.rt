//! Why a statement has no meaning: what its table's definition refuses, and what the rows refuse.
ghost use Rattle.std.specs.Prelude.{◌≡◌, is_some, count_by, find, option_map};
ghost use Rattle.std.specs.Map.{keys_of};
ghost use Rattle.std.specs.Option.{option_copied};
ghost use Rattle.local_tables.specs.Rows.{is_key, row_at, put_all, IsMap};
ghost use Rattle.local_tables.specs.Touches.{is_taken, first_taken};
ghost use Rattle.local_tables.specs.Refusals.{refusal, change_key, is_gone, overflow_in, duplicate_in, fault};
ghost use Rattle.local_tables.specs.Lookups.{IsRising};

use crate::checking::{fills_columns, knows_columns, leaves_key};
use crate::maps::present;
use crate::row_map::RowMap;
use crate::schemas::TableDef;
use crate::typing::has_types;
use seata_types::limits::CALL_ROWS;
use seata_types::{Boxed, Row, RowKey, Stmt, StmtError};
use std::collections::BTreeMap;

/// The first of the errors that the definition alone shows.
pub fn refusal(def: &TableDef, stmt: &Stmt) -> Option<StmtError>
    ensures { result ≡ refusal def.now stmt.now }
{
    if !knows_columns(def, stmt) {
        return Some(StmtError::NoColumn);
    }
    if !fills_columns(def, stmt) {
        return Some(StmtError::Columns);
    }
    if !leaves_key(def, stmt) {
        return Some(StmtError::KeyChanged);
    }
    if !has_types(def, stmt) {
        return Some(StmtError::TypeMismatch);
    }
    None
}

/// The key of the first change that puts no row.
fn first_gone(made: &[(RowKey, Option<Row>)]) -> Option<&RowKey>
    ensures { option_copied result ≡ option_map change_key (find is_gone made.now) }
{
    made.iter()
        .find(|change| change.1.is_none())
        .map(|change| &change.0)
}

/// The least row that an UPDATE can't compute, of those that it touches.
pub fn overflow_in<'a>(stmt: &Stmt, made: &'a [(RowKey, Option<Row>)]) -> Option<&'a RowKey>
    ensures { option_copied result ≡ overflow_in stmt.now made.now }
{
    match stmt {
        Stmt::Update { .. } => first_gone(made),
        Stmt::Insert { .. } => None,
        Stmt::Delete { .. } => None,
        Stmt::Select { .. } => None,
    }
}

fn is_key(key: &RowKey, other: &RowKey) -> bool
    ensures { result ≡ is_key key.now other.now }
{
    key.cmp(other).is_eq()
}

/// How often a key stands among changes.
fn times(made: &[(RowKey, Option<Row>)], key: &RowKey) -> usize
    ensures { result ≡ count_by (is_key key.now) (keys_of made.now) }
{
    made.iter().filter(|change| is_key(key, &change.0)).count()
}

/// Whether there is a row at a key under the changes.
fn is_there(rows: &BTreeMap<RowKey, Row>, changes: &RowMap<Option<Row>>, key: &RowKey) -> bool
    requires in_order { IsMap rows.now.entries }
    requires rising { IsRising changes.now }
    ensures { result ≡ is_some (row_at (put_all rows.now.entries changes.now) key.now) }
{
    present(rows, changes, key).is_some()
}

/// Whether a key is there already, or stands twice among the changes.
fn is_taken(
    rows: &BTreeMap<RowKey, Row>,
    changes: &RowMap<Option<Row>>,
    made: &[(RowKey, Option<Row>)],
    key: &RowKey,
) -> bool
    requires in_order { IsMap rows.now.entries }
    requires rising { IsRising changes.now }
    ensures { result ≡ is_taken (put_all rows.now.entries changes.now) (keys_of made.now) key.now }
{
    is_there(rows, changes, key) || times(made, key) > 1
}

/// The first key of changes that is there already, or that stands twice.
fn first_taken<'a>(
    rows: &BTreeMap<RowKey, Row>,
    changes: &RowMap<Option<Row>>,
    made: &'a [(RowKey, Option<Row>)],
) -> Option<&'a RowKey>
    requires in_order { IsMap rows.now.entries }
    requires rising { IsRising changes.now }
    ensures { option_copied result ≡ first_taken (put_all rows.now.entries changes.now) (keys_of made.now) }
{
    for change in made {
        if is_taken(rows, changes, made, &change.0) {
            return Some(&change.0);
        }
    }
    None
}

/// The first key of an INSERT that is there already, or that stands twice.
pub fn duplicate_in<'a>(
    stmt: &Stmt,
    rows: &BTreeMap<RowKey, Row>,
    changes: &RowMap<Option<Row>>,
    made: &'a [(RowKey, Option<Row>)],
) -> Option<&'a RowKey>
    requires in_order { IsMap rows.now.entries }
    requires rising { IsRising changes.now }
    ensures { option_copied result ≡ duplicate_in stmt.now (put_all rows.now.entries changes.now) made.now }
{
    match stmt {
        Stmt::Insert { .. } => first_taken(rows, changes, made),
        Stmt::Update { .. } => None,
        Stmt::Delete { .. } => None,
        Stmt::Select { .. } => None,
    }
}

/// The first of the errors that the rows show: rows seen, a row that can't be computed, a key taken, rows that fit.
pub fn fault(
    seen: usize,
    overflow: Option<Boxed<RowKey>>,
    taken: Option<Boxed<RowKey>>,
    fits: bool,
) -> Option<StmtError>
    ensures { result ≡ fault seen overflow taken fits }
{
    if seen > CALL_ROWS {
        return Some(StmtError::TooManyRows);
    }
    if let Some(key) = overflow {
        return Some(StmtError::Overflow { key });
    }
    if let Some(key) = taken {
        return Some(StmtError::Duplicate { key });
    }
    if !fits {
        return Some(StmtError::TableFull);
    }
    None
}
