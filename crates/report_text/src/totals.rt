//! The numbers of what stands after a history.
ghost use Rattle.std.specs.Prelude.{◌≡◌, ◌++◌, ◌+ℤ◌, pos, count_by, filter, fold, slice_get, IfOk, OnOk};
ghost use Rattle.seata_types.specs.Orders.{same_text};
ghost use Rattle.local_tables.specs.Rows.{is_in};
ghost use Rattle.scenario_form.specs.Runnable.{IsRunnable};
ghost use Rattle.report_text.specs.Sections.{rows_in, rows_kept, rows_of_tables};
ghost use Rattle.report_text.specs.Totals.{CountsOver, is_over, is_over_entry, number_at, number_in, numbers_in, totals_kept};

use crate::before::Before;
use crate::kept::Totals;
use crate::left::{Folded, ResourceLeft};
use crate::reports::node_names;
use crate::sections::is_in;
use history_text::Entry;
use local_tables::TableDef;
use scenario_form::Scenario;
use seata_types::{GlobalStatus, NoMemory, Row, RowKey, Value};
use session_log::SessionEntry;
use std::alloc::Global;

/// Whether a transaction with this status is finished or failed.
fn is_over(status: GlobalStatus) -> bool
    ensures { result ≡ is_over status }
{
    matches!(
        status,
        GlobalStatus::Committed
            | GlobalStatus::CommitFailed
            | GlobalStatus::Rollbacked
            | GlobalStatus::RollbackFailed
            | GlobalStatus::TimeoutRollbacked
            | GlobalStatus::TimeoutRollbackFailed
    )
}

/// How many transactions are finished or failed.
fn count_over(sessions: &[SessionEntry]) -> usize
    ensures { result ≡ count_by is_over_entry sessions.now }
{
    let mut count = 0;
    for entry in sessions {
        if is_over(entry.session.status) {
            count += 1;
        }
    }
    count
}

/// The number in a column of a row, if there is one.
fn number_at(row: &Row, column: usize) -> Option<i64>
    ensures { result ≡ number_at (slice_get row.now.0 column) }
{
    match row.0.as_slice().get(column) {
        Some(Value::Int(number)) => Some(*number),
        _ => None,
    }
}

/// The same, behind the numbers of the rows before it.
fn add_number(numbers: &mut Vec<i64>, row: &Row, column: usize) -> Result<(), NoMemory>
    ensures { OnOk result
        (numbers.new.items ≡ numbers.old.items ++ number_in (slice_get row.now.0 column)) }
{
    if let Some(number) = number_at(row, column) {
        numbers.push(number)?;
    }
    Ok(())
}

/// The numbers in a column of the rows of a table, of all rows of its resource, where the table has this name.
fn add_table(
    numbers: &mut Vec<i64>,
    name: &str,
    column: usize,
    resource: u16,
    def: &TableDef,
    rows: &[(RowKey, Row)],
) -> Result<(), NoMemory>
    ensures { OnOk result (numbers.new.items ≡ numbers.old.items
        ++ numbers_in name.now column (filter (λ e. is_in resource def.now e.0) rows.now)) }
{
    for (key, row) in rows {
        if is_in(resource, def, key) && key.table.as_str() == name {
            add_number(numbers, row, column)?;
        }
    }
    Ok(())
}

/// The numbers in a column of the rows of a resource, table by table.
fn add_tables(
    numbers: &mut Vec<i64>,
    name: &str,
    column: usize,
    resource: u16,
    defs: &[TableDef],
    rows: &[(RowKey, Row)],
) -> Result<(), NoMemory>
    ensures { OnOk result (numbers.new.items ≡ numbers.old.items
        ++ numbers_in name.now column (rows_of_tables resource rows.now defs.now)) }
{
    for def in defs {
        add_table(numbers, name, column, resource, def, rows)?;
    }
    Ok(())
}

/// The same, of a resource as its entries left it.
fn add_resource(
    alloc: Global,
    numbers: &mut Vec<i64>,
    name: &str,
    column: usize,
    resource: &ResourceLeft,
) -> Result<(), NoMemory>
    ensures { OnOk result (numbers.new.items ≡ numbers.old.items
        ++ numbers_in name.now column (rows_in resource.now)) }
{
    let tables = resource.memory.tables();
    let rows = tables.list(alloc)?;
    let defs = tables.schema().tables.as_slice();
    add_tables(
        numbers,
        name,
        column,
        tables.resource(),
        defs,
        rows.as_slice(),
    )
}

/// The numbers in a column of the tables of a name, of all resources.
fn numbers(
    alloc: Global,
    resources: &[ResourceLeft],
    name: &str,
    column: usize,
) -> Result<Vec<i64>, NoMemory>
    ensures { IfOk result (λ all.
        all.items ≡ numbers_in name.now column (rows_kept resources.now)) }
{
    let mut all = Vec::new(alloc);
    for resource in resources {
        add_resource(alloc, &mut all, name, column, resource)?;
    }
    Ok(all)
}

/// A sum; numbers of 64 bits are never so many that theirs passes 128.
fn sum(numbers: &[i64]) -> i128
    ensures { result ≡ fold ◌+ℤ◌ (pos 0) numbers.now }
{
    let mut sum = 0;
    for number in numbers {
        sum += i128::from(*number);
    }
    sum
}

/// The sum of a column of the tables of a name, of all resources.
fn column_sum(
    alloc: Global,
    resources: &[ResourceLeft],
    name: &str,
    column: usize,
) -> Result<i128, NoMemory>
    ensures { IfOk result (λ sum.
        sum ≡ fold ◌+ℤ◌ (pos 0) (numbers_in name.now column (rows_kept resources.now))) }
{
    let all = numbers(alloc, resources, name, column)?;
    Ok(sum(all.as_slice()))
}

/// The numbers of what entries left.
fn totals_of(alloc: Global, folded: &Folded) -> Result<Totals, NoMemory>
    ensures { IfOk result (λ totals.
        totals ≡ totals_kept folded.now.coordinator folded.now.resources) }
{
    let memory = &folded.coordinator.memory;
    let sessions = memory.snapshot().sessions.as_slice();
    let resources = folded.resources.as_slice();
    Ok(Totals {
        begun: sessions.len(),
        ended: count_over(sessions),
        money: column_sum(alloc, resources, "acc", 1)?,
        held: column_sum(alloc, resources, "stock", 2)?,
        locks: memory.locks().list(alloc)?.as_slice().len(),
    })
}

/// The numbers of what stands after a history, from its scenario, what its disks held before and its entries alone.
pub fn count_history(
    alloc: Global,
    scenario: &Scenario,
    before: Before,
    history: &[Entry],
) -> Result<Totals, NoMemory>
    requires { IsRunnable scenario.now }
    ensures { IfOk result (CountsOver scenario.now before history.now) }
{
    let names = node_names(alloc, scenario)?;
    let folded = Folded::of_history(alloc, scenario, &names, before, history)?;
    let totals = totals_of(alloc, &folded);
    drop(folded);
    totals
}
