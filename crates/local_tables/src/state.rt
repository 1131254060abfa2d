//! What the statements of a call so far did.
ghost use Rattle.std.specs.Prelude.{◌≡◌, ◌<◌, ◌^◌, nat_le, length, count_by, is_none, is_some, OnOk};
ghost use Rattle.seata_types.specs.declared.limits.TheConstants.{RESOURCE_ROWS};
ghost use Rattle.std.specs.Map.{keys_of, values_of};
ghost use Rattle.local_tables.specs.Rows.{put_all, IsMap};
ghost use Rattle.local_tables.specs.Calls.{insert_all, is_only_read};
ghost use Rattle.local_tables.specs.Lookups.{IsRising, change_at, stands};

use crate::row_map::RowMap;
use seata_types::limits::RESOURCE_ROWS;
use seata_types::{NoMemory, Row, RowKey};
use std::alloc::Global;
use std::collections::BTreeMap;
use std::marker::Model;

/// What the statements of a call so far did: each row that they touched, as it is now, each row that they read, as last
/// read, and how many rows each statement touched. Contracts see the three as lists.
#[derive(Drop)]
pub struct CallState {
    pub(crate) changes: RowMap<Option<Row>>,
    pub(crate) reads: RowMap<Row>,
    pub(crate) touched: Vec<u32>,
}

impl Model for CallState {
    ghost use Rattle.local_tables.specs.Calls.{Call};
    ghost use Rattle.local_tables.specs.Lookups.{IsRising};

    ghost Value = { Call };

    ghost view = { λ c. record { changes = c.changes; reads = c.reads; touched = c.touched.items } };

    ghost invariant = { λ c. IsRising c.changes × IsRising c.reads };
}

impl CallState {
    ghost use Rattle.std.specs.Prelude.{◌≡◌, OnOk};
    ghost use Rattle.local_tables.specs.Calls.{nothing, going_on, rows_seen};

    /// A call before its first statement; takes no memory.
    pub fn new(alloc: Global) -> CallState
        ensures { result ≡ nothing }
    {
        CallState {
            changes: RowMap::new(alloc),
            reads: RowMap::new(alloc),
            touched: Vec::new(alloc),
        }
    }

    /// Goes on by a statement that touched and read these rows.
    pub fn go_on(
        &mut self,
        made: Vec<(RowKey, Option<Row>)>,
        read: Vec<(RowKey, Row)>,
    ) -> Result<(), NoMemory>
        ensures { OnOk result (self.new ≡ going_on self.old made.items read.items) }
    {
        let count = made.len().min(u32::MAX as usize) as u32;
        insert_made(&mut self.changes, made)?;
        insert_read(&mut self.reads, read)?;
        self.touched.push(count)?;
        Ok(())
    }

    /// How many different rows the call touched or read.
    pub fn rows_seen(&self) -> usize
        ensures { result ≡ rows_seen self.now }
    {
        self.changes.entries().len() + only_read(&self.changes, &self.reads)
    }
}

/// Puts changes into a map, one after the other.
fn insert_made(
    map: &mut RowMap<Option<Row>>,
    made: Vec<(RowKey, Option<Row>)>,
) -> Result<(), NoMemory>
    ensures ok { OnOk result (map.new ≡ insert_all map.old made.items) }
    ensures in_order { IsRising map.old → IsRising map.new }
{
    for (key, row) in made {
        map.put(key, row)?;
    }
    Ok(())
}

/// Puts the rows of a map into another, one after the other.
fn insert_read(map: &mut RowMap<Row>, read: Vec<(RowKey, Row)>) -> Result<(), NoMemory>
    ensures ok { OnOk result (map.new ≡ insert_all map.old read.items) }
    ensures in_order { IsRising map.old → IsRising map.new }
{
    for (key, last) in read {
        map.put(key, last)?;
    }
    Ok(())
}

/// Whether no change stands at a key.
fn is_unchanged(changes: &RowMap<Option<Row>>, key: &RowKey) -> bool
    ensures { result ≡ is_none (change_at changes.now key.now) }
{
    changes.get(key).is_none()
}

/// How many rows are read and not touched.
fn only_read(changes: &RowMap<Option<Row>>, reads: &RowMap<Row>) -> usize
    ensures count { result ≡ count_by (is_only_read changes.now) reads.now }
    ensures small { result < 2 ^ 63 }
{
    reads
        .entries()
        .iter()
        .filter(|read| is_unchanged(changes, &read.0))
        .count()
}

fn puts_row(change: &(RowKey, Option<Row>)) -> bool
    ensures { result ≡ is_some change.now.1 }
{
    change.1.is_some()
}

/// How many of the changes put a row.
fn puts(changes: &RowMap<Option<Row>>) -> usize
    ensures count { result ≡ count_by is_some (values_of changes.now) }
    ensures small { result < 2 ^ 63 }
{
    changes
        .entries()
        .iter()
        .filter(|change| puts_row(change))
        .count()
}

fn stands(rows: &BTreeMap<RowKey, Row>, key: &RowKey) -> bool
    ensures { result ≡ stands rows.now.entries key.now }
{
    rows.get(key).is_some()
}

/// How many of the changed keys have a row.
fn stood(rows: &BTreeMap<RowKey, Row>, changes: &RowMap<Option<Row>>) -> usize
    ensures { result ≡ count_by (stands rows.now.entries) (keys_of changes.now) }
{
    changes
        .entries()
        .iter()
        .filter(|change| stands(rows, &change.0))
        .count()
}

/// Whether the rows under the changes are no more than a resource may have.
pub fn rows_fit(rows: &BTreeMap<RowKey, Row>, changes: &RowMap<Option<Row>>) -> bool
    requires in_order { IsMap rows.now.entries }
    requires rising { IsRising changes.now }
    ensures { result ≡ nat_le (length (put_all rows.now.entries changes.now)) RESOURCE_ROWS }
{
    let most = rows.len() + puts(changes);
    // Where each changed row may be new, none has to be looked up.
    most <= RESOURCE_ROWS || most - stood(rows, changes) <= RESOURCE_ROWS
}
