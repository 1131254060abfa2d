//! The tables of a resource.
ghost use Rattle.std.specs.Prelude.{◌≡◌, Some, IfOk, OnOk};
ghost use Rattle.local_tables.specs.Rows.{keyed_row, opening_entry};
ghost use Rattle.local_tables.specs.Sound.{IsSound, with_opened};

use crate::conditions::table_named;
use crate::maps::insert;
use crate::schemas::{Schema, TableDef};
use crate::touching::keyed;
use crate::typing::fits_row;
use seata_types::{Duplicate, List, NoMemory, Row, RowKey, Text};
use std::alloc::Global;
use std::collections::BTreeMap;
use std::marker::Model;

/// The tables of a resource: its number, its schema, and the rows of all its tables by key. Contracts see the three.
#[derive(Drop)]
pub struct Tables {
    pub(crate) resource: u16,
    pub(crate) schema: Schema,
    pub(crate) rows: BTreeMap<RowKey, Row>,
}

impl Model for Tables {
    ghost use Rattle.local_tables.specs.Rows.{Database};
    ghost use Rattle.local_tables.specs.Sound.{IsSound};

    ghost Value = { Database };

    ghost view = { λ t. record { resource = t.resource; schema = t.schema; rows = t.rows.entries } };

    ghost invariant = { λ t. IsSound t.schema t.rows.entries };
}

impl Tables {
    ghost use Rattle.std.specs.Prelude.{◌≡◌, length, IfOk};
    ghost use Rattle.std.specs.Option.{option_copied};
    ghost use Rattle.local_tables.specs.Rows.{IsMap, IsOpening, opened, row_at};

    /// The tables with each opening row, which is given with its table's name, at its key.
    pub fn new(
        alloc: Global,
        resource: u16,
        schema: Schema,
        opening: List<(Text, Row)>,
    ) -> Result<Tables, NoMemory>
        requires { IsOpening resource schema opening }
        ensures { IfOk result (λ t. t ≡ opened resource schema opening) }
    {
        let mut rows = BTreeMap::new(alloc);
        for (name, row) in opening.into_vec() {
            open_row(alloc, resource, &schema, &mut rows, &name, row)?;
        }
        Ok(Tables {
            resource,
            schema,
            rows,
        })
    }

    /// The row of this key.
    pub fn get(&self, key: &RowKey) -> Option<&Row>
        ensures found { option_copied result ≡ row_at self.now.rows key.now }
        ensures in_order { IsMap self.now.rows }
    {
        self.rows.get(key)
    }

    /// The resource's number; takes no memory.
    pub fn resource(&self) -> u16
        ensures { result ≡ self.now.resource }
    {
        self.resource
    }

    /// The tables with their columns; takes no memory.
    pub fn schema(&self) -> &Schema
        ensures { result.now ≡ self.now.schema }
    {
        &self.schema
    }

    /// All rows with their keys, by table and key.
    pub fn list(&self, alloc: Global) -> Result<List<(RowKey, Row)>, NoMemory>
        ensures all { IfOk result (λ all. all ≡ self.now.rows) }
        ensures in_order { IsMap self.now.rows }
    {
        let mut all = Vec::new(alloc);
        for (key, row) in &self.rows {
            all.push((key.copy(alloc)?, row.copy(alloc)?))?;
        }
        Ok(List::of(all))
    }

    /// How many rows there are over all tables.
    pub fn rows(&self) -> usize
        ensures count { result ≡ length self.now.rows }
        ensures in_order { IsMap self.now.rows }
    {
        self.rows.len()
    }
}

/// A row of a table with its key, where it fits the table.
fn fitting(
    alloc: Global,
    resource: u16,
    def: &TableDef,
    row: Row,
) -> Result<Option<(RowKey, Row)>, NoMemory>
    ensures { IfOk result (λ entry. entry ≡ opening_entry resource (Some def.now) row) }
{
    if !fits_row(def, &row) {
        return Ok(None);
    }
    let entry = keyed(alloc, resource, def, row)?;
    Ok(entry)
}

/// Puts an opening row at its key, where its table is the schema's, it fits it, and its key columns have values.
fn open_row(
    alloc: Global,
    resource: u16,
    schema: &Schema,
    rows: &mut BTreeMap<RowKey, Row>,
    name: &Text,
    row: Row,
) -> Result<(), NoMemory>
    ensures put { OnOk result (rows.new.entries ≡ with_opened rows.old.entries (keyed_row resource schema.now (name.now, row))) }
    ensures sound { OnOk result (IsSound schema.now rows.old.entries → IsSound schema.now rows.new.entries) }
{
    if let Some(def) = table_named(schema, name)
        && let Some((key, row)) = fitting(alloc, resource, def, row)?
    {
        insert(rows, key, row)?;
    }
    Ok(())
}
