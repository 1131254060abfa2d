//! Whether rows, images and reads are of the tables of a resource.
ghost use Rattle.std.specs.Prelude.{◌≡◌, IfOk, zip};
ghost use Rattle.std.specs.List.{list_all};
ghost use Rattle.std.specs.Option.{option_copied};
ghost use Rattle.local_tables.specs.Fitting.{row_key, is_cell, has_part, has_key, fits_key, side_fits, is_image, is_read};

use crate::conditions::table_named;
use crate::maps::key_in;
use crate::schemas::{Schema, TableDef};
use crate::touching::key_values;
use crate::typing::fits_row;
use seata_types::{Image, NoMemory, ReadRow, Row, RowKey, Text, Value};
use std::alloc::Global;

/// The key of a row of the table with this name: none where there is no such table, the row doesn't fit it, or a key column
/// has no value.
pub fn row_key(
    alloc: Global,
    resource: u16,
    schema: &Schema,
    table: &Text,
    row: &Row,
) -> Result<Option<RowKey>, NoMemory>
    ensures { IfOk result (λ found. found ≡ row_key resource schema.now (table.now, row.now)) }
{
    let Some(def) = table_named(schema, table) else {
        return Ok(None);
    };
    if !fits_row(def, row) {
        return Ok(None);
    }
    let Some(values) = key_values(alloc, def, row)? else {
        return Ok(None);
    };
    let key = key_in(alloc, resource, def, values)?;
    Ok(Some(key))
}

/// Whether this value stands there.
fn is_cell(part: &Value, cell: Option<&Value>) -> bool
    ensures { result ≡ is_cell part.now (option_copied cell.entry) }
{
    match cell {
        Some(found) => found.cmp(part).is_eq(),
        None => false,
    }
}

fn has_part(row: &Row, place: u16, part: &Value) -> bool
    ensures { result ≡ has_part row.now (place, part.now) }
{
    is_cell(part, row.0.as_slice().get(usize::from(place)))
}

fn has_parts(places: &[u16], pk: &[Value], row: &Row) -> bool
    ensures { result ≡ list_all (has_part row.now) (zip places.now pk.now) }
{
    places
        .iter()
        .zip(pk)
        .all(|(place, part)| has_part(row, *place, part))
}

/// Whether the key columns of a row have these values.
fn has_key(def: &TableDef, pk: &[Value], row: &Row) -> bool
    ensures { result ≡ has_key def.now pk.now row.now }
{
    let places = def.key.as_slice();
    places.len() == pk.len() && has_parts(places, pk, row)
}

/// Whether a row fits its table and has this key.
fn fits_key(def: &TableDef, key: &RowKey, row: &Row) -> bool
    ensures { result ≡ fits_key def.now key.now row.now }
{
    fits_row(def, row) && has_key(def, key.pk.as_slice(), row)
}

fn side_fits(def: &TableDef, key: &RowKey, row: &Option<Row>) -> bool
    ensures { result ≡ side_fits def.now key.now row.now }
{
    match row {
        Some(row) => fits_key(def, key, row),
        None => true,
    }
}

/// Whether an image is of a row of one of these tables, and its rows fit the table and have its key. Takes no memory.
pub fn is_image(resource: u16, schema: &Schema, image: &Image) -> bool
    ensures { result ≡ is_image resource schema.now image.now }
{
    match table_named(schema, &image.key.table) {
        Some(def) => {
            image.key.resource == resource
                && side_fits(def, &image.key, &image.before)
                && side_fits(def, &image.key, &image.after)
        }
        None => false,
    }
}

/// Whether a read is of a row of one of these tables, which fits the table and has its key. Takes no memory.
pub fn is_read(resource: u16, schema: &Schema, read: &ReadRow) -> bool
    ensures { result ≡ is_read resource schema.now read.now }
{
    match table_named(schema, &read.key.table) {
        Some(def) => read.key.resource == resource && fits_key(def, &read.key, &read.row),
        None => false,
    }
}
