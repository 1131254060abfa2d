//! Images put on the tables, or taken back.
ghost use Rattle.std.specs.Prelude.{◌≡◌, ◌∷◌, [], map, filter, Some, None, IfOk, IfErr, OnOk, OnErr};
ghost use Rattle.std.specs.List.{IsDistinct};
ghost use Rattle.std.specs.Map.{set_value};
ghost use Rattle.local_tables.specs.Rows.{IsMap, is_key, key_of, put, put_all, row_at, side};
ghost use Rattle.local_tables.specs.Sound.{restored, given_back, kept_at, puts, removes};

use crate::schemas::Way;
use crate::tables::Tables;
use seata_types::{Duplicate, Image, NoMemory, Row, RowKey};
use std::alloc::Global;
use std::collections::BTreeMap;
use std::mem;

impl Tables {
    ghost use Rattle.std.specs.Prelude.{◌≡◌, OnOk, OnErr};
    ghost use Rattle.local_tables.specs.Rows.{AreImagesOf, applied};

    /// Puts every image's after, or with `Way::Undo` every image's before. Without memory the tables stay as they are.
    pub fn apply(&mut self, alloc: Global, images: &[Image], way: Way) -> Result<(), NoMemory>
        requires { AreImagesOf self.old images.now }
        ensures done { OnOk result (self.new ≡ applied way images.now self.old) }
        ensures failed { OnErr result (self.new ≡ self.old) }
    {
        put_sides(alloc, &mut self.rows, images, way)?;
        Ok(())
    }
}

/// The row that an image puts, if it puts one.
fn side(image: &Image, way: Way) -> &Option<Row>
    ensures { result.now ≡ (side way image.now).1 }
{
    match way {
        Way::Do => &image.after,
        Way::Undo => &image.before,
    }
}

/// Puts one side of each image: its rows first, and its removals, which need no memory, last. Without memory all is as
/// before.
fn put_sides(
    alloc: Global,
    rows: &mut BTreeMap<RowKey, Row>,
    images: &[Image],
    way: Way,
) -> Result<(), NoMemory>
    requires in_order { IsMap rows.old.entries }
    requires different { IsDistinct is_key (map key_of images.now) }
    ensures done { OnOk result (rows.new.entries ≡ put_all rows.old.entries (map (side way) images.now)) }
    ensures failed { OnErr result (rows.new.entries ≡ rows.old.entries) }
{
    put_rows(alloc, rows, images, way)?;
    remove_rows(rows, images, way);
    Ok(())
}

/// Puts the rows of one side of the images. Without memory all is as before.
fn put_rows(
    alloc: Global,
    rows: &mut BTreeMap<RowKey, Row>,
    images: &[Image],
    way: Way,
) -> Result<(), NoMemory>
    requires { IsMap rows.old.entries }
    ensures done { OnOk result (rows.new.entries ≡ put_all rows.old.entries (filter puts (map (side way) images.now))) }
    ensures failed { OnErr result (rows.new.entries ≡ rows.old.entries) }
{
    // Most calls touch one row, for which nothing has to be kept.
    match images {
        [image] => put_alone(alloc, rows, image, way),
        _ => put_several(alloc, rows, images, way),
    }
}

/// Puts the row of one side of an image, if it has one there. Without memory all is as before.
fn put_alone(
    alloc: Global,
    rows: &mut BTreeMap<RowKey, Row>,
    image: &Image,
    way: Way,
) -> Result<(), NoMemory>
    requires { IsMap rows.old.entries }
    ensures done { OnOk result (rows.new.entries ≡ put_all rows.old.entries (filter puts (side way image.now ∷ []))) }
    ensures failed { OnErr result (rows.new.entries ≡ rows.old.entries) }
{
    if let Some(row) = side(image, way) {
        exchange(alloc, rows, &image.key, row)?;
    }
    Ok(())
}

/// Puts the rows of one side of several images. Without memory all is as before.
fn put_several(
    alloc: Global,
    rows: &mut BTreeMap<RowKey, Row>,
    images: &[Image],
    way: Way,
) -> Result<(), NoMemory>
    requires { IsMap rows.old.entries }
    ensures done { OnOk result (rows.new.entries ≡ put_all rows.old.entries (filter puts (map (side way) images.now))) }
    ensures failed { OnErr result (rows.new.entries ≡ rows.old.entries) }
{
    let mut kept = Vec::with_capacity(alloc, images.len())?;
    for image in images {
        if let Err(error) = put_row(alloc, rows, image, way, &mut kept) {
            put_all_back(rows, kept);
            return Err(error);
        }
    }
    Ok(())
}

/// Puts the row of one side of an image, if it has one there, and keeps what stood at its key. Without memory what is kept
/// still gives all back.
fn put_row<'a>(
    alloc: Global,
    rows: &mut BTreeMap<RowKey, Row>,
    image: &'a Image,
    way: Way,
    kept: &mut Vec<(&'a RowKey, Option<Row>)>,
) -> Result<(), NoMemory>
    requires { IsMap rows.old.entries }
    ensures done { OnOk result (rows.new.entries ≡ put_all rows.old.entries (filter puts (side way image.now ∷ []))) }
    ensures kept { given_back rows.new.entries (map kept_at kept.new.items) ≡ given_back rows.old.entries (map kept_at kept.old.items) }
    ensures in_order { IsMap rows.new.entries }
{
    let Some(row) = side(image, way) else {
        return Ok(());
    };
    let old = exchange(alloc, rows, &image.key, row)?;
    if let Err(refused) = kept.push((&image.key, old)) {
        let (key, old) = refused.value;
        put_back(rows, key, old);
        return Err(NoMemory);
    }
    Ok(())
}

/// Lets all rows stand again that were kept, from the last one on; takes no memory.
fn put_all_back(rows: &mut BTreeMap<RowKey, Row>, kept: Vec<(&RowKey, Option<Row>)>)
    ensures { rows.new.entries ≡ given_back rows.old.entries (map kept_at kept.entry.items) }
{
    let mut left = kept;
    while let Some((key, old)) = left.pop() {
        put_back(rows, key, old);
    }
}

/// Takes the rows away at the keys of the images that put none; takes no memory.
fn remove_rows(rows: &mut BTreeMap<RowKey, Row>, images: &[Image], way: Way)
    ensures { rows.new.entries ≡ put_all rows.old.entries (filter removes (map (side way) images.now)) }
{
    for image in images {
        if side(image, way).is_none() {
            remove(rows, &image.key);
        }
    }
}

/// Puts a copy of a row at a key: the row that stood there. Without memory all is as before.
fn exchange(
    alloc: Global,
    rows: &mut BTreeMap<RowKey, Row>,
    key: &RowKey,
    row: &Row,
) -> Result<Option<Row>, NoMemory>
    requires { IsMap rows.old.entries }
    ensures old { IfOk result (λ old. old ≡ row_at rows.old.entries key.now) }
    ensures done { OnOk result (rows.new.entries ≡ put rows.old.entries key.now (Some row.now)) }
    ensures failed { OnErr result (rows.new.entries ≡ rows.old.entries) }
    ensures in_order { IsMap rows.new.entries }
{
    let row = row.copy(alloc)?;
    // A key that stands there already isn't copied.
    match exchange_there(rows, key, row) {
        Ok(old) => Ok(Some(old)),
        Err(row) => {
            let key = key.copy(alloc)?;
            let old = rows.insert(key, row)?;
            Ok(old)
        }
    }
}

/// Puts a row in the place of the one at a key: the one that stood there, or the row that came where none did. Takes no
/// memory.
fn exchange_there(rows: &mut BTreeMap<RowKey, Row>, key: &RowKey, row: Row) -> Result<Row, Row>
    ensures old { IfOk result (λ old. row_at rows.old.entries key.now ≡ Some old) }
    ensures done { OnOk result (rows.new.entries ≡ set_value (is_key key.now) rows.old.entries row) }
    ensures back { IfErr result (λ back. back ≡ row) }
    ensures same { OnErr result (rows.new.entries ≡ rows.old.entries) }
{
    match rows.get_mut(key) {
        Some(place) => Ok(mem::replace(place, row)),
        None => Err(row),
    }
}

/// Takes the row at a key away; takes no memory.
fn remove(rows: &mut BTreeMap<RowKey, Row>, key: &RowKey)
    ensures { rows.new.entries ≡ put rows.old.entries key.now None }
{
    rows.remove(key);
}

/// Lets the row stand at a key that stood there before, or none; takes no memory.
fn put_back(rows: &mut BTreeMap<RowKey, Row>, key: &RowKey, old: Option<Row>)
    ensures { rows.new.entries ≡ restored rows.old.entries key.now old }
{
    match old {
        Some(row) => set_row(rows, key, row),
        None => remove(rows, key),
    }
}

/// Puts a row in the place of the one at a key; takes no memory.
fn set_row(rows: &mut BTreeMap<RowKey, Row>, key: &RowKey, row: Row)
    ensures { rows.new.entries ≡ set_value (is_key key.now) rows.old.entries row }
{
    if let Some(place) = rows.get_mut(key) {
        *place = row;
    }
}
