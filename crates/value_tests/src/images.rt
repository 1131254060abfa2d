//! Images of a table with a number as key and one column, joined and undone by calls that nothing else makes.
ghost use Rattle.std.specs.Prelude.{◌≡◌, ◌∷◌, [], ◌<ℤ◌, IfOk};
ghost use Rattle.local_tables.specs.Rows.{AreRising};
ghost use Rattle.value_tests.specs.Examples.{key_of_number};

use crate::samples::{Fail, so, text};
use row_images::{join, undo_of};
use seata_types::{Image, List, Row, RowKey, Value};
use std::alloc::Global;

// What an image says: the number that is the row's key, and the row's only cell before and after.
#[derive(Clone, Copy)]
struct Told(i64, Option<i64>, Option<i64>);

fn row(alloc: Global, cell: i64) -> Result<Row, Fail> {
    let cells = Vec::from_array(alloc, [Value::Int(cell)])?;
    Ok(Row(List::of(cells)))
}

fn option_row(alloc: Global, cell: Option<i64>) -> Result<Option<Row>, Fail> {
    match cell {
        Some(cell) => Ok(Some(row(alloc, cell)?)),
        None => Ok(None),
    }
}

fn key(alloc: Global, number: i64) -> Result<RowKey, Fail>
    ensures { IfOk result (λ key. key ≡ key_of_number number) }
{
    let table = text(alloc, "acc")?;
    let parts = Vec::from_array(alloc, [Value::Int(number)])?;
    Ok(RowKey {
        resource: 1,
        table,
        pk: List::of(parts),
    })
}

fn image(alloc: Global, told: Told) -> Result<Image, Fail>
    ensures { IfOk result (λ image. image.key ≡ key_of_number told.0) }
{
    Ok(Image {
        key: key(alloc, told.0)?,
        before: option_row(alloc, told.1)?,
        after: option_row(alloc, told.2)?,
    })
}

// The images of two rows.
fn two(alloc: Global, first: Told, second: Told) -> Result<Vec<Image>, Fail>
    requires { first.0 <ℤ second.0 }
    ensures { IfOk result (λ images. AreRising images.items) }
{
    let first = image(alloc, first)?;
    let second = image(alloc, second)?;
    Ok(Vec::from_array(alloc, [first, second])?)
}

// The image of the k-th row says this.
fn says(alloc: Global, images: &[Image], k: usize, told: Told) -> Result<bool, Fail> {
    let wanted = image(alloc, told)?;
    match images.get(k) {
        Some(image) => Ok(*image == wanted),
        None => Ok(false),
    }
}

// Whether images say this, one after the other.
fn say(alloc: Global, images: &[Image], rows: &[Told]) -> Result<bool, Fail> {
    for (k, told) in rows.iter().enumerate() {
        if !says(alloc, images, k, *told)? {
            return Ok(false);
        }
    }
    Ok(images.len() == rows.len())
}

fn joins(alloc: Global) -> Result<(), Fail> {
    let first = two(alloc, Told(1, Some(5), Some(6)), Told(2, None, Some(1)))?;
    let second = two(alloc, Told(2, Some(1), None), Told(3, Some(7), Some(8)))?;
    let joined = join(alloc, first.as_slice(), second.as_slice())?;
    let wanted = [
        Told(1, Some(5), Some(6)),
        Told(2, None, None),
        Told(3, Some(7), Some(8)),
    ];
    so(say(alloc, joined.as_slice(), &wanted)?, "joined images")
}

#[test]
fn joins_two_lists(rt: HostRuntime) -> Result<(), Fail> {
    joins(rt.alloc())
}

fn turns_round(alloc: Global) -> Result<(), Fail> {
    let images = two(alloc, Told(1, Some(5), Some(6)), Told(2, None, Some(1)))?;
    let undo = undo_of(alloc, images.as_slice())?;
    let wanted = [Told(1, Some(6), Some(5)), Told(2, Some(1), None)];
    so(say(alloc, undo.as_slice(), &wanted)?, "images turned round")
}

#[test]
fn turns_images_round(rt: HostRuntime) -> Result<(), Fail> {
    turns_round(rt.alloc())
}
