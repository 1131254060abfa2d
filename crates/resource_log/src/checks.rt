//! Which snapshots are sound.
ghost use Rattle.std.specs.Prelude.{◌≡◌, IfOk, None};
ghost use Rattle.std.specs.List.{list_all};
ghost use Rattle.std.specs.Option.{option_copied};
ghost use Rattle.byte_fields.specs.KeyOrder.{is_below};
ghost use Rattle.byte_fields.specs.Layout.{may_come};
ghost use Rattle.local_tables.specs.Fitting.{is_image, is_read};
ghost use Rattle.resource_log.specs.Soundness.{has_counts, rises_after, are_rising, row_keys, has_tables, is_sound};

use crate::states::{ResourceSnapshot, UndoItem};
use local_tables::{Schema, is_image, is_read, row_key};
use seata_types::limits::ACTS;
use seata_types::{Image, List, NoMemory, ReadRow, Row, RowKey, Text};
use std::alloc::Global;

fn has_counts(snapshot: &ResourceSnapshot) -> bool
    ensures { result ≡ has_counts snapshot.now }
{
    snapshot.acts < ACTS && snapshot.boots <= snapshot.acts
}

// The keys of all rows, where each has one.
fn row_keys(
    alloc: Global,
    resource: u16,
    schema: &Schema,
    rows: &[(Text, Row)],
) -> Result<Option<List<RowKey>>, NoMemory>
    ensures { IfOk result (λ found. found ≡ row_keys resource schema.now rows.now) }
{
    let mut keys = Vec::new(alloc);
    for named in rows {
        let Some(key) = row_key(alloc, resource, schema, &named.0, &named.1)? else {
            return Ok(None);
        };
        keys.push(key)?;
    }
    Ok(Some(List::of(keys)))
}

/// Whether a key stands behind the last one of a list, if there is one; takes no memory.
#[tactic(auto, unfolding(byte_fields::specs::KeyOrder::is_below))]
pub fn may_come(last: Option<&RowKey>, key: &RowKey) -> bool
    ensures { result ≡ may_come is_below (option_copied last.entry) key.now }
{
    match last {
        None => true,
        Some(last) => last.cmp(key).is_lt(),
    }
}

fn rise(keys: &[RowKey]) -> bool
    ensures { result ≡ rises_after None keys.now }
{
    let mut last: Option<&RowKey> = None;
    for key in keys {
        if !may_come(last, key) {
            return false;
        }
        last = Some(key);
    }
    true
}

fn rows_fit(
    alloc: Global,
    resource: u16,
    schema: &Schema,
    rows: &[(Text, Row)],
) -> Result<bool, NoMemory>
    ensures { IfOk result (λ fit. fit ≡ are_rising (row_keys resource schema.now rows.now)) }
{
    match row_keys(alloc, resource, schema, rows)? {
        Some(keys) => Ok(rise(keys.as_slice())),
        None => Ok(false),
    }
}

fn are_images(resource: u16, schema: &Schema, images: &[Image]) -> bool
    ensures { result ≡ list_all (is_image resource schema.now) images.now }
{
    images.iter().all(|image| is_image(resource, schema, image))
}

fn are_reads(resource: u16, schema: &Schema, reads: &[ReadRow]) -> bool
    ensures { result ≡ list_all (is_read resource schema.now) reads.now }
{
    reads.iter().all(|read| is_read(resource, schema, read))
}

fn has_tables(resource: u16, schema: &Schema, item: &UndoItem) -> bool
    ensures { result ≡ has_tables resource schema.now item.now }
{
    match item {
        UndoItem::Normal(record) => {
            are_images(resource, schema, record.images.as_slice())
                && are_reads(resource, schema, record.reads.as_slice())
        }
        UndoItem::Finished(_) => true,
    }
}

fn undos_fit(resource: u16, schema: &Schema, undos: &[UndoItem]) -> bool
    ensures { result ≡ list_all (has_tables resource schema.now) undos.now }
{
    undos.iter().all(|item| has_tables(resource, schema, item))
}

/// Whether a resource with this number and these tables can have written a snapshot.
#[tactic(auto, unfolding(crate::specs::Soundness::is_sound))]
pub(crate) fn is_sound(
    alloc: Global,
    resource: u16,
    schema: &Schema,
    snapshot: &ResourceSnapshot,
) -> Result<bool, NoMemory>
    ensures { IfOk result (λ sound. sound ≡ is_sound resource schema.now snapshot.now) }
{
    if !has_counts(snapshot) || !undos_fit(resource, schema, snapshot.undos.as_slice()) {
        return Ok(false);
    }
    rows_fit(alloc, resource, schema, snapshot.rows.as_slice())
}
