//! The rows that are open, each with its ticket, found by their keys.
ghost use Rattle.std.specs.Prelude.{◌≡◌, true, false, Some, None, if◌then◌else◌, map, option_map, OnOk, OnErr};
ghost use Rattle.durable_records.specs.Locks.{has_key};
ghost use Rattle.durable_records.specs.ResourceOrder.{image_keys, read_keys};
ghost use Rattle.local_txn.specs.OpenTickets.{lesser_row};
ghost use Rattle.local_txn.specs.RowIndex.{at, first_at, has_either};
ghost use Rattle.seata_types.specs.declared.rows.RowKey.{RowKey as Key};

use seata_types::{Duplicate, Image, NoMemory, ReadRow, RowKey, Ticket};
use std::alloc::Global;
use std::collections::BTreeMap;

/// What a local transaction has of a row.
pub(crate) trait OfRow {
    ghost use Rattle.seata_types.specs.declared.rows.RowKey.{RowKey as Key};

    ghost row_key: { Self → Key };

    fn key(&self) -> &RowKey
        ensures { result.now ≡ row_key self.now };
}

impl OfRow for Image {
    ghost row_key = { λ image. image.key };

    fn key(&self) -> &RowKey {
        &self.key
    }
}

impl OfRow for ReadRow {
    ghost row_key = { λ read. read.key };

    fn key(&self) -> &RowKey {
        &self.key
    }
}

/// The first of these rows that is open, and its ticket.
fn first_busy<'a, R: OfRow>(
    rows: &BTreeMap<RowKey, Ticket>,
    items: &'a [R],
) -> Option<(&'a RowKey, Ticket)>
    ensures { option_map (λ p. (p.0.now, p.1)) result ≡ first_at rows.now.entries (map R.row_key items.now) }
{
    for item in items {
        if let Some(by) = rows.get(item.key()) {
            return Some((item.key(), *by));
        }
    }
    None
}

/// The lesser of two rows, where there are two.
fn lesser<'a>(
    first: Option<(&'a RowKey, Ticket)>,
    second: Option<(&'a RowKey, Ticket)>,
) -> Option<(&'a RowKey, Ticket)>
    ensures { option_map (λ p. (p.0.now, p.1)) result ≡ lesser_row (option_map (λ p. (p.0.now, p.1)) first.entry) (option_map (λ p. (p.0.now, p.1)) second.entry) }
{
    match (first, second) {
        (None, second) => second,
        (Some(first), None) => Some(first),
        (Some(first), Some(second)) => {
            if second.0.cmp(first.0).is_lt() {
                Some(second)
            } else {
                Some(first)
            }
        }
    }
}

/// The least row of images and reads that is open, and its ticket; both stand in rising order.
pub(crate) fn busy<'a>(
    rows: &BTreeMap<RowKey, Ticket>,
    images: &'a [Image],
    reads: &'a [ReadRow],
) -> Option<(&'a RowKey, Ticket)>
    ensures { option_map (λ p. (p.0.now, p.1)) result ≡ lesser_row (first_at rows.now.entries (image_keys images.now)) (first_at rows.now.entries (read_keys reads.now)) }
{
    lesser(first_busy(rows, images), first_busy(rows, reads))
}

/// Opens these rows under a ticket. Without memory some of them may be open.
fn put_all<R: OfRow>(
    alloc: Global,
    rows: &mut BTreeMap<RowKey, Ticket>,
    items: &[R],
    ticket: Ticket,
) -> Result<(), NoMemory>
    ensures done { OnOk result ((q : Key) → at rows.new.entries q ≡ (if has_key (map R.row_key items.now) q then Some ticket else at rows.old.entries q)) }
    ensures others { (q : Key) → has_key (map R.row_key items.now) q ≡ false → at rows.new.entries q ≡ at rows.old.entries q }
{
    for item in items {
        let key = item.key().copy(alloc)?;
        rows.insert(key, ticket)?;
    }
    Ok(())
}

/// Closes these rows.
fn take_all<R: OfRow>(rows: &mut BTreeMap<RowKey, Ticket>, items: &[R])
    ensures { (q : Key) → at rows.new.entries q ≡ (if has_key (map R.row_key items.now) q then None else at rows.old.entries q) }
{
    for item in items {
        rows.remove(item.key());
    }
}

/// Closes the rows of images and reads.
pub(crate) fn close(rows: &mut BTreeMap<RowKey, Ticket>, images: &[Image], reads: &[ReadRow])
    ensures { (q : Key) → at rows.new.entries q ≡ (if has_either images.now reads.now q then None else at rows.old.entries q) }
{
    take_all(rows, images);
    take_all(rows, reads);
}

// Opens the rows of images and of reads, or some of them.
fn put_both(
    alloc: Global,
    rows: &mut BTreeMap<RowKey, Ticket>,
    images: &[Image],
    reads: &[ReadRow],
    ticket: Ticket,
) -> Result<(), NoMemory>
    ensures done { OnOk result ((q : Key) → at rows.new.entries q ≡ (if has_either images.now reads.now q then Some ticket else at rows.old.entries q)) }
    ensures others { (q : Key) → has_either images.now reads.now q ≡ false → at rows.new.entries q ≡ at rows.old.entries q }
{
    put_all(alloc, rows, images, ticket)?;
    put_all(alloc, rows, reads, ticket)
}

/// Opens the rows of images and reads, none of which is open, under a ticket. Without memory all is as before.
pub(crate) fn open(
    alloc: Global,
    rows: &mut BTreeMap<RowKey, Ticket>,
    images: &[Image],
    reads: &[ReadRow],
    ticket: Ticket,
) -> Result<(), NoMemory>
    requires { (q : Key) → has_either images.now reads.now q ≡ true → at rows.old.entries q ≡ None }
    ensures done { OnOk result ((q : Key) → at rows.new.entries q ≡ (if has_either images.now reads.now q then Some ticket else at rows.old.entries q)) }
    ensures failed { OnErr result ((q : Key) → at rows.new.entries q ≡ at rows.old.entries q) }
{
    if put_both(alloc, rows, images, reads, ticket).is_err() {
        close(rows, images, reads);
        return Err(NoMemory);
    }
    Ok(())
}
