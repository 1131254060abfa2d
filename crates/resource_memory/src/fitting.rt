//! Whether images and reads fit the tables.
ghost use Rattle.std.specs.Prelude.{◌≡◌, ◌≤◌, ◌+◌, nat_le, length, not, None};
ghost use Rattle.std.specs.List.{list_all};
ghost use Rattle.seata_types.specs.declared.limits.TheConstants.{CALL_ROWS};
ghost use Rattle.local_tables.specs.Fitting.{is_image, is_read};
ghost use Rattle.durable_records.specs.Locks.{has_key};
ghost use Rattle.durable_records.specs.ResourceOrder.{image_keys, read_keys, only_read};
ghost use Rattle.resource_memory.specs.Changes.{rise, are_few, fit};

use local_tables::{Schema, Tables, is_image, is_read};
use resource_log::may_come;
use seata_types::limits::CALL_ROWS;
use seata_types::{Image, ReadRow, RowKey};

fn images_rise(images: &[Image]) -> bool
    ensures { result ≡ rise (image_keys images.now) }
{
    let mut last: Option<&RowKey> = None;
    for image in images {
        if !may_come(last, &image.key) {
            return false;
        }
        last = Some(&image.key);
    }
    true
}

fn reads_rise(reads: &[ReadRow]) -> bool
    ensures { result ≡ rise (read_keys reads.now) }
{
    let mut last: Option<&RowKey> = None;
    for read in reads {
        if !may_come(last, &read.key) {
            return false;
        }
        last = Some(&read.key);
    }
    true
}

fn has_image(images: &[Image], key: &RowKey) -> bool
    ensures { result ≡ has_key (image_keys images.now) key.now }
{
    for image in images {
        if image.key.cmp(key).is_eq() {
            return true;
        }
    }
    false
}

// Whether no more rows than these were read and not touched.
fn are_read(images: &[Image], reads: &[ReadRow], room: usize) -> bool
    ensures { result ≡ nat_le (length (only_read images.now reads.now)) room }
{
    let mut left = room;
    for read in reads {
        if !has_image(images, &read.key) {
            if left == 0 {
                return false;
            }
            left -= 1;
        }
    }
    true
}

fn are_few(images: &[Image], reads: &[ReadRow]) -> bool
    ensures { result ≡ are_few images.now reads.now }
{
    images.len() <= CALL_ROWS && are_read(images, reads, CALL_ROWS - images.len())
}

fn are_images(resource: u16, schema: &Schema, images: &[Image]) -> bool
    ensures { result ≡ list_all (is_image resource schema.now) images.now }
{
    images.iter().all(|image| is_image(resource, schema, image))
}

fn are_reads(resource: u16, schema: &Schema, reads: &[ReadRow]) -> bool
    ensures { result ≡ list_all (is_read resource schema.now) reads.now }
{
    reads.iter().all(|read| is_read(resource, schema, read))
}

/// Whether images and reads are of rows of these tables, rise by key, and are of no more rows than a call may have. Takes
/// no memory.
pub(crate) fn fit(tables: &Tables, images: &[Image], reads: &[ReadRow]) -> bool
    ensures { result ≡ fit tables.now images.now reads.now }
{
    let (resource, schema) = (tables.resource(), tables.schema());
    are_images(resource, schema, images)
        && are_reads(resource, schema, reads)
        && images_rise(images)
        && reads_rise(reads)
        && are_few(images, reads)
}
