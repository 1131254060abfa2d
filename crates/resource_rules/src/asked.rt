//! The rows that a guarded local transaction asks the coordinator for.
ghost use Rattle.std.specs.Prelude.{◌≡◌, IfOk, OnOk};
ghost use Rattle.durable_records.specs.ResourceOrder.{image_keys, read_keys};
ghost use Rattle.history_rules.specs.ResourceRules.{with_row, with_rows};
ghost use Rattle.resource_rules.specs.Asked.{first_from, KeepsOrder};

use local_txn::OpenTxn;
use seata_types::{Duplicate, Image, List, NoMemory, RowKey};
use std::alloc::Global;

/// All rows of a local transaction: those that it touched, and those that it only read in their places among them. Where both
/// rise, as those of an open one do, they rise.
pub(crate) fn rows_asked(alloc: Global, txn: &OpenTxn) -> Result<List<RowKey>, NoMemory>
    ensures rows { IfOk result (λ keys. keys ≡ with_rows (image_keys txn.now.images) (read_keys txn.now.reads)) }
    ensures rise { IfOk result (KeepsOrder (image_keys txn.now.images)) }
{
    let mut keys = touched(alloc, txn.images.as_slice())?;
    let reads = txn.reads.as_slice();
    let mut at = reads.len();
    while at > 0 {
        at -= 1;
        put(alloc, &mut keys, &reads[at].key)?;
    }
    Ok(List::of(keys))
}

// The keys of the rows that were touched.
fn touched(alloc: Global, images: &[Image]) -> Result<Vec<RowKey>, NoMemory>
    ensures { IfOk result (λ keys. keys.items ≡ image_keys images.now) }
{
    let mut keys = Vec::new(alloc);
    for image in images {
        keys.push(image.key.copy(alloc)?)?;
    }
    Ok(keys)
}

// The first of these keys that isn't below this one.
fn place(keys: &[RowKey], key: &RowKey) -> Option<usize>
    ensures { result ≡ first_from key.now keys.now }
{
    keys.iter().position(|other| !key.cmp(other).is_gt())
}

// Puts a key in its place among rising ones, where it isn't among them.
fn put(alloc: Global, keys: &mut Vec<RowKey>, key: &RowKey) -> Result<(), NoMemory>
    ensures { OnOk result (keys.new.items ≡ with_row key.now keys.old.items) }
{
    let Some(at) = place(keys.as_slice(), key) else {
        let key = key.copy(alloc)?;
        keys.push(key)?;
        return Ok(());
    };
    if key.cmp(&keys[at]).is_lt() {
        let key = key.copy(alloc)?;
        keys.insert(at, key)?;
    }
    Ok(())
}
