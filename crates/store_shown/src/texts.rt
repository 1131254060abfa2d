//! The text that records keep.
ghost use Rattle.std.specs.Prelude.{◌≡◌, IfOk};
ghost use Rattle.base_records.specs.Pieces.{joined};
ghost use Rattle.store_shown.specs.Texts.{IsKeptIn, is_whole};

use seata_types::{List, NoMemory};
use std::alloc::Global;

/// Whether the last one of these records is an empty one.
fn is_whole(records: &[List<u8>]) -> bool
    ensures { result ≡ is_whole records.now }
{
    match records.last() {
        Some(last) => last.as_slice().is_empty(),
        None => false,
    }
}

/// These records one after the other.
fn joined_text(alloc: Global, records: &[List<u8>]) -> Result<List<u8>, NoMemory>
    ensures { IfOk result (λ text. text ≡ joined records.now) }
{
    let mut text = Vec::new(alloc);
    for record in records {
        text.extend_from_slice(record.as_slice())?;
    }
    Ok(List::of(text))
}

/// The text that records keep; none where the last one isn't an empty one.
pub fn kept_text(alloc: Global, records: &[List<u8>]) -> Result<Option<List<u8>>, NoMemory>
    ensures { IfOk result (IsKeptIn records.now) }
{
    if !is_whole(records) {
        return Ok(None);
    }
    let text = joined_text(alloc, records)?;
    Ok(Some(text))
}
