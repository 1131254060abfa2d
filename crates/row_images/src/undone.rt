//! Images the other way round.
ghost use Rattle.std.specs.Prelude.{◌≡◌, IfOk, map};
ghost use Rattle.row_images.specs.Undoing.{exchanged};

use seata_types::{Duplicate, Image, List, NoMemory};
use std::alloc::Global;

/// An image with its before and after exchanged.
fn exchange(alloc: Global, image: &Image) -> Result<Image, NoMemory>
    ensures { IfOk result (λ undo. undo ≡ exchanged image.now) }
{
    Ok(Image {
        key: image.key.copy(alloc)?,
        before: image.after.copy(alloc)?,
        after: image.before.copy(alloc)?,
    })
}

/// Each image with its before and after exchanged, after Seata's rollback from the undo log.
pub fn undo_of(alloc: Global, images: &[Image]) -> Result<List<Image>, NoMemory>
    ensures { IfOk result (λ undo. undo ≡ map exchanged images.now) }
{
    let mut undo = Vec::new(alloc);
    for image in images {
        undo.push(exchange(alloc, image)?)?;
    }
    Ok(List::of(undo))
}
