//! An image and the present row.
ghost use Rattle.std.specs.Prelude.{◌≢◌, ◌↔◌, IsTrue, option_copied};

use seata_types::{Image, Row};

/// Whether the present row isn't the image's after; takes no memory.
pub fn differs(image: &Image, present: Option<&Row>) -> bool
    ensures { IsTrue result ↔ (option_copied present.entry ≢ image.now.after) }
{
    match (&image.after, present) {
        (Some(after), Some(row)) => after != row,
        (None, None) => false,
        _ => true,
    }
}
