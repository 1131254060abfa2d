//! Places among the records of a text.
ghost use Rattle.std.specs.Prelude.{◌≡◌, ◌≤◌, ◌∷◌, false, length, take, drop};
ghost use Rattle.seata_types.specs.declared.limits.TheConstants.{BODY_BYTES};
ghost use Rattle.base_disk.specs.Marks.{left_of, mark_at};

use seata_types::limits::BODY_BYTES;

/// Where a record of a text begins, in bytes from the text's first, or that the last one was passed, which is empty.
#[derive(Clone, Copy)]
pub struct Mark {
    pub at: usize,
    pub ended: bool,
}

/// The record that begins there.
pub fn piece(text: &[u8], at: usize) -> &[u8]
    requires { at ≤ length text.now }
    ensures { result.now ≡ take BODY_BYTES (drop at text.now) }
{
    let left = &text[at..];
    &left[..left.len().min(BODY_BYTES)]
}

/// Where the one behind it begins.
pub fn after(text: &[u8], at: usize) -> Mark
    requires { at ≤ length text.now }
    ensures within { result.at ≤ length text.now }
    ensures left { left_of text.now (mark_at at false)
        ≡ take BODY_BYTES (drop at text.now) ∷ left_of text.now result }
{
    let left = text.len() - at;
    Mark {
        at: at + left.min(BODY_BYTES),
        ended: left == 0,
    }
}
