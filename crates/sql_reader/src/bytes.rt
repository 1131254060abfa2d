//! Bytes of a text.
ghost use Rattle.std.specs.Prelude.{◌≡◌, slice_index};

/// The byte at a place, and 0 past the end.
pub fn byte(z: &[u8], at: usize) -> u8
    ensures { result ≡ slice_index z.now at }
{
    if at < z.len() { z[at] } else { 0 }
}
