//! A place in bytes that are read.
ghost use Rattle.std.specs.Prelude.{ℕ, ◌+◌, ◌^◌, ◌<◌, length};

/// The bytes from a place on, and how many stand before it.
#[derive(Clone, Copy)]
pub(crate) struct Cursor<'a> {
    pub at: usize,
    pub rest: &'a [u8],
    ghost in_memory: { at + length rest.now < 2 ^ 64 },
}
