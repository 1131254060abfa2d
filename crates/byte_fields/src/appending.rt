//! What can be appended to bytes, and put there whole or not at all.
ghost use Rattle.std.specs.Prelude.{◌≡◌, ◌<◌, ◌^◌, ◌++◌, ℕ, All, List as Bytes, OnOk, OnErr, length, take};
ghost use Rattle.std.specs.List.{flat_map};
ghost use Rattle.byte_fields.specs.Appending.{Keeps};
ghost use Rattle.byte_fields.specs.Layout.{list_bytes};

use crate::writing;
use seata_types::NoMemory;

/// A field that can be appended.
pub(crate) trait Appended {
    ghost fits: { Self → Type 0 };

    ghost bytes: { Self → Bytes ℕ };

    /// Appends the field. After want of memory a part of it may stand there.
    fn append(&self, out: &mut Vec<u8>) -> Result<(), NoMemory>
        requires { fits self.now }
        ensures ok { OnOk result (out.new.items ≡ out.old.items ++ bytes self.now) }
        ensures kept { Keeps out.old.items out.new.items };
}

/// Hands on how appending went; where it failed, cuts off what was appended since `start`.
pub(crate) fn settled(
    out: &mut Vec<u8>,
    start: usize,
    appended: Result<(), NoMemory>,
) -> Result<(), NoMemory>
    ensures ok { OnOk appended (out.new.items ≡ out.old.items) }
    ensures err { OnErr appended (out.new.items ≡ take start out.old.items) }
    ensures same { result ≡ appended }
{
    if appended.is_err() {
        out.truncate(start);
    }
    appended
}

/// Appends a field, or leaves the bytes as they were.
pub(crate) fn put<T: Appended>(out: &mut Vec<u8>, value: &T) -> Result<(), NoMemory>
    requires { T.fits value.now }
    ensures ok { OnOk result (out.new.items ≡ out.old.items ++ T.bytes value.now) }
    ensures err { OnErr result (out.new.items ≡ out.old.items) }
{
    let start = out.len();
    let appended = value.append(out);
    settled(out, start, appended)
}

/// Appends so many items. After want of memory a part of them may stand there.
pub(crate) fn append_items<T: Appended>(out: &mut Vec<u8>, items: &[T]) -> Result<(), NoMemory>
    requires { All T.fits items.now }
    ensures ok { OnOk result (out.new.items ≡ out.old.items ++ flat_map T.bytes items.now) }
    ensures kept { Keeps out.old.items out.new.items }
{
    for item in items {
        item.append(out)?;
    }
    Ok(())
}

/// Appends a count, and as many items. After want of memory a part of them may stand there.
pub(crate) fn append_list<T: Appended>(out: &mut Vec<u8>, items: &[T]) -> Result<(), NoMemory>
    requires count { length items.now < 2 ^ 16 }
    requires each { All T.fits items.now }
    ensures ok { OnOk result (out.new.items ≡ out.old.items ++ list_bytes T.bytes items.now) }
    ensures kept { Keeps out.old.items out.new.items }
{
    writing::bytes(out, &(items.len() as u16).to_be_bytes())?;
    append_items(out, items)
}

/// Appends a count, and as many items, or leaves the bytes as they were.
pub(crate) fn put_list<T: Appended>(out: &mut Vec<u8>, items: &[T]) -> Result<(), NoMemory>
    requires count { length items.now < 2 ^ 16 }
    requires each { All T.fits items.now }
    ensures ok { OnOk result (out.new.items ≡ out.old.items ++ list_bytes T.bytes items.now) }
    ensures err { OnErr result (out.new.items ≡ out.old.items) }
{
    let start = out.len();
    let appended = append_list(out, items);
    settled(out, start, appended)
}
