//! Keys: read at a cursor in either layout, and appended.
ghost use Rattle.std.specs.Prelude.{◌≡◌, ◌++◌, ◌-◌, OnOk, length, slice_get};
ghost use Rattle.std.specs.Option.{option_copied};
ghost use Rattle.byte_fields.specs.KeyOrder.{is_below};
ghost use Rattle.byte_fields.specs.Layout.{FitsValue, FitsParts, FitsKey, value_bytes, parts_bytes, key_bytes};
ghost use Rattle.byte_fields.specs.Reading.{any_value, parts_at, key_in, next_key};
ghost use Rattle.byte_fields.specs.Cursors.{Reads};
ghost use Rattle.byte_fields.specs.Appending.{Keeps};

use crate::appending::{Appended, append_items};
use crate::cursor::Cursor;
use crate::errors::FieldError;
use crate::layouts::KeyLayout;
use crate::lists::{self, Listed};
use crate::{reading, writing};
use seata_types::limits::KEY_PARTS;
use seata_types::{List, NoMemory, RowKey, Value};
use std::alloc::Global;

impl Appended for Value {
    ghost fits = { FitsValue };

    ghost bytes = { value_bytes };

    fn append(&self, out: &mut Vec<u8>) -> Result<(), NoMemory> {
        writing::value(out, self)
    }
}

impl Listed for Value {
    ghost item = { λ layout. any_value };

    fn next<'a>(
        alloc: Global,
        _layout: KeyLayout,
        _items: &[Self],
        from: Cursor<'a>,
    ) -> Result<(Self, Cursor<'a>), FieldError> {
        reading::value(alloc, from)
    }
}

/// The values of a key.
#[tactic(auto, unfolding(crate::specs::Reading::parts_at))]
fn parts(
    alloc: Global,
    layout: KeyLayout,
    from: Cursor,
) -> Result<(List<Value>, Cursor), FieldError>
    ensures { Reads (parts_at layout) from.entry result }
{
    match layout {
        KeyLayout::Single => lists::items::<Value>(alloc, layout, 1, from),
        KeyLayout::Counted => {
            let (count, after) = reading::byte(from)?;
            if count < 1 || usize::from(count) > KEY_PARTS {
                return Err(FieldError::BadTag { at: from.at });
            }
            lists::items::<Value>(alloc, layout, u16::from(count), after)
        }
    }
}

/// A key.
#[tactic(auto, unfolding(crate::specs::Reading::key_in))]
pub(crate) fn key(
    alloc: Global,
    layout: KeyLayout,
    from: Cursor,
) -> Result<(RowKey, Cursor), FieldError>
    ensures { Reads (key_in layout) from.entry result }
{
    let (resource, after) = reading::two_bytes(from)?;
    let (table, after) = reading::text(alloc, after)?;
    let (pk, after) = parts(alloc, layout, after)?;
    Ok((
        RowKey {
            resource,
            table,
            pk,
        },
        after,
    ))
}

#[tactic(auto, unfolding(crate::specs::KeyOrder::is_below))]
fn is_below(last: &RowKey, key: &RowKey) -> bool
    ensures { result ≡ is_below last.now key.now }
{
    last.cmp(key).is_lt()
}

/// A key that stands above the one before it, if there is one.
#[tactic(auto, unfolding(crate::specs::Reading::next_key))]
pub(crate) fn next_key<'a>(
    alloc: Global,
    layout: KeyLayout,
    last: Option<&RowKey>,
    from: Cursor<'a>,
) -> Result<(RowKey, Cursor<'a>), FieldError>
    ensures { Reads (next_key layout (option_copied last.entry)) from.entry result }
{
    let (key, after) = key(alloc, layout, from)?;
    match last {
        None => Ok((key, after)),
        Some(last) => {
            if is_below(last, &key) {
                Ok((key, after))
            } else {
                Err(FieldError::BadTag { at: from.at })
            }
        }
    }
}

impl Appended for RowKey {
    ghost fits = { FitsKey };

    ghost bytes = { key_bytes };

    #[tactic(auto, unfolding(crate::specs::Layout::key_bytes_in))]
    fn append(&self, out: &mut Vec<u8>) -> Result<(), NoMemory> {
        writing::bytes(out, &self.resource.to_be_bytes())?;
        writing::text(out, self.table.as_str())?;
        append_parts(out, self.pk.as_slice())
    }
}

impl Listed for RowKey {
    ghost item = { next_key };

    fn next<'a>(
        alloc: Global,
        layout: KeyLayout,
        items: &[Self],
        from: Cursor<'a>,
    ) -> Result<(Self, Cursor<'a>), FieldError> {
        next_key(alloc, layout, items.last(), from)
    }
}

#[tactic(auto, unfolding(crate::specs::Layout::parts_bytes))]
fn append_parts(out: &mut Vec<u8>, parts: &[Value]) -> Result<(), NoMemory>
    requires { FitsParts KeyLayout.Counted parts.now }
    ensures ok { OnOk result (out.new.items ≡ out.old.items ++ parts_bytes KeyLayout.Counted parts.now) }
    ensures kept { Keeps out.old.items out.new.items }
{
    writing::bytes(out, &[parts.len() as u8])?;
    append_items(out, parts)
}
