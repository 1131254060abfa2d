//! Lists of fields, read: a count, and as many items.
ghost use Rattle.std.specs.Prelude.{◌-◌, Option, None, length, slice_get};
ghost use Rattle.byte_fields.specs.Reading.{Reader, items_at, list_at};
ghost use Rattle.byte_fields.specs.Cursors.{Reads};

use crate::appending::Appended;
use crate::cursor::Cursor;
use crate::errors::FieldError;
use crate::layouts::KeyLayout;
use crate::reading;
use seata_types::List;
use std::alloc::Global;

/// An item of a list.
pub(crate) trait Listed: Appended + Sized + Drop {
    ghost use Rattle.byte_fields.specs.declared.layouts.KeyLayout.{KeyLayout};

    ghost item: { KeyLayout → Option Self → Reader Self };

    /// The item that stands at a cursor, behind those that were read.
    fn next<'a>(
        alloc: Global,
        layout: KeyLayout,
        items: &[Self],
        from: Cursor<'a>,
    ) -> Result<(Self, Cursor<'a>), FieldError>
        ensures { Reads (item layout (slice_get items.now (length items.now - 1))) from.entry result };
}

/// So many items.
pub(crate) fn items<T: Listed>(
    alloc: Global,
    layout: KeyLayout,
    count: u16,
    from: Cursor,
) -> Result<(List<T>, Cursor), FieldError>
    ensures { Reads (items_at (T.item layout) None count) from.entry result }
{
    let mut after = from;
    let mut items: Vec<T> = Vec::new(alloc);
    for _ in 0..count {
        let (item, rest) = T::next(alloc, layout, &items, after)?;
        items.push(item)?;
        after = rest;
    }
    Ok((List::of(items), after))
}

/// A count, and as many items.
#[tactic(auto, unfolding(crate::specs::Reading::list_at))]
pub(crate) fn list<T: Listed>(
    alloc: Global,
    layout: KeyLayout,
    from: Cursor,
) -> Result<(List<T>, Cursor), FieldError>
    ensures { Reads (list_at (T.item layout)) from.entry result }
{
    let (count, after) = reading::two_bytes(from)?;
    let (items, after) = items(alloc, layout, count, after)?;
    Ok((items, after))
}
