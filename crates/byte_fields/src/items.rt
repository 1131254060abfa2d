//! Lists of what upper crates read: a count, and as many items in their order.
ghost use Rattle.std.specs.Prelude.{◌≡◌, Bool, None, length, slice_get, ◌-◌};
ghost use Rattle.std.specs.Option.{option_copied};
ghost use Rattle.byte_fields.specs.Layout.{may_come};
ghost use Rattle.byte_fields.specs.Reading.{Reader, items_at, list_at};
ghost use Rattle.byte_fields.specs.Taking.{Reads};
ghost use Rattle.byte_fields.specs.LongLists.{next_item, long_list_at};

use crate::errors::FieldError;
use crate::fields::Fields;
use crate::layouts::KeyLayout;
use seata_types::List;
use std::alloc::Global;

/// An item of such a list. Contracts see how one is read, by the layout of the keys in it, and which may come after which.
pub trait Item: Sized + Drop {
    ghost use Rattle.byte_fields.specs.declared.layouts.KeyLayout.{KeyLayout};

    ghost item: { KeyLayout → Reader Self };

    ghost follows: { Self → Self → Bool };

    /// Takes the item that stands at the place; after an error the place is anywhere.
    fn take(alloc: Global, keys: KeyLayout, fields: &mut Fields) -> Result<Self, FieldError>
        ensures { Reads (item keys) fields.old fields.new result };

    /// Whether this may come after another.
    fn follows(&self, last: &Self) -> bool
        ensures { result ≡ follows last.now self.now };
}

fn may_come<T: Item>(last: Option<&T>, item: &T) -> bool
    ensures { result ≡ may_come T.follows (option_copied last.entry) item.now }
{
    match last {
        None => true,
        Some(last) => item.follows(last),
    }
}

// The item behind those that were read.
#[tactic(auto, unfolding(crate::specs::LongLists::next_item))]
fn next<T: Item>(
    alloc: Global,
    keys: KeyLayout,
    items: &[T],
    fields: &mut Fields,
) -> Result<T, FieldError>
    ensures { Reads (next_item T.follows (T.item keys) (slice_get items.now (length items.now - 1))) fields.old fields.new result }
{
    let place = fields.at();
    let item = T::take(alloc, keys, fields)?;
    if may_come(items.last(), &item) {
        Ok(item)
    } else {
        drop(item);
        Err(FieldError::BadTag { at: place })
    }
}

fn items<T: Item>(
    alloc: Global,
    keys: KeyLayout,
    count: u32,
    fields: &mut Fields,
) -> Result<List<T>, FieldError>
    ensures { Reads (items_at (next_item T.follows (T.item keys)) None count) fields.old fields.new result }
{
    let mut items: Vec<T> = Vec::new(alloc);
    for _ in 0..count {
        let item = next(alloc, keys, &items, fields)?;
        items.push(item)?;
    }
    Ok(List::of(items))
}

/// Takes two bytes of count, and as many items; one that may not come after the one before it is `BadTag` at its place.
/// After an error the place is anywhere.
#[tactic(auto, unfolding(crate::specs::Reading::list_at))]
pub fn take_list<T: Item>(
    alloc: Global,
    keys: KeyLayout,
    fields: &mut Fields,
) -> Result<List<T>, FieldError>
    ensures { Reads (list_at (next_item T.follows (T.item keys))) fields.old fields.new result }
{
    let count = fields.take_u16()?;
    items(alloc, keys, u32::from(count), fields)
}

/// Takes four bytes of count, and as many items, as `take_list` does.
#[tactic(auto, unfolding(crate::specs::LongLists::long_list_at))]
pub fn take_long_list<T: Item>(
    alloc: Global,
    keys: KeyLayout,
    fields: &mut Fields,
) -> Result<List<T>, FieldError>
    ensures { Reads (long_list_at (next_item T.follows (T.item keys))) fields.old fields.new result }
{
    let count = fields.take_u32()?;
    items(alloc, keys, count, fields)
}
