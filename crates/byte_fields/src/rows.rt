//! Rows, and images and reads in lists: read at a cursor, and appended.
ghost use Rattle.byte_fields.specs.Layout.{FitsRow, FitsOptionRow, FitsImageIn, FitsReadIn, row_bytes, option_row_bytes, image_bytes_in, read_bytes_in};
ghost use Rattle.byte_fields.specs.Reading.{row_at, option_row_at, next_image, next_read};
ghost use Rattle.byte_fields.specs.Cursors.{Reads};
ghost use Rattle.byte_fields.specs.Layout.{any_order};
ghost use Rattle.byte_fields.specs.Parts.{named_row_at};

use crate::appending::{Appended, append_list};
use crate::cursor::Cursor;
use crate::errors::FieldError;
use crate::fields::Fields;
use crate::items::Item;
use crate::layouts::KeyLayout;
use crate::lists::{self, Listed};
use crate::{keys, reading, writing};
use seata_types::{Image, NoMemory, ReadRow, Row, Text, Value};
use std::alloc::Global;

impl Appended for Image {
    ghost use Rattle.byte_fields.specs.declared.layouts.KeyLayout.TheVariants as layouts;

    ghost fits = { FitsImageIn layouts.Counted };

    ghost bytes = { image_bytes_in layouts.Counted };

    #[tactic(auto, unfolding(crate::specs::Layout::image_bytes_in))]
    fn append(&self, out: &mut Vec<u8>) -> Result<(), NoMemory> {
        self.key.append(out)?;
        self.before.append(out)?;
        self.after.append(out)
    }
}

impl Listed for Image {
    ghost item = { next_image };

    #[tactic(auto, unfolding(crate::specs::Reading::next_image))]
    fn next<'a>(
        alloc: Global,
        layout: KeyLayout,
        items: &[Self],
        from: Cursor<'a>,
    ) -> Result<(Self, Cursor<'a>), FieldError> {
        let (key, after) = keys::next_key(alloc, layout, items.last().map(|last| &last.key), from)?;
        let (before, rest) = option_row(alloc, after)?;
        let (after, rest) = option_row(alloc, rest)?;
        Ok((Image { key, before, after }, rest))
    }
}

impl Appended for ReadRow {
    ghost use Rattle.byte_fields.specs.declared.layouts.KeyLayout.TheVariants as layouts;

    ghost fits = { FitsReadIn layouts.Counted };

    ghost bytes = { read_bytes_in layouts.Counted };

    #[tactic(auto, unfolding(crate::specs::Layout::read_bytes_in))]
    fn append(&self, out: &mut Vec<u8>) -> Result<(), NoMemory> {
        self.key.append(out)?;
        self.row.append(out)
    }
}

impl Listed for ReadRow {
    ghost item = { next_read };

    #[tactic(auto, unfolding(crate::specs::Reading::next_read))]
    fn next<'a>(
        alloc: Global,
        layout: KeyLayout,
        items: &[Self],
        from: Cursor<'a>,
    ) -> Result<(Self, Cursor<'a>), FieldError> {
        let (key, after) = keys::next_key(alloc, layout, items.last().map(|last| &last.key), from)?;
        let (row, after) = row(alloc, after)?;
        Ok((ReadRow { key, row }, after))
    }
}

#[tactic(auto, unfolding(crate::specs::Reading::row_at))]
pub(crate) fn row(alloc: Global, from: Cursor) -> Result<(Row, Cursor), FieldError>
    ensures { Reads row_at from.entry result }
{
    let (values, after) = lists::list::<Value>(alloc, KeyLayout::Counted, from)?;
    Ok((Row(values), after))
}

#[tactic(auto, unfolding(crate::specs::Reading::option_row_at))]
pub(crate) fn option_row(alloc: Global, from: Cursor) -> Result<(Option<Row>, Cursor), FieldError>
    ensures { Reads option_row_at from.entry result }
{
    let (tag, after) = reading::byte(from)?;
    match tag {
        0 => Ok((None, after)),
        1 => {
            let (row, after) = row(alloc, after)?;
            Ok((Some(row), after))
        }
        _ => Err(FieldError::BadTag { at: from.at }),
    }
}

impl Appended for Row {
    ghost fits = { FitsRow };

    ghost bytes = { row_bytes };

    #[tactic(auto, unfolding(crate::specs::Layout::row_bytes))]
    fn append(&self, out: &mut Vec<u8>) -> Result<(), NoMemory> {
        append_list(out, self.0.as_slice())
    }
}

impl Appended for Option<Row> {
    ghost fits = { FitsOptionRow };

    ghost bytes = { option_row_bytes };

    #[tactic(auto, unfolding(crate::specs::Layout::option_row_bytes))]
    fn append(&self, out: &mut Vec<u8>) -> Result<(), NoMemory> {
        match self {
            None => writing::bytes(out, &[0]),
            Some(row) => {
                writing::bytes(out, &[1])?;
                row.append(out)
            }
        }
    }
}

/// A row behind its table's name, in no order.
impl Item for (Text, Row) {
    ghost item = { λ keys. named_row_at };

    ghost follows = { any_order };

    #[tactic(auto, unfolding(crate::specs::Parts::named_row_at))]
    fn take(alloc: Global, _keys: KeyLayout, fields: &mut Fields) -> Result<Self, FieldError> {
        let table = fields.take_text(alloc)?;
        let row = fields.take_row(alloc)?;
        Ok((table, row))
    }

    fn follows(&self, _last: &Self) -> bool {
        true
    }
}
