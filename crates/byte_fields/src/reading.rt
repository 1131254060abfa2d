//! Each field but rows, keys and lists, read at a cursor.
ghost use Rattle.std.specs.Prelude.{◌≡◌, List, Ok, true, false, IfOk, IfErr, MatchOption, not};
ghost use Rattle.std.specs.List.{list_all};
ghost use Rattle.std.specs.Int.{w8, w16, w32, w64};
ghost use Rattle.byte_fields.specs.Layout.{is_control, is_plain};
ghost use Rattle.byte_fields.specs.Reading.{bytes_of, number_at, text_at, short_text_at, value_at, ticket_at};
ghost use Rattle.byte_fields.specs.Cursors.{Reads, Fails, position};

use crate::cursor::Cursor;
use crate::errors::FieldError;
use seata_types::limits::TEXT_BYTES;
use seata_types::{Text, Ticket, Value};
use std::alloc::Global;

// `count` bytes of the field that begins at `start`.
fn bytes<'a>(
    from: Cursor<'a>,
    start: usize,
    count: usize,
) -> Result<(&'a [u8], Cursor<'a>), FieldError>
    ensures ok { IfOk result (λ found. bytes_of start count (position from.entry) ≡ Ok (found.0.now, position found.1)) }
    ensures err { IfErr result (λ e. Fails e (bytes_of start count (position from.entry))) }
{
    if from.rest.len() < count {
        return Err(FieldError::Short { at: start });
    }
    let (front, rest) = from.rest.split_at(count);
    let after = Cursor {
        at: from.at + count,
        rest,
    };
    Ok((front, after))
}

#[tactic(auto, unfolding(crate::specs::Reading::number_at))]
pub(crate) fn byte(from: Cursor) -> Result<(u8, Cursor), FieldError>
    ensures { Reads (number_at w8) from.entry result }
{
    let (bytes, after) = bytes(from, from.at, 1)?;
    Ok((bytes[0], after))
}

#[tactic(auto, unfolding(crate::specs::Reading::number_at))]
pub(crate) fn two_bytes(from: Cursor) -> Result<(u16, Cursor), FieldError>
    ensures { Reads (number_at w16) from.entry result }
{
    let (bytes, after) = bytes(from, from.at, 2)?;
    Ok((u16::from_be_bytes([bytes[0], bytes[1]]), after))
}

#[tactic(auto, unfolding(crate::specs::Reading::number_at))]
pub(crate) fn four_bytes(from: Cursor) -> Result<(u32, Cursor), FieldError>
    ensures { Reads (number_at w32) from.entry result }
{
    let (bytes, after) = bytes(from, from.at, 4)?;
    let number = u32::from_be_bytes([bytes[0], bytes[1], bytes[2], bytes[3]]);
    Ok((number, after))
}

#[tactic(auto, unfolding(crate::specs::Reading::number_at))]
pub(crate) fn eight_bytes(from: Cursor) -> Result<(u64, Cursor), FieldError>
    ensures { Reads (number_at w64) from.entry result }
{
    let (bytes, after) = bytes(from, from.at, 8)?;
    let number = u64::from_be_bytes([
        bytes[0], bytes[1], bytes[2], bytes[3], bytes[4], bytes[5], bytes[6], bytes[7],
    ]);
    Ok((number, after))
}

fn has_no_control(text: &str) -> bool
    ensures { result ≡ list_all (λ c. not (is_control c)) text.now }
{
    text.bytes().all(|c| c >= 32 && c != 127)
}

// The bytes as a text, where they are UTF-8 without control characters.
fn plain_text(bytes: &[u8]) -> Option<&str>
    ensures { MatchOption result (is_plain bytes.now ≡ false) (λ text. (text.now ≡ bytes.now) × (is_plain bytes.now ≡ true)) }
{
    match str::from_utf8(bytes) {
        Ok(text) => {
            if has_no_control(text) {
                Some(text)
            } else {
                None
            }
        }
        Err(_) => None,
    }
}

#[tactic(auto, unfolding(crate::specs::Reading::text_at))]
pub(crate) fn text(alloc: Global, from: Cursor) -> Result<(Text, Cursor), FieldError>
    ensures { Reads text_at from.entry result }
{
    let (count, after) = two_bytes(from)?;
    let (bytes, after) = bytes(after, from.at, count as usize)?;
    let Some(text) = plain_text(bytes) else {
        return Err(FieldError::BadText { at: from.at });
    };
    let text = String::from_str(alloc, text)?;
    Ok((Text::of(text), after))
}

#[tactic(auto, unfolding(crate::specs::Reading::short_text_at))]
fn short_text(alloc: Global, from: Cursor) -> Result<(Text, Cursor), FieldError>
    ensures { Reads short_text_at from.entry result }
{
    let (text, after) = text(alloc, from)?;
    if text.as_str().len() > TEXT_BYTES {
        return Err(FieldError::BadText { at: from.at });
    }
    Ok((text, after))
}

#[tactic(auto, unfolding(crate::specs::Reading::value_at))]
pub(crate) fn value(alloc: Global, from: Cursor) -> Result<(Value, Cursor), FieldError>
    ensures { Reads value_at from.entry result }
{
    let (tag, after) = byte(from)?;
    match tag {
        0 => {
            let (number, after) = eight_bytes(after)?;
            Ok((Value::Int(number.cast_signed()), after))
        }
        1 => {
            let (text, after) = short_text(alloc, after)?;
            Ok((Value::Text(text), after))
        }
        _ => Err(FieldError::BadTag { at: from.at }),
    }
}

#[tactic(auto, unfolding(crate::specs::Reading::ticket_at))]
pub(crate) fn ticket(from: Cursor) -> Result<(Ticket, Cursor), FieldError>
    ensures { Reads ticket_at from.entry result }
{
    let (boot, after) = four_bytes(from)?;
    let (seq, after) = four_bytes(after)?;
    Ok((Ticket { boot, seq }, after))
}
