//! Each field appended to bytes, or the bytes left as they were.
ghost use Rattle.std.specs.Prelude.{◌≡◌, ◌∷◌, ◌++◌, [], OnOk, OnErr};
ghost use Rattle.std.specs.Int.{w16, w32, w64, to_be_bytes};
ghost use Rattle.byte_fields.specs.Parts.{kind_code, leg_bytes};
ghost use Rattle.byte_fields.specs.Layout.{FitsText, FitsValue, FitsRow, FitsOptionRow, FitsKey, FitsKeys, FitsImages, FitsReads, text_bytes, value_bytes, row_bytes, option_row_bytes, key_bytes, keys_bytes, images_bytes, reads_bytes, ticket_bytes};

use crate::appending::{put, put_list, settled};
use crate::writing;
use seata_types::{BranchKind, Image, Leg, NoMemory, ReadRow, Row, RowKey, Ticket, Value};

/// Appends one byte.
pub fn put_u8(out: &mut Vec<u8>, value: u8) -> Result<(), NoMemory>
    ensures ok { OnOk result (out.new.items ≡ out.old.items ++ value ∷ []) }
    ensures err { OnErr result (out.new.items ≡ out.old.items) }
{
    writing::bytes(out, &[value])
}

/// Appends two bytes, the high one first.
pub fn put_u16(out: &mut Vec<u8>, value: u16) -> Result<(), NoMemory>
    ensures ok { OnOk result (out.new.items ≡ out.old.items ++ to_be_bytes w16 value) }
    ensures err { OnErr result (out.new.items ≡ out.old.items) }
{
    writing::bytes(out, &value.to_be_bytes())
}

/// Appends four bytes, the highest one first.
pub fn put_u32(out: &mut Vec<u8>, value: u32) -> Result<(), NoMemory>
    ensures ok { OnOk result (out.new.items ≡ out.old.items ++ to_be_bytes w32 value) }
    ensures err { OnErr result (out.new.items ≡ out.old.items) }
{
    writing::bytes(out, &value.to_be_bytes())
}

/// Appends eight bytes, the highest one first.
pub fn put_u64(out: &mut Vec<u8>, value: u64) -> Result<(), NoMemory>
    ensures ok { OnOk result (out.new.items ≡ out.old.items ++ to_be_bytes w64 value) }
    ensures err { OnErr result (out.new.items ≡ out.old.items) }
{
    writing::bytes(out, &value.to_be_bytes())
}

/// Appends a text: two bytes of length, and its bytes.
pub fn put_text(out: &mut Vec<u8>, value: &str) -> Result<(), NoMemory>
    requires { FitsText value.now }
    ensures ok { OnOk result (out.new.items ≡ out.old.items ++ text_bytes value.now) }
    ensures err { OnErr result (out.new.items ≡ out.old.items) }
{
    let start = out.len();
    let appended = writing::text(out, value);
    settled(out, start, appended)
}

/// Appends a value: 0 and the number as a two's complement of eight bytes, or 1 and the text.
pub fn put_value(out: &mut Vec<u8>, value: &Value) -> Result<(), NoMemory>
    requires { FitsValue value.now }
    ensures ok { OnOk result (out.new.items ≡ out.old.items ++ value_bytes value.now) }
    ensures err { OnErr result (out.new.items ≡ out.old.items) }
{
    put(out, value)
}

/// Appends a row: two bytes of count, and its values.
pub fn put_row(out: &mut Vec<u8>, value: &Row) -> Result<(), NoMemory>
    requires { FitsRow value.now }
    ensures ok { OnOk result (out.new.items ≡ out.old.items ++ row_bytes value.now) }
    ensures err { OnErr result (out.new.items ≡ out.old.items) }
{
    put(out, value)
}

/// Appends 0, or 1 and the row.
pub fn put_option_row(out: &mut Vec<u8>, value: &Option<Row>) -> Result<(), NoMemory>
    requires { FitsOptionRow value.now }
    ensures ok { OnOk result (out.new.items ≡ out.old.items ++ option_row_bytes value.now) }
    ensures err { OnErr result (out.new.items ≡ out.old.items) }
{
    put(out, value)
}

/// Appends a key: the resource, the table, and the count and the values of its key columns.
pub fn put_key(out: &mut Vec<u8>, value: &RowKey) -> Result<(), NoMemory>
    requires { FitsKey value.now }
    ensures ok { OnOk result (out.new.items ≡ out.old.items ++ key_bytes value.now) }
    ensures err { OnErr result (out.new.items ≡ out.old.items) }
{
    put(out, value)
}

/// Appends two bytes of count, and the keys in their rising order.
pub fn put_keys(out: &mut Vec<u8>, value: &[RowKey]) -> Result<(), NoMemory>
    requires { FitsKeys value.now }
    ensures ok { OnOk result (out.new.items ≡ out.old.items ++ keys_bytes value.now) }
    ensures err { OnErr result (out.new.items ≡ out.old.items) }
{
    put_list(out, value)
}

/// Appends two bytes of count, and the images in rising order of their keys: of each the key, the
/// row before and the row after.
pub fn put_images(out: &mut Vec<u8>, value: &[Image]) -> Result<(), NoMemory>
    requires { FitsImages value.now }
    ensures ok { OnOk result (out.new.items ≡ out.old.items ++ images_bytes value.now) }
    ensures err { OnErr result (out.new.items ≡ out.old.items) }
{
    put_list(out, value)
}

/// Appends two bytes of count, and the reads in rising order of their keys: of each the key and
/// the row.
pub fn put_reads(out: &mut Vec<u8>, value: &[ReadRow]) -> Result<(), NoMemory>
    requires { FitsReads value.now }
    ensures ok { OnOk result (out.new.items ≡ out.old.items ++ reads_bytes value.now) }
    ensures err { OnErr result (out.new.items ≡ out.old.items) }
{
    put_list(out, value)
}

/// Appends a ticket: the boot and the count since it, four bytes each.
pub fn put_ticket(out: &mut Vec<u8>, value: Ticket) -> Result<(), NoMemory>
    ensures ok { OnOk result (out.new.items ≡ out.old.items ++ ticket_bytes value) }
    ensures err { OnErr result (out.new.items ≡ out.old.items) }
{
    put(out, &value)
}

/// Appends a branch behind its transaction, eight bytes each.
pub fn put_leg(out: &mut Vec<u8>, value: Leg) -> Result<(), NoMemory>
    ensures ok { OnOk result (out.new.items ≡ out.old.items ++ leg_bytes value) }
    ensures err { OnErr result (out.new.items ≡ out.old.items) }
{
    put(out, &value)
}

/// Appends the mode of a branch: 0 for AT, 1 for TCC.
pub fn put_kind(out: &mut Vec<u8>, value: BranchKind) -> Result<(), NoMemory>
    ensures ok { OnOk result (out.new.items ≡ out.old.items ++ kind_code value ∷ []) }
    ensures err { OnErr result (out.new.items ≡ out.old.items) }
{
    let code = match value {
        BranchKind::At => 0,
        BranchKind::Tcc => 1,
    };
    put_u8(out, code)
}
