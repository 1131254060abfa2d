//! The parts of a line: places, identities, values, keys and rows. Each appends to a text; after
//! want of memory the text is cut somewhere.
ghost use Rattle.std.specs.Prelude.{◌≡◌, ◌++◌, codes, OnOk, string_bytes};
ghost use Rattle.history_text.specs.Lines as lines;

use crate::entries::Names;
use crate::words::add_signed;
use seata_types::{List, Place, Row, RowKey, Text, Value};
use std::alloc::AllocError;

/// The n-th name, counted from 1; where there is none, a letter and the number.
fn add_name(out: &mut String, letter: &str, names: &[Text], n: u16) -> Result<(), AllocError>
    ensures { OnOk result (string_bytes out.new ≡ string_bytes out.old ++
        lines.name_text letter.now names.now n) }
{
    if n > 0
        && let Some(name) = names.get(n as usize - 1)
    {
        return out.push_str(name.as_str());
    }
    write!(out, "{letter}{n}")
}

/// Appends a place, by its node's name; where memory ends a part of it may stand. `put_place` appends all of it or nothing.
pub fn add_place(out: &mut String, place: Place, names: &Names) -> Result<(), AllocError>
    ensures { OnOk result (string_bytes out.new ≡ string_bytes out.old ++
        lines.place_text names.now place) }
{
    match place {
        Place::Net => out.push_str("net"),
        Place::Tc => out.push_str("tc"),
        Place::Res(n) => add_name(out, "r", names.resources.as_slice(), n),
        Place::Man(n) => add_name(out, "m", names.managers.as_slice(), n),
    }
}

/// A text with each quote doubled.
fn add_quoted(out: &mut String, text: &str) -> Result<(), AllocError>
    ensures { OnOk result (string_bytes out.new ≡ string_bytes out.old ++ lines.quoted text.now) }
{
    let mut rest = text;
    while let Some((before, after)) = rest.split_once('\'') {
        write!(out, "{before}''")?;
        rest = after;
    }
    out.push_str(rest)
}

/// A value as a statement's literal.
fn add_literal(out: &mut String, value: &Value) -> Result<(), AllocError>
    ensures { OnOk result (string_bytes out.new ≡ string_bytes out.old ++
        lines.literal_text value.now) }
{
    match value {
        Value::Int(number) => add_signed(out, *number),
        Value::Text(text) => {
            out.push_str("'")?;
            add_quoted(out, text.as_str())?;
            out.push_str("'")
        }
    }
}

/// Values, with a text between two.
fn add_values(out: &mut String, between: &str, values: &[Value]) -> Result<(), AllocError>
    ensures { OnOk result (string_bytes out.new ≡ string_bytes out.old ++
        lines.values_text between.now values.now) }
{
    if let Some((first, rest)) = values.split_first() {
        add_literal(out, first)?;
        for value in rest {
            out.push_str(between)?;
            add_literal(out, value)?;
        }
    }
    Ok(())
}

/// The parts of a primary key, as `1_2`.
fn add_parts(out: &mut String, pk: &List<Value>) -> Result<(), AllocError>
    ensures { OnOk result (string_bytes out.new ≡ string_bytes out.old ++ lines.parts_text pk.now) }
{
    add_values(out, "_", pk.as_slice())
}

/// Appends a key, as `A.seat:1_2`; where memory ends a part of it may stand. `put_key` appends all of it or nothing.
pub fn add_key(out: &mut String, key: &RowKey, names: &Names) -> Result<(), AllocError>
    ensures { OnOk result (string_bytes out.new ≡ string_bytes out.old ++
        lines.key_text names.now key.now) }
{
    add_name(out, "r", names.resources.as_slice(), key.resource)?;
    out.push_str(".")?;
    out.push_str(key.table.as_str())?;
    out.push_str(":")?;
    add_parts(out, &key.pk)
}

/// The keys of locks, as `acc:1,2;stock:1`, or `-` for none.
pub(crate) fn add_keys(out: &mut String, keys: &[RowKey]) -> Result<(), AllocError>
    ensures { OnOk result (string_bytes out.new ≡ string_bytes out.old ++
        lines.keys_text keys.now) }
{
    let Some((first, rest)) = keys.split_first() else {
        return out.push_str("-");
    };
    out.push_str(first.table.as_str())?;
    out.push_str(":")?;
    add_parts(out, &first.pk)?;
    let mut table = &first.table;
    for key in rest {
        if *table == key.table {
            out.push_str(",")?;
        } else {
            write!(out, ";{}:", key.table.as_str())?;
        }
        add_parts(out, &key.pk)?;
        table = &key.table;
    }
    Ok(())
}

/// Appends a row, as `(1, 900)`; where memory ends a part of it may stand. `put_row` appends all of it or nothing.
pub fn add_row(out: &mut String, row: &Row) -> Result<(), AllocError>
    ensures { OnOk result (string_bytes out.new ≡ string_bytes out.old ++ lines.row_text row.now) }
{
    out.push_str("(")?;
    add_values(out, ", ", row.0.as_slice())?;
    out.push_str(")")
}

/// A row, or `-` for none.
pub(crate) fn add_option_row(out: &mut String, row: &Option<Row>) -> Result<(), AllocError>
    ensures { OnOk result (string_bytes out.new ≡ string_bytes out.old ++
        lines.option_row_text row.now) }
{
    match row {
        Some(row) => add_row(out, row),
        None => out.push_str("-"),
    }
}
