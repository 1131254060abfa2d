//! Values, keys, lock texts and rows.
ghost use Rattle.std.specs.Prelude.{◌≡◌, false, [], IfOk, map};
ghost use Rattle.entry_reader.specs.Parts as spec;
ghost use Rattle.entry_reader.specs.Values as values;

use crate::cutting::{behind, piece, pieces};
use crate::parts::{number, word};
use crate::pieces::Separator;
use crate::places::number_in;
use history_text::Names;
use seata_types::{Boxed, Duplicate, List, NoMemory, Row, RowKey, Text, Value};
use std::alloc::Global;

fn copied(alloc: Global, text: &str) -> Result<Text, NoMemory>
    ensures { IfOk result (λ copied. copied ≡ text.now) }
{
    let text = String::from_str(alloc, text)?;
    Ok(Text::of(text))
}

/// The text that bytes spell; the empty one where they aren't UTF-8.
#[tactic(auto, using(crate::proofs::TextBytes::text_from_text, crate::proofs::TextBytes::text_from_other))]
fn text(alloc: Global, bytes: &[u8]) -> Result<Text, NoMemory>
    ensures { IfOk result (λ text. text ≡ spec.text_from bytes.now) }
{
    match str::from_utf8(bytes) {
        Ok(found) => copied(alloc, found),
        Err(_) => copied(alloc, ""),
    }
}

/// The bytes behind an opening quote, up to its closing one; two quotes in a row are one.
fn unquoted(alloc: Global, text: &[u8]) -> Result<Vec<u8>, NoMemory>
    ensures { IfOk result (λ found. found.items ≡ spec.unquoted false text.now) }
{
    let mut found = Vec::new(alloc);
    let mut is_second = false;
    for byte in text {
        let is_quote = *byte == b'\'';
        if is_second && !is_quote {
            return Ok(found);
        }
        if is_second || !is_quote {
            found.push(*byte)?;
        }
        is_second = is_quote && !is_second;
    }
    Ok(found)
}

#[tactic(auto, unfolding(crate::specs::Values::negative))]
fn negative(text: &[u8]) -> i64
    ensures { result ≡ values.negative text.now }
{
    match 0i64.checked_sub_unsigned(number(text).min(9_223_372_036_854_775_808)) {
        Some(number) => number,
        None => i64::MIN,
    }
}

#[tactic(auto, unfolding(crate::specs::Values::positive))]
fn positive(text: &[u8]) -> i64
    ensures { result ≡ values.positive text.now }
{
    number(text).min(9_223_372_036_854_775_807) as i64
}

/// The value of a statement's literal.
fn literal(alloc: Global, text: &[u8]) -> Result<Value, NoMemory>
    ensures { IfOk result (λ found. found ≡ values.literal_of text.now) }
{
    match text {
        [b'\'', quoted @ ..] => {
            let bytes = unquoted(alloc, quoted)?;
            Ok(Value::Text(self::text(alloc, &bytes)?))
        }
        [b'-', digits @ ..] => Ok(Value::Int(negative(digits))),
        _ => Ok(Value::Int(positive(text))),
    }
}

/// The value of a literal behind a space, as it stands in a row.
fn cell(alloc: Global, text: &[u8]) -> Result<Value, NoMemory>
    ensures { IfOk result (λ found. found ≡ values.cell_of text.now) }
{
    match text {
        [b' ', rest @ ..] => literal(alloc, rest),
        _ => literal(alloc, text),
    }
}

/// The values of literals, each by its piece.
fn literals(alloc: Global, pieces: &[List<u8>]) -> Result<List<Value>, NoMemory>
    ensures { IfOk result (λ found. found ≡ map values.literal_of pieces.now) }
{
    let mut found = Vec::new(alloc);
    for piece in pieces {
        let value = literal(alloc, piece.as_slice())?;
        found.push(value)?;
    }
    Ok(List::of(found))
}

/// `1_2`.
#[tactic(auto, unfolding(crate::specs::Values::parts_of))]
fn parts(alloc: Global, text: &[u8]) -> Result<List<Value>, NoMemory>
    ensures { IfOk result (λ found. found ≡ values.parts_of text.now) }
{
    let pieces = pieces(alloc, text, Separator::Part)?;
    literals(alloc, &pieces)
}

/// `A.seat:1_2`.
#[tactic(auto, unfolding(crate::specs::Values::key_of, crate::specs::Values::key_by))]
pub fn key(alloc: Global, names: &Names, text: &[u8]) -> Result<RowKey, NoMemory>
    ensures { IfOk result (λ found. found ≡ values.key_of names.now text.now) }
{
    let pieces = pieces(alloc, text, Separator::Name)?;
    Ok(RowKey {
        resource: number_in(names.resources.as_slice(), piece(&pieces, 0)),
        table: self::text(alloc, piece(&pieces, 1))?,
        pk: parts(alloc, piece(&pieces, 2))?,
    })
}

/// The same, in a box.
pub fn boxed_key(alloc: Global, names: &Names, text: &[u8]) -> Result<Boxed<RowKey>, NoMemory>
    ensures { IfOk result (λ found. found ≡ values.key_of names.now text.now) }
{
    Boxed::new(alloc, key(alloc, names, text)?)
}

/// One key of a lock text: with its table, or of the table of the key before it.
#[tactic(auto, unfolding(crate::specs::Values::lock_of))]
fn lock(alloc: Global, resource: u16, table: &Text, text: &[u8]) -> Result<RowKey, NoMemory>
    ensures { IfOk result (λ found. found ≡ values.lock_of resource table.now text.now) }
{
    let pieces = pieces(alloc, text, Separator::Name)?;
    match pieces.as_slice() {
        [] => Ok(RowKey {
            resource,
            table: table.copy(alloc)?,
            pk: List::of(Vec::new(alloc)),
        }),
        [pk] => Ok(RowKey {
            resource,
            table: table.copy(alloc)?,
            pk: parts(alloc, pk.as_slice())?,
        }),
        [name, pk, ..] => Ok(RowKey {
            resource,
            table: self::text(alloc, name.as_slice())?,
            pk: parts(alloc, pk.as_slice())?,
        }),
    }
}

/// The keys of a lock text, each by its piece.
fn listed_locks(alloc: Global, resource: u16, pieces: &[List<u8>]) -> Result<List<RowKey>, NoMemory>
    ensures { IfOk result (λ found. found ≡ values.locks_from resource [] pieces.now) }
{
    let mut found = Vec::new(alloc);
    let mut table = copied(alloc, "")?;
    for piece in pieces {
        let key = lock(alloc, resource, &table, piece.as_slice())?;
        table = key.table.copy(alloc)?;
        found.push(key)?;
    }
    Ok(List::of(found))
}

/// `acc:1,2;stock:1`, all of one resource, or `-` for none.
#[tactic(auto, unfolding(crate::specs::Values::locks_of))]
pub fn locks(alloc: Global, resource: u16, text: &[u8]) -> Result<List<RowKey>, NoMemory>
    ensures { IfOk result (λ found. found ≡ values.locks_of resource text.now) }
{
    if text == b"-".as_slice() {
        return Ok(List::of(Vec::new(alloc)));
    }
    let pieces = pieces(alloc, text, Separator::Item)?;
    listed_locks(alloc, resource, &pieces)
}

/// The cells of a row, each by its piece.
fn cells(alloc: Global, pieces: &[List<u8>]) -> Result<List<Value>, NoMemory>
    ensures { IfOk result (λ found. found ≡ map values.cell_of pieces.now) }
{
    let mut found = Vec::new(alloc);
    for piece in pieces {
        let value = cell(alloc, piece.as_slice())?;
        found.push(value)?;
    }
    Ok(List::of(found))
}

/// `(1, 900)`.
#[tactic(auto, unfolding(crate::specs::Values::row_of))]
fn row(alloc: Global, text: &[u8]) -> Result<Row, NoMemory>
    ensures { IfOk result (λ found. found ≡ values.row_of text.now) }
{
    if text == b"()".as_slice() {
        return Ok(Row(List::of(Vec::new(alloc))));
    }
    let pieces = pieces(alloc, behind(text, 1), Separator::Item)?;
    Ok(Row(cells(alloc, &pieces)?))
}

/// A row, or `-` for none.
#[tactic(auto, unfolding(crate::specs::Values::option_row_of))]
pub fn option_row(alloc: Global, text: &[u8]) -> Result<Option<Row>, NoMemory>
    ensures { IfOk result (λ found. found ≡ values.option_row_of text.now) }
{
    if text == b"-".as_slice() {
        return Ok(None);
    }
    Ok(Some(row(alloc, text)?))
}

/// The same, in a box.
pub fn boxed_row(alloc: Global, text: &[u8]) -> Result<Boxed<Option<Row>>, NoMemory>
    ensures { IfOk result (λ found. found ≡ values.option_row_of text.now) }
{
    Boxed::new(alloc, option_row(alloc, text)?)
}
