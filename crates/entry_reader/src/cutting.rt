//! Cuts a text into its pieces.
ghost use Rattle.std.specs.Prelude.{◌≡◌, IfOk, drop};
ghost use Rattle.entry_reader.specs.Cuts as spec;

use crate::pieces::{Inside, Separator};
use seata_types::{List, NoMemory};
use std::alloc::Global;

fn separates(at: Separator, byte: u8) -> bool
    ensures { result ≡ spec.separates at byte }
{
    match at {
        Separator::Bar => byte == b'|',
        Separator::Space => byte == b' ',
        Separator::Name => byte == b'.' || byte == b':',
        Separator::Part => byte == b'_',
        Separator::Item => byte == b',' || byte == b';',
    }
}

fn after(inside: Inside, byte: u8) -> Inside
    ensures { result ≡ spec.after inside byte }
{
    match (inside, byte) {
        (Inside::Nothing, b'\'') => Inside::Text,
        (Inside::Nothing, b'(') => Inside::Row,
        (Inside::Nothing, _) => Inside::Nothing,
        (Inside::Text, b'\'') => Inside::Nothing,
        (Inside::Text, _) => Inside::Text,
        (Inside::Row, b'\'') => Inside::RowText,
        (Inside::Row, b')') => Inside::Nothing,
        (Inside::Row, _) => Inside::Row,
        (Inside::RowText, b'\'') => Inside::Row,
        (Inside::RowText, _) => Inside::RowText,
    }
}

fn ends(at: Separator, inside: Inside, byte: u8) -> bool
    ensures { result ≡ spec.ends at inside byte }
{
    match inside {
        Inside::Nothing => separates(at, byte),
        Inside::Text | Inside::Row | Inside::RowText => false,
    }
}

/// The pieces of a text.
pub fn pieces(alloc: Global, text: &[u8], at: Separator) -> Result<Vec<List<u8>>, NoMemory>
    ensures { IfOk result (λ found. found.items ≡ spec.pieces at text.now) }
{
    let mut found = Vec::new(alloc);
    let mut piece = Vec::new(alloc);
    let mut inside = Inside::Nothing;
    for byte in text {
        if ends(at, inside, *byte) {
            let whole = std::mem::replace(&mut piece, Vec::new(alloc));
            found.push(List::of(whole))?;
        } else {
            piece.push(*byte)?;
        }
        inside = after(inside, *byte);
    }
    found.push(List::of(piece))?;
    Ok(found)
}

/// The n-th piece, counted from 0; the empty one where there are fewer.
pub fn piece(pieces: &[List<u8>], n: usize) -> &[u8]
    ensures { result.now ≡ spec.piece pieces.now n }
{
    match pieces.get(n) {
        Some(piece) => piece.as_slice(),
        None => &[],
    }
}

/// The last piece.
pub fn last_piece(pieces: &[List<u8>]) -> &[u8]
    ensures { result.now ≡ spec.last_piece pieces.now }
{
    match pieces.last() {
        Some(piece) => piece.as_slice(),
        None => &[],
    }
}

/// The bytes behind the first n.
pub fn behind(text: &[u8], n: usize) -> &[u8]
    ensures { result.now ≡ drop n text.now }
{
    if n <= text.len() { &text[n..] } else { &[] }
}

/// The pieces behind the first n.
pub fn further(pieces: &[List<u8>], n: usize) -> &[List<u8>]
    ensures { result.now ≡ drop n pieces.now }
{
    if n <= pieces.len() { &pieces[n..] } else { &[] }
}
