//! The line of an entry.
ghost use Rattle.std.specs.Prelude.{◌≡◌, ◌++◌, codes, OnOk, OnErr, IfOk, string_bytes};
ghost use Rattle.history_text.specs.Lines as lines;

use crate::acts::add_act;
use crate::causes::add_cause;
use crate::entries::{Entry, Names, Sent};
use crate::messages::add_note;
use crate::notes::Note;
use crate::parts::{add_key, add_place, add_row};
use crate::words::{add_number, add_numbered};
use seata_types::{Act, NoMemory, Place, Row, RowKey};
use std::alloc::{AllocError, Global};

/// The line of an entry, without its line feed.
pub fn write_entry(alloc: Global, of: &Entry, names: &Names) -> Result<String, NoMemory>
    ensures { IfOk result (λ line. string_bytes line ≡ lines.entry_text names.now of.entry.now) }
{
    let mut out = String::new(alloc);
    match add_entry(&mut out, of, names) {
        Ok(()) => Ok(out),
        Err(AllocError) => Err(NoMemory),
    }
}

/// The bytes that a line is given at first: most lines have fewer, so few are copied as they grow.
const LINE_ROOM: usize = 160;

/// Appends the line of an entry, without its line feed. Nothing is appended where memory ends.
pub fn put_entry(out: &mut String, of: &Entry, names: &Names) -> Result<(), AllocError>
    ensures appended { OnOk result (string_bytes out.new ≡ string_bytes out.old ++
        lines.entry_text names.now of.entry.now) }
    ensures kept { OnErr result (string_bytes out.new ≡ string_bytes out.old) }
{
    let mut line = String::with_capacity(*out.allocator(), LINE_ROOM)?;
    add_entry(&mut line, of, names)?;
    out.push_str(line.as_str())
}

/// Appends a note. Nothing is appended where memory ends.
pub fn put_note(out: &mut String, note: &Note, names: &Names) -> Result<(), AllocError>
    ensures appended { OnOk result (string_bytes out.new ≡ string_bytes out.old ++
        lines.note_text names.now note.now) }
    ensures kept { OnErr result (string_bytes out.new ≡ string_bytes out.old) }
{
    let mut text = String::with_capacity(*out.allocator(), LINE_ROOM)?;
    add_note(&mut text, note, names)?;
    out.push_str(text.as_str())
}

/// Appends a place, by its node's name. Nothing is appended where memory ends.
pub fn put_place(out: &mut String, place: Place, names: &Names) -> Result<(), AllocError>
    ensures appended { OnOk result (string_bytes out.new ≡ string_bytes out.old ++
        lines.place_text names.now place) }
    ensures kept { OnErr result (string_bytes out.new ≡ string_bytes out.old) }
{
    let mut text = String::new(*out.allocator());
    add_place(&mut text, place, names)?;
    out.push_str(text.as_str())
}

/// Appends a key, as `A.acc:1`. Nothing is appended where memory ends.
pub fn put_key(out: &mut String, key: &RowKey, names: &Names) -> Result<(), AllocError>
    ensures appended { OnOk result (string_bytes out.new ≡ string_bytes out.old ++
        lines.key_text names.now key.now) }
    ensures kept { OnErr result (string_bytes out.new ≡ string_bytes out.old) }
{
    let mut text = String::new(*out.allocator());
    add_key(&mut text, key, names)?;
    out.push_str(text.as_str())
}

/// Appends a row, as `(1, 900)`. Nothing is appended where memory ends.
pub fn put_row(out: &mut String, row: &Row) -> Result<(), AllocError>
    ensures appended { OnOk result (string_bytes out.new ≡ string_bytes out.old ++
        lines.row_text row.now) }
    ensures kept { OnErr result (string_bytes out.new ≡ string_bytes out.old) }
{
    let mut text = String::new(*out.allocator());
    add_row(&mut text, row)?;
    out.push_str(text.as_str())
}

/// Appends the line of an entry, without its line feed; where memory ends a part of it may stand. `put_entry` appends all of it
/// or nothing.
#[tactic(auto, unfolding(crate::specs::Lines::entry_text))]
pub fn add_entry(out: &mut String, of: &Entry, names: &Names) -> Result<(), AllocError>
    ensures { OnOk result (string_bytes out.new ≡ string_bytes out.old ++
        lines.entry_text names.now of.entry.now) }
{
    add_origin(out, of, names)?;
    add_done(out, &of.act, &of.sent, names)
}

/// What an entry did, and what it sent. Most entries of a run did nothing and sent nothing.
fn add_done(
    out: &mut String,
    act: &Act,
    sent: &Option<Sent>,
    names: &Names,
) -> Result<(), AllocError>
    ensures { OnOk result (string_bytes out.new ≡ string_bytes out.old ++
        (codes " | " ++
        (lines.act_text names.now act.now ++
        (codes " | " ++ lines.sent_text names.now sent.now)))) }
{
    if let (Act::Nothing, None) = (act, sent) {
        return out.push_str(" | none | -");
    }
    out.push_str(" | ")?;
    add_act(out, act, names)?;
    out.push_str(" | ")?;
    add_sent(out, sent, names)
}

/// The number of an entry, its place, its moment and its cause.
#[tactic(auto, unfolding(crate::specs::Lines::origin_text))]
fn add_origin(out: &mut String, of: &Entry, names: &Names) -> Result<(), AllocError>
    ensures { OnOk result (string_bytes out.new ≡ string_bytes out.old ++
        lines.origin_text names.now of.entry.now) }
{
    add_number(out, u64::from(of.stamp))?;
    out.push_str(" ")?;
    add_place(out, of.place, names)?;
    add_numbered(out, " ", of.now)?;
    out.push_str(" ")?;
    add_cause(out, &of.cause, names)
}

/// What an entry sent, and to whom, or `-`.
fn add_sent(out: &mut String, sent: &Option<Sent>, names: &Names) -> Result<(), AllocError>
    ensures { OnOk result (string_bytes out.new ≡ string_bytes out.old ++
        lines.sent_text names.now sent.now) }
{
    match sent {
        Some(sent) => {
            add_note(out, sent.note.get(), names)?;
            out.push_str(" to ")?;
            add_place(out, sent.to, names)
        }
        None => out.push_str("-"),
    }
}
