//! Reads the lines of a report up to its sessions.
ghost use Rattle.std.specs.Prelude.{◌≡◌, ◌++◌, ◌∷◌, ◌≤◌, [], length, IfOk, IfErr, OnOk};
ghost use Rattle.seata_types.specs.Orders.{same_text};
ghost use Rattle.seata_types.specs.declared.limits.TheConstants.{HISTORY_BYTES};
ghost use Rattle.report_judge.specs.Lines.{lines};
ghost use Rattle.report_judge.specs.Reading.{ReadFrom, Reads};
ghost use Rattle.report_judge.specs.Steps.{Adds, Gives, IsEntryIn, RefusesLine};

use crate::cutting::cut;
use crate::errors::LinesError;
use entry_reader::{LineError, read_entry};
use history_text::{Entry, Names};
use seata_types::{List, NoMemory};
use std::alloc::Global;

/// Whether a line is this word.
fn is_word(line: &[u8], word: &str) -> bool
    ensures { result ≡ same_text line.now word.now }
{
    line == word.as_bytes()
}

/// The entry of a line; none where it isn't readable.
fn entry_of(alloc: Global, names: &Names, line: &[u8]) -> Result<Option<Entry>, NoMemory>
    ensures { IfOk result (IsEntryIn names.now line.now) }
{
    let Ok(text) = str::from_utf8(line) else {
        return Ok(None);
    };
    match read_entry(alloc, text, names) {
        Ok(entry) => Ok(Some(entry)),
        Err(LineError::Refused) => Ok(None),
        Err(LineError::NoMemory) => Err(NoMemory),
    }
}

/// Puts an entry behind others.
fn put(entries: &mut Vec<Entry>, entry: Entry) -> Result<(), NoMemory>
    ensures { OnOk result (entries.new.items ≡ entries.old.items ++ entry ∷ []) }
{
    if entries.push(entry).is_err() {
        return Err(NoMemory);
    }
    Ok(())
}

/// Puts the entry of a line behind others; the line has this number.
fn add(
    alloc: Global,
    entries: &mut Vec<Entry>,
    names: &Names,
    line: &[u8],
    number: usize,
) -> Result<(), LinesError>
    ensures added { OnOk result (Adds names.now line.now entries.old.items entries.new.items) }
    ensures refused { IfErr result (RefusesLine names.now line.now number) }
{
    match entry_of(alloc, names, line) {
        Ok(Some(entry)) => match put(entries, entry) {
            Ok(()) => Ok(()),
            Err(NoMemory) => Err(LinesError::NoMemory),
        },
        Ok(None) => Err(LinesError::Line { number }),
        Err(NoMemory) => Err(LinesError::NoMemory),
    }
}

/// The entries of lines up to the heading of the sessions, where the first line has the number 3.
fn read_lines(alloc: Global, names: &Names, text: &[u8]) -> Result<List<Entry>, LinesError>
    requires { length text.now ≤ HISTORY_BYTES }
    ensures { Gives (ReadFrom names.now 3 (lines text.now)) result }
{
    let mut entries = Vec::new(alloc);
    let mut number: usize = 3;
    let mut left = text;
    while !left.is_empty() {
        let (line, rest) = cut(left);
        if is_word(line, "sessions") {
            return Ok(List::of(entries));
        }
        add(alloc, &mut entries, names, line, number)?;
        left = rest;
        number += 1;
    }
    Err(LinesError::Line { number })
}

/// The entries of the text behind a scenario's line, or the number of the line that isn't readable, where that scenario's has the
/// number 1.
pub fn read_entries(alloc: Global, names: &Names, text: &[u8]) -> Result<List<Entry>, LinesError>
    requires { length text.now ≤ HISTORY_BYTES }
    ensures { Gives (Reads names.now text.now) result }
{
    let (heading, rest) = cut(text);
    if !is_word(heading, "entries") {
        return Err(LinesError::Line { number: 2 });
    }
    read_lines(alloc, names, rest)
}
