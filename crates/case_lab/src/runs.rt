//! One run of a case. Its settings: `read-most` and `write-most`, the bytes of a call at most; `read-fails` and `write-fails`,
//! the call that fails, counted from 1; `room`, the bytes of the sink; `streams`, to stand on a reader and a writer; `disks`,
//! those of a shelf, which then fails, or with `refuses` lacks memory; `kept`, which of the runs on one shelf it is, counted from 1;
//! `meet`, to hold two workers until they meet; `last`, how many of the last lines are printed.
use crate::cases::Case;
use crate::devices::{FewDisks, Reader, Writer};
use crate::gates::Meeting;
use disk_model::MemShelf;
use lab_calls::{MemSink, MemSource, OpenGate, StdSink, StdSource, top};
use seata_types::NoMemory;
use std::alloc::Global;
use std::sync::Wait;
use std::thread::Threads;

/// Runs a case: what is printed of it. The first run on a shelf that is kept has a new one.
pub fn run<R: Threads + Wait + Sync>(
    rt: &R,
    alloc: Global,
    case: &Case,
    kept: &mut MemShelf,
) -> Result<Vec<u8>, NoMemory> {
    let mut source = source_of(alloc, case)?;
    let mut sink = sink_of(alloc, case)?;
    if case.number("streams", 0) > 0 {
        return over_streams(rt, alloc, case, source, sink);
    }
    let disks = case.number("disks", u32::MAX);
    if disks < u32::MAX {
        let mut shelf = FewDisks::new(disks, case.number("refuses", 0) > 0);
        return over_disks(rt, alloc, case, &mut source, &mut sink, &mut shelf);
    }
    if case.number("meet", 0) > 0 {
        return over_meeting(rt, alloc, case, &mut source, &mut sink);
    }
    if case.number("kept", 1) == 1 {
        *kept = MemShelf::new(alloc);
    }
    over_memory(rt, alloc, case, &mut source, &mut sink, kept)
}

/// The source of a case, of at least one byte a call.
fn source_of(alloc: Global, case: &Case) -> Result<MemSource, NoMemory> {
    let bytes = Vec::from_slice(alloc, case.input.as_slice())?;
    let failing = Vec::from_slice(alloc, &[case.number("read-fails", 0)])?;
    let most = case.number("read-most", 0) as usize;
    if most > 0 {
        return Ok(MemSource::with_step(bytes, most, failing));
    }
    Ok(MemSource::new(bytes, failing))
}

/// The sink of a case.
fn sink_of(alloc: Global, case: &Case) -> Result<MemSink, NoMemory> {
    let failing = Vec::from_slice(alloc, &[case.number("write-fails", 0)])?;
    let room = case.number("room", 100_000) as usize;
    let most = case.number("write-most", u32::MAX);
    if most < u32::MAX {
        return MemSink::with_step(alloc, room, most as usize, failing);
    }
    MemSink::new(alloc, room, failing)
}

/// A run in memory.
fn over_memory<R: Threads + Wait + Sync>(
    rt: &R,
    alloc: Global,
    case: &Case,
    source: &mut MemSource,
    sink: &mut MemSink,
    shelf: &mut MemShelf,
) -> Result<Vec<u8>, NoMemory> {
    let words = case.words.as_slice();
    let status = top(rt, alloc, words, source, sink, shelf, &OpenGate);
    tell(alloc, case, status, sink.written())
}

/// A run in memory whose workers are held, with whether they met.
fn over_meeting<R: Threads + Wait + Sync>(
    rt: &R,
    alloc: Global,
    case: &Case,
    source: &mut MemSource,
    sink: &mut MemSink,
) -> Result<Vec<u8>, NoMemory> {
    let mut shelf = MemShelf::new(alloc);
    let words = case.words.as_slice();
    let gate = Meeting::new();
    let status = top(rt, alloc, words, source, sink, &mut shelf, &gate);
    let mut text = tell(alloc, case, status, sink.written())?;
    text.extend_from_slice(if gate.is_met() {
        b"they met\n"
    } else {
        b"they did not meet\n"
    })?;
    Ok(text)
}

/// A run over a reader and a writer.
fn over_streams<R: Threads + Wait + Sync>(
    rt: &R,
    alloc: Global,
    case: &Case,
    source: MemSource,
    sink: MemSink,
) -> Result<Vec<u8>, NoMemory> {
    let mut source = StdSource::new(Reader { source });
    let mut writer = Writer { sink };
    let mut sink = StdSink::new(&mut writer);
    let mut shelf = MemShelf::new(alloc);
    let words = case.words.as_slice();
    let status = top(
        rt,
        alloc,
        words,
        &mut source,
        &mut sink,
        &mut shelf,
        &OpenGate,
    );
    drop(sink);
    tell(alloc, case, status, writer.sink.written())
}

/// A run over few disks, with how many came back.
fn over_disks<R: Threads + Wait + Sync>(
    rt: &R,
    alloc: Global,
    case: &Case,
    source: &mut MemSource,
    sink: &mut MemSink,
    shelf: &mut FewDisks,
) -> Result<Vec<u8>, NoMemory> {
    let words = case.words.as_slice();
    let status = top(rt, alloc, words, source, sink, shelf, &OpenGate);
    let mut text = tell(alloc, case, status, sink.written())?;
    let (back, faults) = (shelf.back, shelf.faults);
    let line = format!(in alloc; "{back} disks came back, {faults} faults\n")?;
    text.extend_from_slice(line.as_bytes())?;
    Ok(text)
}

/// The status of a run, the last lines of what it wrote, and whether the part that is looked for stands there.
fn tell(alloc: Global, case: &Case, status: u8, written: &[u8]) -> Result<Vec<u8>, NoMemory> {
    let mut text = format!(in alloc; "status {status}\n")?.into_bytes();
    let lines = last_lines(written, case.number("last", u32::MAX));
    text.extend_from_slice(lines)?;
    if !text.ends_with(b"\n") {
        text.extend_from_slice(b"\n\\ no line feed\n")?;
    }
    let part = case.part.as_str();
    if !part.is_empty() {
        let found = if has(written, part.as_bytes()) {
            "has"
        } else {
            "lacks"
        };
        let line = format!(in alloc; "it {found} {part}\n")?;
        text.extend_from_slice(line.as_bytes())?;
    }
    Ok(text)
}

/// The last so many lines of a text, with what stands behind its last line feed.
fn last_lines(text: &[u8], most: u32) -> &[u8] {
    let mut lines = 0;
    for at in (0..text.len()).rev() {
        if text[at] == b'\n' {
            if lines == most {
                return &text[at + 1..];
            }
            lines = lines.saturating_add(1);
        }
    }
    text
}

/// Whether a part stands in a text.
fn has(text: &[u8], part: &[u8]) -> bool {
    for at in 0..text.len() {
        if text[at..].starts_with(part) {
            return true;
        }
    }
    false
}
