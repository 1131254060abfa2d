//! The parts of lines, put behind what stands.
use crate::errors::Fail;
use crate::reading::names_of;
use history_text::{Cause, Entry, Names, Note, put_entry, put_key, put_note, put_place, put_row};
use seata_types::{Act, GlobalStatus, List, NoMemory, Place, Row, RowKey, Text, Value, Xid};
use std::alloc::Global;

/// An entry, a note, a place, a key and a row, one behind the other, where the resource is A and the manager M.
const PARTS: &str = "1 A 0 turn | polls | -status tc:7 15MA.seat:1_2(1, 2)";

fn entry() -> Entry {
    Entry {
        stamp: 1,
        place: Place::Res(1),
        now: 0,
        cause: Cause::Turn,
        act: Act::Polls,
        sent: None,
    }
}

fn note() -> Note {
    Note::StatusAnswer {
        xid: Xid(7),
        status: GlobalStatus::Finished,
    }
}

/// The values 1 and 2.
fn values(alloc: Global) -> Result<List<Value>, NoMemory> {
    let mut values = Vec::new(alloc);
    values.push(Value::Int(1))?;
    values.push(Value::Int(2))?;
    Ok(List::of(values))
}

/// The key of these parts in the table seat.
fn key(alloc: Global) -> Result<RowKey, NoMemory> {
    let table = Text::of(String::from_str(alloc, "seat")?);
    let pk = values(alloc)?;
    Ok(RowKey {
        resource: 1,
        table,
        pk,
    })
}

fn put_entry_and_note(out: &mut String, names: &Names) -> Result<(), NoMemory> {
    let entry = entry();
    let put = put_entry(out, &entry, names);
    drop(entry);
    put?;
    let note = note();
    let put = put_note(out, &note, names);
    drop(note);
    put?;
    Ok(())
}

fn put_key_and_row(alloc: Global, out: &mut String, names: &Names) -> Result<(), NoMemory> {
    let key = key(alloc)?;
    let put = put_key(out, &key, names);
    drop(key);
    put?;
    let row = Row(values(alloc)?);
    put_row(out, &row)?;
    Ok(())
}

fn put_all(alloc: Global, names: &Names) -> Result<String, NoMemory> {
    let mut out = String::new(alloc);
    put_entry_and_note(&mut out, names)?;
    put_place(&mut out, Place::Man(1), names)?;
    put_key_and_row(alloc, &mut out, names)?;
    Ok(out)
}

fn are_put(alloc: Global) -> Result<(), Fail> {
    let names = names_of(alloc, &["A"], &["M"])?;
    let out = put_all(alloc, &names);
    drop(names);
    if out?.as_str() != PARTS {
        return Err(Fail::Other(PARTS));
    }
    Ok(())
}

#[test]
fn puts_behind_what_stands(rt: HostRuntime) -> Result<(), Fail> {
    are_put(rt.alloc())
}
