//! The undo log: entries that aren't put, and the list of its records, for which nothing else asks.
use crate::samples::{Fail, key, leg, so};
use seata_types::{Image, Leg, List, ReadRow, Row, Value};
use std::alloc::Global;
use undo_log::{UndoEntry, UndoError, UndoLog, UndoRecord};

fn row(alloc: Global, number: i64) -> Result<Row, Fail> {
    let cells = Vec::from_array(alloc, [Value::Int(number)])?;
    Ok(Row(List::of(cells)))
}

/// The undo record of a call that put in row 1 and read row 2.
fn record(alloc: Global, leg: Leg, call: u16) -> Result<UndoRecord, Fail> {
    let image = Image {
        key: key(alloc, 1)?,
        before: None,
        after: Some(row(alloc, 1)?),
    };
    let read = ReadRow {
        key: key(alloc, 2)?,
        row: row(alloc, 2)?,
    };
    Ok(UndoRecord {
        leg,
        call,
        images: List::of(Vec::from_array(alloc, [image])?),
        reads: List::of(Vec::from_array(alloc, [read])?),
    })
}

/// What comes of putting a branch's record of a call in.
fn put(
    alloc: Global,
    log: &mut UndoLog,
    leg: Leg,
    call: u16,
) -> Result<Result<(), UndoError>, Fail> {
    let record = record(alloc, leg, call)?;
    Ok(log.put(leg, UndoEntry::Normal(record)))
}

fn log_status(log: &UndoLog, leg: Leg) -> Option<u8> {
    match log.find(leg) {
        Some(entry) => Some(entry.log_status()),
        None => None,
    }
}

/// Puts the records of two branches and the marker of a third in, each once.
fn fill(alloc: Global, log: &mut UndoLog) -> Result<(), Fail> {
    so(put(alloc, log, leg(2, 4), 1)? == Ok(()), "a record")?;
    so(put(alloc, log, leg(1, 2), 2)? == Ok(()), "another record")?;
    so(
        log.put(leg(1, 5), UndoEntry::Finished) == Ok(()),
        "a marker",
    )?;
    let taken = Err(UndoError::Taken);
    so(
        put(alloc, log, leg(1, 5), 1)? == taken,
        "a record on a marker",
    )?;
    so(
        log.put(leg(1, 2), UndoEntry::Finished) == taken,
        "a marker on a record",
    )?;
    so(
        log_status(log, leg(1, 5)) == Some(1),
        "the status of a marker",
    )?;
    so(
        log_status(log, leg(1, 2)) == Some(0),
        "the status of a record",
    )
}

/// Whether a record is of this branch, and touched and read a row each.
fn is_of(record: &UndoRecord, leg: Leg) -> bool {
    record.leg == leg && record.images.as_slice().len() == 1 && record.reads.as_slice().len() == 1
}

fn are_of(records: &[UndoRecord], first: Leg, second: Leg) -> bool {
    match records {
        [one, two] => is_of(one, first) && is_of(two, second),
        _ => false,
    }
}

fn is_listed(alloc: Global, log: &UndoLog) -> Result<bool, Fail> {
    let records = log.list(alloc)?;
    Ok(are_of(records.as_slice(), leg(1, 2), leg(2, 4)))
}

fn fills(alloc: Global, log: &mut UndoLog) -> Result<(), Fail> {
    fill(alloc, log)?;
    so(is_listed(alloc, log)?, "the records without the marker")
}

fn holds(alloc: Global) -> Result<(), Fail> {
    let mut log = UndoLog::new(alloc);
    let answer = fills(alloc, &mut log);
    drop(log);
    answer
}

#[test]
fn an_entry_is_put_once_and_records_are_listed(rt: HostRuntime) -> Result<(), Fail> {
    holds(rt.alloc())
}
