//! The journal.
ghost use Rattle.std.specs.Prelude.{◌≤◌};
ghost use Rattle.disk_model.specs.declared.disk.TheConstants.{LAST_PICK};

use crate::samples::{Fail, are, blank, disk_with, so};
use disk_journal::{AppendError, Journal, JournalError};
use disk_model::{Disk, Failed, MemDisk, Stoppable};
use seata_types::limits::BODY_BYTES;
use seata_types::{Full, List};
use std::alloc::Global;

const BODY: [u8; 2] = [0xaa, 0xbb];

// Comes back after a crash, and opens the journal.
fn reopen<D: Disk + Drop>(
    alloc: Global,
    mut disk: D,
    pick: u16,
) -> Result<(Journal<D>, List<List<u8>>), JournalError>
    requires { pick ≤ LAST_PICK }
{
    disk.restart(pick)?;
    match Journal::open(alloc, disk, 0) {
        Ok(opened) => Ok(opened),
        Err((error, _)) => Err(error),
    }
}

// Whether the journal of a disk has these records after a crash.
fn has<D: Disk + Drop>(alloc: Global, disk: D, pick: u16, bodies: &[&[u8]]) -> Result<bool, Fail>
    requires { pick ≤ LAST_PICK }
{
    let (journal, records) = reopen(alloc, disk, pick)?;
    drop(journal);
    Ok(are(&records, bodies))
}

fn new_journal(alloc: Global, size: u64) -> Result<Journal<MemDisk>, Fail> {
    let disk = blank(alloc, size)?;
    let (journal, _) = reopen(alloc, disk, 0)?;
    Ok(journal)
}

// How many records stand on a disk from an offset on.
fn count(
    alloc: Global,
    size: u64,
    bytes: &[u8],
    from: u64,
) -> Result<Result<usize, JournalError>, Fail> {
    let mut disk = disk_with(alloc, size, bytes)?;
    disk.restart(0)?;
    match Journal::open(alloc, disk, from) {
        Ok((_, records)) => Ok(Ok(records.as_slice().len())),
        Err((error, _)) => Ok(Err(error)),
    }
}

fn first_bytes<D: Disk>(disk: &mut D) -> Result<[u8; 8], Failed> {
    let mut bytes = [9; 8];
    if disk.size() >= 8 {
        disk.read_at(0, &mut bytes)?;
    }
    Ok(bytes)
}

fn append<D: Disk>(journal: &mut Journal<D>, body: &[u8]) -> Result<(), AppendError> {
    if body.len() > BODY_BYTES || journal.is_down() {
        return Err(AppendError::Failed);
    }
    journal.append(body)
}

// Whether a journal of 4,096 bytes takes two records, of which the second fills it.
fn is_filled(journal: &mut Journal<MemDisk>, body: &[u8]) -> bool {
    let full = Full {
        needed: 4101,
        size: 4096,
    };
    append(journal, &BODY).is_ok()
        && first_bytes(journal.disk_mut()) == Ok([1, 0, 0, 0, 2, 0xaa, 0xbb, 0])
        && journal.fits(4083).is_ok()
        && journal.fits(4084).is_err()
        && append(journal, body).is_ok()
        && journal.fits(0) == Err(full)
        && append(journal, &[]) == Err(AppendError::Full(full))
        && !journal.is_down()
}

fn fills(alloc: Global) -> Result<(), Fail> {
    let body = vec![in alloc; 7; 4083]?;
    let mut journal = new_journal(alloc, 4096)?;
    let is_filled = is_filled(&mut journal, &body);
    let is_kept = has(alloc, journal.into_disk(), 0, &[&BODY, &body])?;
    so(is_filled && is_kept, "a filled journal")
}

#[test]
fn a_journal_is_filled_to_its_last_byte(rt: HostRuntime) -> Result<(), Fail> {
    fills(rt.alloc())
}

// Whether an append passes exactly where the disk lets four calls pass.
fn appends(journal: &mut Journal<Stoppable<MemDisk>>, calls: u32) -> bool {
    journal.disk_mut().arm(calls);
    let answer = append(journal, &BODY);
    answer.is_ok() == (calls == 4) && journal.is_down() == (answer == Err(AppendError::Failed))
}

// Whether the record of an append that stops at a call is kept.
fn is_kept(alloc: Global, calls: u32, pick: u16) -> Result<bool, Fail>
    requires { pick ≤ LAST_PICK }
{
    let (mut journal, _) = reopen(alloc, Stoppable::new(blank(alloc, 4096)?), 0)?;
    let appends = appends(&mut journal, calls);
    let (journal, records) = reopen(alloc, journal.into_disk(), pick)?;
    drop(journal);
    let is_kept = are(&records, &[&BODY]);
    so(appends && is_kept != are(&records, &[]), "an append")?;
    Ok(is_kept)
}

fn stops_at_each_call(alloc: Global) -> Result<(), Fail> {
    for pick in [0, 1, 3, 257] {
        for calls in 0..5 {
            let gate_is_open = calls == 4 || calls >= 2 && (pick == 1 || pick == 3);
            if is_kept(alloc, calls, pick)? != gate_is_open {
                return Err(Fail::Case(pick as usize, calls as usize));
            }
        }
    }
    Ok(())
}

#[test]
fn a_stop_in_an_append(rt: HostRuntime) -> Result<(), Fail> {
    stops_at_each_call(rt.alloc())
}

fn damage_of_cuts(alloc: Global) -> Result<(), Fail> {
    let row = [1, 0, 0, 0, 1, 0xcc, 1, 0, 0, 0, 2, 0xaa, 0xbb, 0];
    for cut in 0..row.len() + 1 {
        let expected = match cut {
            0..=6 => Err(JournalError::Damaged { at: 0 }),
            7..=13 => Err(JournalError::Damaged { at: 6 }),
            _ => Ok(2),
        };
        if count(alloc, cut as u64, &row[..cut], 0)? != expected {
            return Err(Fail::Case(cut, 0));
        }
    }
    Ok(())
}

fn damage_of_lengths(alloc: Global) -> Result<(), Fail> {
    for (length, expected) in [
        ([0, 0, 0, 0], Ok(1)),
        ([0, 0, 0x0f, 0xfa], Ok(1)),
        ([0, 0, 0x0f, 0xfb], Err(JournalError::Damaged { at: 0 })),
        ([0, 0x10, 0, 1], Err(JournalError::Damaged { at: 0 })),
        ([0xff; 4], Err(JournalError::Damaged { at: 0 })),
    ] {
        let [a, b, c, d] = length;
        if count(alloc, 4096, &[1, a, b, c, d], 0)? != expected {
            return Err(Fail::Case(c as usize, d as usize));
        }
    }
    Ok(())
}

#[test]
fn damage_has_an_offset(rt: HostRuntime) -> Result<(), Fail> {
    damage_of_cuts(rt.alloc())?;
    damage_of_lengths(rt.alloc())
}

// Whether a journal takes a body of no bytes, this one, and a short one.
fn takes_bodies(journal: &mut Journal<MemDisk>, body: &[u8]) -> bool {
    append(journal, &[]).is_ok() && append(journal, body).is_ok() && append(journal, &BODY).is_ok()
}

// Whether there is no room for this body any more, but for a short one.
fn is_full(journal: &mut Journal<MemDisk>, body: &[u8]) -> bool {
    append(journal, body)
        == Err(AppendError::Full(Full {
            needed: 2_097_175,
            size: 2_097_152,
        }))
        && append(journal, &BODY).is_ok()
}

fn takes_both_ends(alloc: Global) -> Result<(), Fail> {
    let body = vec![in alloc; 7; BODY_BYTES]?;
    let mut journal = new_journal(alloc, 2_097_152)?;
    let are_taken = takes_bodies(&mut journal, &body);
    let (mut journal, records) = reopen(alloc, journal.into_disk(), 0)?;
    let is_full = is_full(&mut journal, &body);
    let are_kept = has(alloc, journal.into_disk(), 257, &[&[], &body, &BODY, &BODY])?;
    let were_kept = are(&records, &[&[], &body, &BODY]);
    so(are_taken && is_full && are_kept && were_kept, "bodies")
}

#[test]
fn bodies_at_both_ends(rt: HostRuntime) -> Result<(), Fail> {
    takes_both_ends(rt.alloc())
}

// Whether a gate of this value is closed, and opened by the next record.
fn is_closed(alloc: Global, gate: u8) -> Result<bool, Fail> {
    let disk = disk_with(alloc, 4096, &[gate, 0, 0, 0, 2, 0xaa, 0xbb, 1])?;
    let (mut journal, records) = reopen(alloc, disk, 0)?;
    let is_appended = append(&mut journal, &[5]).is_ok()
        && first_bytes(journal.disk_mut()) == Ok([1, 0, 0, 0, 1, 5, 0, 1]);
    drop(journal);
    Ok(is_appended && are(&records, &[]))
}

fn gates_are_closed(alloc: Global) -> Result<(), Fail> {
    for gate in [0, 2, 255] {
        if !is_closed(alloc, gate)? {
            return Err(Fail::Case(gate as usize, 0));
        }
    }
    Ok(())
}

#[test]
fn a_gate_of_another_value_is_closed(rt: HostRuntime) -> Result<(), Fail> {
    gates_are_closed(rt.alloc())
}

fn counts_from_offsets(alloc: Global) -> Result<(), Fail> {
    for (from, expected) in [
        (3, Ok(1)),
        (9, Ok(0)),
        (8, Ok(0)),
        (4, Ok(0)),
        (7, Err(JournalError::Damaged { at: 7 })),
        (10, Err(JournalError::Damaged { at: 10 })),
        (u64::MAX, Err(JournalError::Damaged { at: u64::MAX })),
    ] {
        if count(alloc, 10, &[7, 7, 7, 1, 0, 0, 0, 1, 0xcc, 0], from)? != expected {
            return Err(Fail::Case(from as usize, 0));
        }
    }
    Ok(())
}

#[test]
fn a_journal_from_an_offset(rt: HostRuntime) -> Result<(), Fail> {
    counts_from_offsets(rt.alloc())
}

// Whether a record is taken by the journal's disk, and then one by another, from offset 2 on.
fn exchanges(journal: &mut Journal<MemDisk>, other: &mut MemDisk) -> bool {
    let is_taken = append(journal, &BODY).is_ok();
    journal.exchange(other, 2);
    let goes_on = journal.disk_size() == 16
        && journal.length() == 0
        && append(journal, &[5]).is_ok()
        && journal.length() == 6;
    journal.fall();
    is_taken && goes_on && journal.is_down()
}

fn goes_on_over_another(alloc: Global) -> Result<(), Fail> {
    let mut other = blank(alloc, 16)?;
    let mut journal = new_journal(alloc, 4096)?;
    let exchanges = exchanges(&mut journal, &mut other);
    let mut disk = journal.into_disk();
    let first = first_bytes(&mut other) == Ok([1, 0, 0, 0, 2, 0xaa, 0xbb, 0]);
    let second = first_bytes(&mut disk) == Ok([0, 0, 1, 0, 0, 0, 1, 5]);
    drop(disk);
    so(exchanges && first && second, "another disk")
}

// The records of a disk that is read after a journal stands on it.
fn read_later(alloc: Global) -> Result<List<List<u8>>, Fail> {
    let disk = disk_with(alloc, 16, &[0, 0, 1, 0, 0, 0, 1, 5])?;
    let Ok(mut journal) = Journal::unread(alloc, disk) else {
        return Err(Fail::NoMemory);
    };
    journal.disk_mut().restart(1)?;
    so(journal.is_down(), "an unread journal is down")?;
    Ok(journal.reload(alloc, 2)?)
}

fn reads_later(alloc: Global) -> Result<(), Fail> {
    let records = read_later(alloc)?;
    so(are(&records, &[&[5]]), "a disk that is read later")
}

#[test]
fn a_journal_goes_on_over_another_disk(rt: HostRuntime) -> Result<(), Fail> {
    goes_on_over_another(rt.alloc())?;
    reads_later(rt.alloc())
}
