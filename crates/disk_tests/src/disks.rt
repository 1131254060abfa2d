//! The disks and the shelf.
ghost use Rattle.std.specs.Prelude.{◌≤◌};
ghost use Rattle.disk_model.specs.declared.disk.TheConstants.{LAST_PICK};

use crate::samples::{Fail, blank, so};
use disk_journal::write_through;
use disk_model::{
    Disk, MemDisk, MemShelf, Shelf, ShelfError, Stoppable, TracedDisk, append, zeros,
};
use std::alloc::Global;

// Whether a range is there, and is written over.
fn write<D: Disk>(disk: &mut D, at: u64, bytes: &[u8]) -> bool {
    let size = disk.size();
    at <= size && bytes.len() as u64 <= size - at && disk.write_at(at, bytes).is_ok()
}

// The first five bytes, where they are there and are read.
fn read<D: Disk>(disk: &mut D) -> Option<[u8; 5]> {
    let mut bytes = [9; 5];
    if disk.size() < 5 || disk.read_at(0, &mut bytes).is_err() {
        return None;
    }
    Some(bytes)
}

fn restart<D: Disk>(disk: &mut D, pick: u16) -> bool {
    pick <= 257 && disk.restart(pick).is_ok()
}

// Writes 5 and then 6, each with a sync, and says how many of the four calls answered Ok.
fn calls_that_pass<D: Disk>(disk: &mut D) -> u32 {
    let first = write(disk, 0, &[5]);
    let second = disk.sync().is_ok();
    let third = write(disk, 1, &[6]);
    let fourth = disk.sync().is_ok();
    let mut passed = 0u32;
    for ok in [first, second, third, fourth] {
        if ok {
            passed = passed.saturating_add(1);
        }
    }
    passed
}

// Whether a disk that is armed so lets so many calls pass, reads until it is stopped, and comes back with these bytes.
fn stops<D: Disk>(disk: &mut Stoppable<D>, calls: u32, pick: u16, left: [u8; 5]) -> bool {
    disk.arm(calls);
    let reads_before = read(disk).is_some() && !disk.is_stopped();
    let passes = calls_that_pass(disk) == calls;
    let reads = read(disk).is_some() == (calls == 4);
    let is_stopped = disk.is_stopped() == (calls < 4);
    let is_back = restart(disk, pick) && !disk.is_stopped();
    reads_before && passes && reads && is_stopped && is_back && read(disk) == Some(left)
}

fn is_left(alloc: Global, calls: u32, pick: u16, left: [u8; 5]) -> Result<bool, Fail> {
    let mut disk = Stoppable::new(blank(alloc, 16)?);
    Ok(stops(&mut disk, calls, pick, left))
}

fn stops_at_each_call(alloc: Global) -> Result<(), Fail> {
    for (pick, pending) in [(0, [0, 0]), (1, [5, 6]), (3, [1, 1]), (257, [255, 255])] {
        for calls in 0..5 {
            let [first, second] = pending;
            let left = match calls {
                0 | 1 => [first, 0, 0, 0, 0],
                2 | 3 => [5, second, 0, 0, 0],
                _ => [5, 6, 0, 0, 0],
            };
            if !is_left(alloc, calls, pick, left)? {
                return Err(Fail::Case(pick as usize, calls as usize));
            }
        }
    }
    Ok(())
}

#[test]
fn a_stop_at_each_call(rt: HostRuntime) -> Result<(), Fail> {
    stops_at_each_call(rt.alloc())
}

// Whether it goes on, armed again.
fn goes_on(disk: &mut Stoppable<MemDisk>) -> bool {
    disk.arm(0);
    let stops = disk.sync().is_err() && disk.sync().is_err() && disk.is_stopped();
    disk.arm(1);
    stops && !disk.is_stopped() && write(disk, 0, &[8]) && disk.sync().is_err()
}

fn armed_again(alloc: Global) -> Result<(), Fail> {
    let mut disk = Stoppable::new(blank(alloc, 16)?);
    let goes_on = goes_on(&mut disk);
    let mut inner = disk.into_inner();
    let is_written = read(&mut inner) == Some([8, 0, 0, 0, 0]);
    drop(inner);
    so(goes_on && is_written, "armed again")
}

#[test]
fn an_armed_disk_goes_on_until_it_stops(rt: HostRuntime) -> Result<(), Fail> {
    armed_again(rt.alloc())
}

fn traced(alloc: Global, calls: u32, bytes: u64) -> Result<TracedDisk, Fail> {
    Ok(TracedDisk::new(alloc, 16, calls, bytes)?)
}

// How many calls pass of a disk with room for so many calls and bytes.
fn passed(alloc: Global, calls: u32, bytes: u64) -> Result<u32, Fail> {
    let mut disk = traced(alloc, calls, bytes)?;
    Ok(calls_that_pass(&mut disk))
}

// Whether a disk with room for four calls and two bytes takes these four, and no more.
fn is_filled(disk: &mut TracedDisk) -> bool {
    disk.size() == 16
        && write_through(disk, 0, &[7]).is_ok()
        && write(disk, 1, &[8])
        && restart(disk, 3)
        && read(disk) == Some([7, 1, 0, 0, 0])
        && !disk.has_room(0)
        && !restart(disk, 0)
}

fn traces(alloc: Global) -> Result<(), Fail> {
    for (calls, bytes, count) in [(0, 9, 0), (3, 9, 3), (4, 2, 4), (4, 1, 3), (9, 0, 2)] {
        if passed(alloc, calls, bytes)? != count {
            return Err(Fail::Case(calls as usize, bytes as usize));
        }
    }
    let mut disk = traced(alloc, 4, 2)?;
    let is_filled = is_filled(&mut disk);
    drop(disk);
    so(is_filled, "a filled disk")
}

#[test]
fn a_traced_disk_ends_with_its_room(rt: HostRuntime) -> Result<(), Fail> {
    traces(rt.alloc())
}

// A disk's size, two writes, each at an offset, and a pick; whether they fit, and the first bytes before and after a crash.
type Row = (
    u64,
    (u64, &'static [u8]),
    (u64, &'static [u8]),
    u16,
    (bool, Option<[u8; 5]>, Option<[u8; 5]>),
);

// Whether a disk has these bytes then.
fn has<D: Disk>(disk: &mut D, row: &Row) -> bool {
    let (_, first, second, pick, (fit, before, after)) = *row;
    let fits = write(disk, first.0, first.1) && write(disk, second.0, second.1);
    let is_before = read(disk) == before;
    let is_back = restart(disk, pick);
    (fits && is_back) == fit && is_before && read(disk) == after
}

fn is_written(alloc: Global, row: &Row) -> Result<bool, Fail> {
    let mut disk = blank(alloc, row.0)?;
    Ok(has(&mut disk, row))
}

fn writes_at_both_ends(alloc: Global) -> Result<(), Fail> {
    let rows: [Row; 11] = [
        (
            5,
            (0, &[1, 2, 3, 4, 5]),
            (5, &[]),
            0,
            (true, Some([1, 2, 3, 4, 5]), Some([0; 5])),
        ),
        (
            5,
            (0, &[1, 2, 3, 4, 5]),
            (4, &[6]),
            1,
            (true, Some([1, 2, 3, 4, 6]), Some([1, 2, 3, 4, 6])),
        ),
        (
            5,
            (0, &[1, 2, 3, 4, 5]),
            (0, &[6]),
            1,
            (true, Some([6, 2, 3, 4, 5]), Some([6, 2, 3, 4, 5])),
        ),
        (
            5,
            (3, &[1]),
            (0, &[1]),
            11,
            (true, Some([1, 0, 0, 1, 0]), Some([9, 0, 0, 9, 0])),
        ),
        (
            5,
            (3, &[1]),
            (2, &[1]),
            11,
            (true, Some([0, 0, 1, 1, 0]), Some([0, 0, 9, 9, 0])),
        ),
        (
            5,
            (3, &[1]),
            (3, &[2]),
            11,
            (true, Some([0, 0, 0, 2, 0]), Some([0, 0, 0, 9, 0])),
        ),
        (
            5,
            (3, &[1]),
            (4, &[1]),
            11,
            (true, Some([0, 0, 0, 1, 1]), Some([0, 0, 0, 9, 9])),
        ),
        // What was never written is zero, behind what was and before it.
        (
            4_194_304,
            (2, &[7]),
            (4_194_303, &[8]),
            1,
            (true, Some([0, 0, 7, 0, 0]), Some([0, 0, 7, 0, 0])),
        ),
        (
            4_194_304,
            (2_000_000, &[7]),
            (0, &[]),
            3,
            (true, Some([0; 5]), Some([0; 5])),
        ),
        (
            5,
            (3, &[1]),
            (5, &[1]),
            0,
            (false, Some([0, 0, 0, 1, 0]), Some([0; 5])),
        ),
        (0, (0, &[]), (0, &[]), 257, (true, None, None)),
    ];
    for (k, row) in rows.iter().enumerate() {
        if !is_written(alloc, row)? {
            return Err(Fail::Case(k, 0));
        }
    }
    Ok(())
}

#[test]
fn ranges_at_both_ends(rt: HostRuntime) -> Result<(), Fail> {
    writes_at_both_ends(rt.alloc())
}

// The bytes of a disk of five on a shelf. One is then written, with no sync, and the disk is given back.
fn through(alloc: Global, shelf: &mut MemShelf, name: &str) -> Result<Option<[u8; 5]>, Fail> {
    let mut disk = shelf.take(alloc, name, 5)?;
    let bytes = read(&mut disk);
    let is_written = write(&mut disk, 1, &[7]);
    shelf.give(name, disk);
    so(is_written, "a byte on the disk")?;
    Ok(bytes)
}

// Whether a disk of six bytes is refused, since the one that is there has another size.
fn is_refused(alloc: Global, shelf: &mut MemShelf, name: &str) -> bool {
    match shelf.take(alloc, name, 6) {
        Ok(disk) => {
            shelf.give(name, disk);
            false
        }
        Err(error) => error == ShelfError::Failed,
    }
}

// A disk that is given back is there again under its name alone, and with its size alone.
fn keeps_disks(alloc: Global, shelf: &mut MemShelf) -> Result<(), Fail> {
    let new = Some([0; 5]);
    let again = Some([0, 7, 0, 0, 0]);
    so(through(alloc, shelf, "tc")? == new, "a new disk")?;
    so(through(alloc, shelf, "A")? == new, "another disk")?;
    so(is_refused(alloc, shelf, "tc"), "another size")?;
    so(through(alloc, shelf, "tc")? == again, "a disk again")
}

#[test]
fn a_shelf_keeps_its_disks(rt: HostRuntime) -> Result<(), Fail> {
    let mut shelf = MemShelf::new(rt.alloc());
    keeps_disks(rt.alloc(), &mut shelf)
}

fn appends(alloc: Global) -> Result<(), Fail> {
    let mut row = zeros(alloc, 2)?;
    let are_zeros = row.as_slice() == [0, 0].as_slice();
    row.clear();
    append(&mut row, &[3, 4]);
    let is_appended = row.as_slice() == [3, 4].as_slice();
    drop(row);
    so(are_zeros && is_appended, "a row of bytes")
}

#[test]
fn a_row_of_bytes(rt: HostRuntime) -> Result<(), Fail> {
    appends(rt.alloc())
}
