//! Two disks with checkpoints.
ghost use Rattle.std.specs.Prelude.{◌≤◌};
ghost use Rattle.disk_model.specs.declared.disk.TheConstants.{LAST_PICK};

use crate::samples::{Fail, are, disk_with, so};
use disk_journal::AppendError;
use disk_model::{Disk, Failed, MemDisk, Stoppable};
use journal_checkpoint::{Found, Twin, TwinError};
use seata_types::Full;
use seata_types::limits::BODY_BYTES;
use std::alloc::Global;

type Stopped = Stoppable<MemDisk>;

// Two disks come back after a crash, and are opened.
fn reopen(
    alloc: Global,
    mut first: Stopped,
    mut second: Stopped,
) -> Result<(Twin<Stopped>, Found), TwinError> {
    if first.restart(0).is_err() || second.restart(0).is_err() {
        return Err(TwinError::Failed);
    }
    match Twin::open(alloc, first, second) {
        Ok(opened) => Ok(opened),
        Err((error, _, _)) => Err(error),
    }
}

// Two disks of so many bytes, each of which begins with these.
fn disks(alloc: Global, size: u64, one: &[u8], two: &[u8]) -> Result<(Stopped, Stopped), Fail> {
    let first = disk_with(alloc, size, one)?;
    let second = disk_with(alloc, size, two)?;
    Ok((Stoppable::new(first), Stoppable::new(second)))
}

fn open_blank(alloc: Global, size: u64) -> Result<Twin<Stopped>, Fail> {
    let (first, second) = disks(alloc, size, &[], &[])?;
    let (twin, _) = reopen(alloc, first, second)?;
    Ok(twin)
}

fn append(twin: &mut Twin<Stopped>, body: &[u8]) -> Result<(), AppendError> {
    if body.len() > BODY_BYTES || twin.is_down() {
        return Err(AppendError::Failed);
    }
    twin.append(body)
}

fn checkpoint(twin: &mut Twin<Stopped>, snapshot: &[u8]) -> Result<bool, Failed> {
    if twin.is_down() {
        return Err(Failed);
    }
    twin.checkpoint(snapshot)
}

fn first_bytes(disk: &mut Stopped) -> Result<[u8; 20], Failed> {
    let mut bytes = [9; 20];
    if disk.size() >= 20 {
        disk.read_at(0, &mut bytes)?;
    }
    Ok(bytes)
}

// The two disks hold this snapshot and these records.
fn holds(found: &Found, snapshot: &[u8], records: &[&[u8]]) -> bool {
    match &found.snapshot {
        Some(found) if found.as_slice() == snapshot => {}
        _ => return false,
    }
    are(&found.records, records)
}

// Two checkpoints, a record after each, and a third checkpoint that stops at a call.
fn stops_third(twin: &mut Twin<Stopped>, calls: u32) -> bool {
    let made = checkpoint(twin, &[10]) == Ok(true)
        && append(twin, &[1]).is_ok()
        && checkpoint(twin, &[20, 20]) == Ok(true)
        && append(twin, &[2]).is_ok();
    twin.other_mut().arm(calls);
    made && checkpoint(twin, &[30, 30, 30]).is_err() && twin.is_down()
}

// Whether the third snapshot stands after that and a restart; else the second stands, with its record.
fn has_third(alloc: Global, twin: &mut Twin<Stopped>, calls: u32, pick: u16) -> Result<bool, Fail>
    requires { pick ≤ LAST_PICK }
{
    so(stops_third(twin, calls), "a stop in a checkpoint")?;
    let found = twin.restart(alloc, pick)?;
    let third = holds(&found, &[30, 30, 30], &[]);
    let second = holds(&found, &[20, 20], &[&[2]]);
    drop(found);
    so(second != third, "a snapshot after a stop")?;
    Ok(third)
}

fn leaves_third(alloc: Global, calls: u32, pick: u16) -> Result<bool, Fail>
    requires { pick ≤ LAST_PICK }
{
    let mut twin = open_blank(alloc, 200)?;
    let answer = has_third(alloc, &mut twin, calls, pick);
    drop(twin);
    answer
}

fn stops_at_each_call(alloc: Global) -> Result<(), Fail> {
    for pick in [0, 1, 3] {
        for calls in 0..8 {
            let third = calls >= 6 && pick > 0;
            if leaves_third(alloc, calls, pick)? != third {
                return Err(Fail::Case(pick as usize, calls as usize));
            }
        }
    }
    Ok(())
}

#[test]
fn a_stop_in_a_checkpoint(rt: HostRuntime) -> Result<(), Fail> {
    stops_at_each_call(rt.alloc())
}

// A checkpoint with no call left of the active disk, and so many of the other. Whether it is made, and no more calls of
// the other disk pass after it.
fn is_exact(twin: &mut Twin<Stopped>, calls: u32) -> bool {
    twin.active_mut().arm(0);
    twin.other_mut().arm(calls);
    checkpoint(twin, &[12]) == Ok(true)
        && append(twin, &[1]) == Err(AppendError::Failed)
        && twin.active_mut().is_stopped()
        && !twin.other_mut().is_stopped()
}

// The same, and whether the snapshot is read then. It is the first one, or the third.
fn is_made(alloc: Global, twin: &mut Twin<Stopped>, first: bool, calls: u32) -> Result<bool, Fail> {
    let made = first || checkpoint(twin, &[10]) == Ok(true) && checkpoint(twin, &[11]) == Ok(true);
    let is_exact = made && is_exact(twin, calls);
    let found = twin.restart(alloc, 0)?;
    Ok(is_exact && holds(&found, &[12], &[]))
}

fn makes_calls(alloc: Global, first: bool, calls: u32) -> Result<bool, Fail> {
    let mut twin = open_blank(alloc, 200)?;
    let answer = is_made(alloc, &mut twin, first, calls);
    drop(twin);
    answer
}

fn makes_calls_of_the_other(alloc: Global) -> Result<(), Fail> {
    for (first, calls, expected) in [
        (true, 6, true),
        (true, 5, false),
        (false, 8, true),
        (false, 7, false),
    ] {
        if makes_calls(alloc, first, calls)? != expected {
            return Err(Fail::Case(first as usize, calls as usize));
        }
    }
    Ok(())
}

#[test]
fn a_checkpoint_makes_calls_of_the_other_disk_alone(rt: HostRuntime) -> Result<(), Fail> {
    makes_calls_of_the_other(rt.alloc())
}

// Whether a checkpoint is due after a record with this body, and what becomes of two snapshots, of which the second fills
// the disk.
fn is_due_so(twin: &mut Twin<Stopped>, body: &[u8], due: bool) -> bool {
    let full = Full {
        needed: 105,
        size: 100,
    };
    append(twin, body).is_ok()
        && twin.due() == due
        && checkpoint(twin, &[7; 91]) == Ok(false)
        && twin.due() == due
        && !twin.is_second()
        && checkpoint(twin, &[7; 90]) == Ok(true)
        && !twin.due()
        && twin.is_second()
        && twin.fits(0) == Err(full)
        && append(twin, &[]) == Err(AppendError::Full(full))
        && !twin.is_down()
}

fn is_due_after(alloc: Global, body: &[u8], due: bool) -> Result<bool, Fail> {
    let mut twin = open_blank(alloc, 100)?;
    let is_due_so = is_due_so(&mut twin, body, due);
    twin.fall();
    Ok(is_due_so && twin.is_down())
}

fn is_due_past_half(alloc: Global) -> Result<(), Fail> {
    for (body, due) in [(44, false), (45, false), (46, true)] {
        if !is_due_after(alloc, &[7; 46][..body], due)? {
            return Err(Fail::Case(body, 0));
        }
    }
    Ok(())
}

#[test]
fn a_checkpoint_is_due_past_half(rt: HostRuntime) -> Result<(), Fail> {
    is_due_past_half(rt.alloc())
}

// The length of the snapshot of two disks of so many bytes, which begin with these.
fn snapshot_length(
    alloc: Global,
    size: u64,
    one: &[u8],
    two: &[u8],
) -> Result<Result<Option<usize>, TwinError>, Fail> {
    let (first, second) = disks(alloc, size, one, two)?;
    match reopen(alloc, first, second) {
        Ok((twin, found)) => {
            drop(twin);
            Ok(Ok(length_in(&found)))
        }
        Err(error) => Ok(Err(error)),
    }
}

fn length_in(found: &Found) -> Option<usize> {
    match &found.snapshot {
        Some(snapshot) => Some(snapshot.as_slice().len()),
        None => None,
    }
}

fn damaged(second: bool, at: u64) -> Result<Option<usize>, TwinError> {
    Err(TwinError::Damaged { second, at })
}

fn heads_are_read(alloc: Global) -> Result<(), Fail> {
    let none = [0; 9];
    let shut = [2, 0, 0, 0, 0, 0xff, 0, 0, 0];
    let old = [1, 0, 0, 0, 1, 0, 0, 0, 190];
    let new = [1, 0, 0, 0, 2, 0, 0, 0, 0];
    let zero = [1, 0, 0, 0, 0, 0, 0, 0, 0];
    let long = [1, 0, 0, 0, 1, 0, 0, 0, 191];
    let cases = [
        (none, none, Ok(None)),
        (shut, none, Ok(None)),
        (none, old, Ok(Some(190))),
        (old, shut, Ok(Some(190))),
        (old, new, Ok(Some(0))),
        (new, old, Ok(Some(0))),
        (zero, none, damaged(false, 0)),
        (long, none, damaged(false, 0)),
        (zero, long, damaged(false, 0)),
        (none, zero, damaged(true, 0)),
        (new, long, damaged(true, 0)),
        (old, old, damaged(true, 0)),
    ];
    for (k, (one, two, expected)) in cases.iter().enumerate() {
        if snapshot_length(alloc, 200, one, two)? != *expected {
            return Err(Fail::Case(k, 0));
        }
    }
    Ok(())
}

fn records_are_damaged(alloc: Global) -> Result<(), Fail> {
    for (bytes, at) in [
        ([0, 0, 0, 0, 0, 0, 0, 0, 0, 1, 0, 0, 0, 0, 1, 0], 14),
        ([1, 0, 0, 0, 1, 0, 0, 0, 1, 7, 1, 0xff, 0, 0, 0, 0], 10),
    ] {
        if snapshot_length(alloc, 16, &bytes, &[])? != damaged(false, at) {
            return Err(Fail::Case(at as usize, 0));
        }
    }
    Ok(())
}

#[test]
fn damage_has_its_disk_and_offset(rt: HostRuntime) -> Result<(), Fail> {
    heads_are_read(rt.alloc())?;
    records_are_damaged(rt.alloc())
}

// Whether the active disk begins with these bytes.
fn begins_with(twin: &mut Twin<Stopped>, bytes: [u8; 20]) -> bool {
    first_bytes(twin.active_mut()) == Ok(bytes)
}

// Whether the active disk has these bytes after a record, and after a snapshot with another.
fn is_written(twin: &mut Twin<Stopped>) -> bool {
    let first = [0, 0, 0, 0, 0, 0, 0, 0, 0, 1, 0, 0, 0, 5, 1, 0, 0, 0, 1, 0];
    let second = [
        1, 0, 0, 0, 1, 0, 0, 0, 2, 0xaa, 0xbb, 1, 0, 0, 0, 1, 5, 0, 0, 0,
    ];
    append(twin, &[1, 0, 0, 0, 1]).is_ok()
        && begins_with(twin, first)
        && checkpoint(twin, &[0xaa, 0xbb]) == Ok(true)
        && append(twin, &[5]).is_ok()
        && begins_with(twin, second)
}

fn writes(alloc: Global) -> Result<(), Fail> {
    let mut twin = open_blank(alloc, 4096)?;
    let is_written = is_written(&mut twin);
    drop(twin);
    so(is_written, "the bytes of two disks")
}

#[test]
fn the_bytes_of_two_disks(rt: HostRuntime) -> Result<(), Fail> {
    writes(rt.alloc())
}
