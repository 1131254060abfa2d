//! A resource with the table acc and the row (1, 1000) at its opening, on disks that earlier programs left with a branch, and on
//! disks with a record that may not come.
use crate::changes::takes;
use crate::samples::{Fail, IMAGES, IMAGES_BACK, LEG, OLD_IMAGES, accounts, leg, so};
use crate::stores::{FIRST_BOOT, Resource, amount, disks, opened, opening, read};
use at_branch::Rolled;
use local_txn::LocalTxns;
use seata_types::Xid;
use std::alloc::Global;
use tcc_fence::FenceStatus;

/// The gate and the length of the record of a local commit, and its tag.
const COMMITTED: [u8; 6] = [1, 0, 0, 0, 82, 18];

const OLD_COMMITTED: [u8; 6] = [1, 0, 0, 0, 81, 2];

/// The same of a Try.
const OLD_TRIED: [u8; 6] = [1, 0, 0, 0, 79, 6];

/// The same of a record that undoes a local commit, and of a marker.
const UNDONE: [u8; 6] = [1, 0, 0, 0, 17, 3];

const MARKED: [u8; 6] = [1, 0, 0, 0, 17, 4];

const CALL: [u8; 2] = [0, 1];

/// No reads, and the closed gate behind the record.
const END: [u8; 3] = [0, 0, 0];

/// What a resource tells of an AT branch: its boot, how many records it keeps, what row 1 has beside its key, the log status of
/// branch 1 of transaction 1, and the branch of call 1.
type Told = (u32, u32, Option<i64>, Option<u8>, Option<u64>);

fn tell(alloc: Global, store: &Resource) -> Result<Told, Fail> {
    let status = match store.undo_log().find(leg(1, 1)) {
        Some(entry) => Some(entry.log_status()),
        None => None,
    };
    let branch = match store.undo_log().find_call(Xid(1), 1) {
        Some(record) => Some(record.leg.branch.0),
        None => None,
    };
    let amount = amount(alloc, store)?;
    Ok((store.boot(), store.records(), amount, status, branch))
}

fn word_of(rolled: &Rolled) -> &'static str {
    match rolled {
        Rolled::Undone => "undone",
        Rolled::Marked => "marked",
        Rolled::Again => "again",
        Rolled::Busy { .. } => "busy",
        Rolled::Dirty { .. } => "dirty",
    }
}

/// What the rollback of branch 1 comes to.
fn roll_back(alloc: Global, store: &mut Resource, txns: &LocalTxns) -> &'static str {
    if store.is_down() {
        return "down";
    }
    match at_branch::rollback(alloc, store, txns, leg(1, 1)) {
        Ok(rolled) => word_of(&rolled),
        Err(_) => "failed",
    }
}

/// Whether the rollback of a local commit that earlier programs left undoes it, then marks it, and then does nothing.
fn undoes(alloc: Global, store: &mut Resource, txns: &LocalTxns) -> Result<(), Fail> {
    let before = tell(alloc, store)? == (2, 3, Some(900), Some(0), Some(1));
    so(before, "a local commit")?;
    so(roll_back(alloc, store, txns) == "undone", "a rollback")?;
    so(roll_back(alloc, store, txns) == "marked", "a second one")?;
    so(roll_back(alloc, store, txns) == "again", "a third one")?;
    let after = tell(alloc, store)? == (2, 5, Some(1000), Some(1), None);
    so(after, "a local commit that was undone")
}

fn is_undone(alloc: Global) -> Result<(), Fail> {
    let parts: [&[u8]; 6] = [&FIRST_BOOT, &OLD_COMMITTED, &LEG, &CALL, &OLD_IMAGES, &END];
    let mut store = opened(alloc, &parts)?;
    let txns = LocalTxns::new(alloc, 1);
    let answer = undoes(alloc, &mut store, &txns);
    drop(store);
    drop(txns);
    answer
}

#[test]
fn a_local_commit_of_earlier_programs(rt: HostRuntime) -> Result<(), Fail> {
    is_undone(rt.alloc())
}

/// Whether a Cancel of branch 1 may come, which is then kept.
fn takes_cancel(alloc: Global, store: &mut Resource) -> Result<bool, Fail> {
    takes(alloc, store, &[&[24], &LEG, &IMAGES_BACK])
}

/// Whether row 1 has this beside its key, and branch 1 has this fence.
fn is_fenced(
    alloc: Global,
    store: &Resource,
    wanted: i64,
    status: FenceStatus,
) -> Result<bool, Fail> {
    Ok(amount(alloc, store)? == Some(wanted) && store.fence().status(leg(1, 1)) == Some(status))
}

/// Whether the Cancel of a Try that earlier programs left runs, once.
fn cancels(alloc: Global, store: &mut Resource) -> Result<(), Fail> {
    so(is_fenced(alloc, store, 900, FenceStatus::Tried)?, "a Try")?;
    so(takes_cancel(alloc, store)?, "its Cancel")?;
    let after = is_fenced(alloc, store, 1000, FenceStatus::Rollbacked)?;
    so(after, "a Try that was cancelled")?;
    so(!takes_cancel(alloc, store)?, "a second Cancel")
}

fn is_tried(alloc: Global) -> Result<(), Fail> {
    let parts: [&[u8]; 6] = [&FIRST_BOOT, &OLD_TRIED, &LEG, &CALL, &OLD_IMAGES, &[0]];
    let mut store = opened(alloc, &parts)?;
    let answer = cancels(alloc, &mut store);
    drop(store);
    answer
}

#[test]
fn a_try_of_earlier_programs(rt: HostRuntime) -> Result<(), Fail> {
    is_tried(rt.alloc())
}

/// What a disk has, and whether its records may come one after the other.
const LEFT_RECORDS: [([&[u8]; 8], bool); 4] = [
    ([&FIRST_BOOT, &MARKED, &LEG, &[0], &[], &[], &[], &[]], true),
    (
        [&FIRST_BOOT, &UNDONE, &LEG, &[0], &[], &[], &[], &[]],
        false,
    ),
    (
        [
            &FIRST_BOOT,
            &[1, 0, 0, 0, 5, 1, 0, 0, 0, 1],
            &[0],
            &[],
            &[],
            &[],
            &[],
            &[],
        ],
        false,
    ),
    (
        [
            &FIRST_BOOT,
            &MARKED,
            &LEG,
            &COMMITTED,
            &LEG,
            &CALL,
            &IMAGES,
            &END,
        ],
        false,
    ),
];

fn is_opened(alloc: Global, parts: &[&[u8]]) -> Result<bool, Fail> {
    match opened(alloc, parts) {
        Ok(store) => {
            drop(store);
            Ok(true)
        }
        Err(Fail::Damaged) => Ok(false),
        Err(fail) => Err(fail),
    }
}

fn are_opened(alloc: Global) -> Result<(), Fail> {
    for (k, (parts, is_whole)) in LEFT_RECORDS.iter().enumerate() {
        if is_opened(alloc, parts)? != *is_whole {
            return Err(Fail::Case(k));
        }
    }
    Ok(())
}

/// Whether disks with the record of a first boot are read as it, and no boot is added.
fn is_read(alloc: Global) -> Result<(), Fail> {
    let schema = accounts(alloc)?;
    let opening = opening(alloc)?;
    let disks = disks(alloc, &[&FIRST_BOOT])?;
    let store = read(alloc, disks, schema, opening)?;
    let is_read = store.boot() == 1 && store.records() == 1;
    drop(store);
    so(is_read, "reading adds no boot")
}

#[test]
fn disks_are_read_without_a_boot(rt: HostRuntime) -> Result<(), Fail> {
    is_read(rt.alloc())
}

#[test]
fn records_that_may_not_come_are_damage(rt: HostRuntime) -> Result<(), Fail> {
    are_opened(rt.alloc())
}
