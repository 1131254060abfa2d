//! Calls of branches and of local transactions, and those of the store itself, each on a store that was just opened: whether it does
//! what it is for, and what the store knows then.
ghost use Rattle.std.specs.Prelude.{◌≡◌, false, true, IfOk};
ghost use Rattle.record_places.specs.Within.{AreTablesWithin, IsStmtWithin};
ghost use Rattle.resource_store.specs.Keeping.{known, is_down};
ghost use Rattle.branch_tests.specs.Deletions.{IsDeletion, AreDeletions};

use crate::changes::takes;
use crate::samples::{Fail, IMAGES, IMAGES_BACK, LEG, Parts};
use crate::stores::{FIRST_BOOT, Resource, amount, opened};
use at_branch::{Committed, Granted};
use local_txn::LocalTxns;
use seata_types::{Action, BranchId, Leg, List, Shared, Stmt, Xid};
use sql_reader::read_stmt;
use std::alloc::Global;
use tcc_branch::{TccAnswer, TryAnswer};
use tcc_fence::FenceStatus;

/// Branch 1 of transaction 1.
const BRANCH: Leg = Leg {
    xid: Xid(1),
    branch: BranchId(1),
};

// ---- statements that write no value, so that what they do has a place in each record

fn writes_nothing(stmt: &Stmt) -> bool
    ensures { result ≡ true → IsStmtWithin stmt.now }
{
    match stmt {
        Stmt::Delete { .. } | Stmt::Select { .. } => true,
        Stmt::Insert { .. } | Stmt::Update { .. } => false,
    }
}

fn alone(alloc: Global, stmt: Stmt) -> Result<List<Stmt>, Fail>
    ensures { IfOk result IsDeletion }
{
    if !writes_nothing(&stmt) {
        drop(stmt);
        return Err(Fail::Failed);
    }
    Ok(List::of(Vec::from_array(alloc, [stmt])?))
}

/// The deletion of row 1.
fn deletion(alloc: Global) -> Result<List<Stmt>, Fail>
    ensures { IfOk result IsDeletion }
{
    match read_stmt(alloc, "DELETE FROM acc WHERE id = 1") {
        Ok(stmt) => alone(alloc, stmt),
        Err(_) => Err(Fail::Failed),
    }
}

fn shared_deletion(alloc: Global) -> Result<Shared<List<Stmt>>, Fail>
    ensures { IfOk result IsDeletion }
{
    let stmts = deletion(alloc)?;
    Ok(Shared::new(alloc, stmts)?)
}

/// A Try, a Confirm and a Cancel that each delete row 1.
fn deletions(alloc: Global) -> Result<Shared<Action>, Fail>
    ensures { IfOk result AreDeletions }
{
    let tries = deletion(alloc)?;
    let confirms = deletion(alloc)?;
    let cancels = deletion(alloc)?;
    let action = Action {
        tries,
        confirms,
        cancels,
    };
    Ok(Shared::new(alloc, action)?)
}

// ---- the calls

/// A call.
#[derive(Clone, Copy)]
enum Call {
    AtGrant,
    AtCommit,
    TccGrant,
    Confirm,
    Cancel,
    LocalCommit,
    Outside,
    /// The store's own call for the change that a record is.
    Change,
}

/// Whether the local transaction of an AT call commits at its grant.
fn is_granted(alloc: Global, store: &mut Resource, txns: &mut LocalTxns) -> Result<bool, Fail>
    requires up { is_down store.old ≡ false }
    requires within { AreTablesWithin (known store.old).tables }
    requires tickets { txns.old.opened ≡ 0 }
{
    let stmts = shared_deletion(alloc)?;
    let Ok(ticket) = at_branch::phase_one(alloc, store, txns, Xid(1), 1, 1, &stmts) else {
        return Err(Fail::Failed);
    };
    match at_branch::on_grant(alloc, store, txns, ticket, BRANCH) {
        Ok(granted) => Ok(granted == Granted::Committed),
        Err(_) => Err(Fail::Failed),
    }
}

/// Whether the commit of an AT branch takes its undo record out.
fn is_cleared(alloc: Global, store: &mut Resource) -> Result<bool, Fail>
    requires { is_down store.old ≡ false }
{
    match at_branch::commit(alloc, store, BRANCH) {
        Ok(committed) => Ok(committed == Committed::Cleared),
        Err(_) => Err(Fail::Failed),
    }
}

fn has_run(answer: &TryAnswer) -> bool {
    matches!(answer, TryAnswer::Tried)
}

/// Whether the Try of a TCC call runs at its grant.
fn is_tried(alloc: Global, store: &mut Resource, txns: &mut LocalTxns) -> Result<bool, Fail>
    requires up { is_down store.old ≡ false }
    requires within { AreTablesWithin (known store.old).tables }
    requires tickets { txns.old.opened ≡ 0 }
{
    let action = deletions(alloc)?;
    let ticket = tcc_branch::prepare(alloc, txns, Xid(1), 1, 1, &action)?;
    match tcc_branch::on_grant(alloc, store, txns, ticket, BRANCH) {
        Ok(answer) => Ok(has_run(&answer)),
        Err(_) => Err(Fail::Failed),
    }
}

fn has_ended(answer: &TccAnswer) -> bool {
    matches!(answer, TccAnswer::Ran)
}

/// Whether the Confirm of a TCC branch runs.
fn is_confirmed(alloc: Global, store: &mut Resource) -> Result<bool, Fail>
    requires up { is_down store.old ≡ false }
    requires within { AreTablesWithin (known store.old).tables }
{
    let action = deletions(alloc)?;
    match tcc_branch::confirm(alloc, store, BRANCH, action.get()) {
        Ok(answer) => Ok(has_ended(&answer)),
        Err(_) => Err(Fail::Failed),
    }
}

/// Whether the Cancel of a TCC branch runs.
fn is_cancelled(alloc: Global, store: &mut Resource) -> Result<bool, Fail>
    requires up { is_down store.old ≡ false }
    requires within { AreTablesWithin (known store.old).tables }
{
    let action = deletions(alloc)?;
    match tcc_branch::cancel(alloc, store, BRANCH, action.get()) {
        Ok(answer) => Ok(has_ended(&answer)),
        Err(_) => Err(Fail::Failed),
    }
}

/// Whether local transaction 1 commits at the answer that no row of it is held.
fn is_freed(alloc: Global, store: &mut Resource, txns: &mut LocalTxns) -> Result<bool, Fail>
    requires up { is_down store.old ≡ false }
    requires within { AreTablesWithin (known store.old).tables }
    requires tickets { txns.old.opened ≡ 0 }
{
    let stmts = shared_deletion(alloc)?;
    let Ok(ticket) = local_guard::open_local(alloc, store, txns, 1, &stmts) else {
        return Err(Fail::Failed);
    };
    match local_guard::on_free(alloc, store, txns, ticket) {
        Ok(number) => Ok(number == Some(1)),
        Err(_) => Err(Fail::Failed),
    }
}

/// Whether local transaction 1 writes without asking.
fn is_written(alloc: Global, store: &mut Resource, txns: &LocalTxns) -> Result<bool, Fail>
    requires up { is_down store.old ≡ false }
    requires within { AreTablesWithin (known store.old).tables }
{
    let stmts = deletion(alloc)?;
    match local_guard::outside(alloc, store, txns, 1, stmts.as_slice()) {
        Ok(()) => Ok(true),
        Err(_) => Err(Fail::Failed),
    }
}

/// Whether a call does what it is for; where it is of a record, of that of these parts.
fn does(alloc: Global, store: &mut Resource, call: Call, parts: &[&[u8]]) -> Result<bool, Fail>
    requires up { is_down store.old ≡ false }
    requires within { AreTablesWithin (known store.old).tables }
{
    let mut txns = LocalTxns::new(alloc, 2);
    match call {
        Call::AtGrant => is_granted(alloc, store, &mut txns),
        Call::AtCommit => is_cleared(alloc, store),
        Call::TccGrant => is_tried(alloc, store, &mut txns),
        Call::Confirm => is_confirmed(alloc, store),
        Call::Cancel => is_cancelled(alloc, store),
        Call::LocalCommit => is_freed(alloc, store, &mut txns),
        Call::Outside => is_written(alloc, store, &txns),
        Call::Change => takes(alloc, store, parts),
    }
}

// ---- what a store knows after each

/// How many records a store keeps, what row 1 has beside its key, and the log status and the fence of branch 1 of transaction 1.
type Told = (u32, Option<i64>, Option<u8>, Option<FenceStatus>);

fn tell(alloc: Global, store: &Resource) -> Result<Told, Fail> {
    let amount = amount(alloc, store)?;
    let status = match store.undo_log().find(BRANCH) {
        Some(entry) => Some(entry.log_status()),
        None => None,
    };
    Ok((
        store.records(),
        amount,
        status,
        store.fence().status(BRANCH),
    ))
}

/// The gates and the lengths of the records of a local commit and of a Try, and their tags.
const COMMITTED: [u8; 6] = [1, 0, 0, 0, 82, 18];

const TRIED: [u8; 6] = [1, 0, 0, 0, 80, 22];

const CALL: [u8; 2] = [0, 1];

/// What a disk has when a call comes: no branch, a local commit of branch 1, or its Try.
#[derive(Clone, Copy)]
enum Begins {
    Blank,
    Committed,
    Tried,
}

/// A store that was opened on such a disk.
fn begun(alloc: Global, begins: Begins) -> Result<Resource, Fail>
    ensures up { IfOk result (λ s. is_down s ≡ false) }
    ensures within { IfOk result (λ s. AreTablesWithin (known s).tables) }
{
    match begins {
        Begins::Blank => opened(alloc, &[&FIRST_BOOT]),
        Begins::Committed => {
            let parts: [&[u8]; 6] = [&FIRST_BOOT, &COMMITTED, &LEG, &CALL, &IMAGES, &[0, 0, 0]];
            opened(alloc, &parts)
        }
        Begins::Tried => {
            let parts: [&[u8]; 6] = [&FIRST_BOOT, &TRIED, &LEG, &CALL, &IMAGES, &[0]];
            opened(alloc, &parts)
        }
    }
}

/// Of other calls.
const NO_RECORD: Parts = [&[], &[], &[], &[], &[]];

/// Calls, with the record that each is of, what a disk has before it, and what the store knows after it.
const CALLS: [(Call, Parts, Begins, Told); 18] = [
    (
        Call::AtGrant,
        NO_RECORD,
        Begins::Blank,
        (3, None, Some(0), None),
    ),
    (
        Call::AtCommit,
        NO_RECORD,
        Begins::Committed,
        (4, Some(900), None, None),
    ),
    (
        Call::TccGrant,
        NO_RECORD,
        Begins::Blank,
        (3, None, None, Some(FenceStatus::Tried)),
    ),
    (
        Call::Confirm,
        NO_RECORD,
        Begins::Tried,
        (4, None, None, Some(FenceStatus::Committed)),
    ),
    (
        Call::Cancel,
        NO_RECORD,
        Begins::Tried,
        (4, None, None, Some(FenceStatus::Rollbacked)),
    ),
    (
        Call::LocalCommit,
        NO_RECORD,
        Begins::Blank,
        (3, None, None, None),
    ),
    (
        Call::Outside,
        NO_RECORD,
        Begins::Blank,
        (3, None, None, None),
    ),
    (
        Call::Change,
        [&[1, 0, 0, 0, 3], &[], &[], &[], &[]],
        Begins::Blank,
        (3, Some(1000), None, None),
    ),
    (
        Call::Change,
        [&[18], &LEG, &CALL, &IMAGES, &[0, 0]],
        Begins::Blank,
        (3, Some(900), Some(0), None),
    ),
    (
        Call::Change,
        [&[3], &LEG, &[], &[], &[]],
        Begins::Committed,
        (4, Some(1000), None, None),
    ),
    (
        Call::Change,
        [&[4], &LEG, &[], &[], &[]],
        Begins::Blank,
        (3, Some(1000), Some(1), None),
    ),
    (
        Call::Change,
        [&[5], &LEG, &[], &[], &[]],
        Begins::Committed,
        (4, Some(900), None, None),
    ),
    (
        Call::Change,
        [&[22], &LEG, &CALL, &IMAGES, &[]],
        Begins::Blank,
        (3, Some(900), None, Some(FenceStatus::Tried)),
    ),
    (
        Call::Change,
        [&[23], &LEG, &IMAGES_BACK, &[], &[]],
        Begins::Tried,
        (4, Some(1000), None, Some(FenceStatus::Committed)),
    ),
    (
        Call::Change,
        [&[24], &LEG, &IMAGES_BACK, &[], &[]],
        Begins::Tried,
        (4, Some(1000), None, Some(FenceStatus::Rollbacked)),
    ),
    (
        Call::Change,
        [&[9], &LEG, &[], &[], &[]],
        Begins::Blank,
        (3, Some(1000), None, Some(FenceStatus::Suspended)),
    ),
    (
        Call::Change,
        [&[26], &[0, 1], &IMAGES, &[], &[]],
        Begins::Blank,
        (3, Some(900), None, None),
    ),
    (
        Call::Change,
        [&[27], &[0, 1], &IMAGES, &[], &[]],
        Begins::Blank,
        (3, Some(900), None, None),
    ),
];

fn is_done(
    alloc: Global,
    store: &mut Resource,
    call: Call,
    parts: &[&[u8]],
    wanted: &Told,
) -> Result<bool, Fail>
    requires up { is_down store.old ≡ false }
    requires within { AreTablesWithin (known store.old).tables }
{
    Ok(does(alloc, store, call, parts)? && tell(alloc, store)? == *wanted)
}

fn is_done_on(
    alloc: Global,
    call: Call,
    parts: &[&[u8]],
    begins: Begins,
    wanted: &Told,
) -> Result<bool, Fail> {
    let mut store = begun(alloc, begins)?;
    let answer = is_done(alloc, &mut store, call, parts, wanted);
    drop(store);
    answer
}

fn are_done(alloc: Global) -> Result<(), Fail> {
    for (k, (call, parts, begins, wanted)) in CALLS.iter().enumerate() {
        if !is_done_on(alloc, *call, parts, *begins, wanted)? {
            return Err(Fail::Case(k));
        }
    }
    Ok(())
}

#[test]
fn calls_make_their_records(rt: HostRuntime) -> Result<(), Fail> {
    are_done(rt.alloc())
}
