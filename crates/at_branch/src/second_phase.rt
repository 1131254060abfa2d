//! The second phase of AT branches.
ghost use Rattle.std.specs.Prelude.{◌≡◌, false};
ghost use Rattle.resource_store.specs.Answers.{Leaves};
ghost use Rattle.resource_store.specs.Keeping.{is_down};
ghost use Rattle.at_branch.specs.SecondPhase.{committed_by, rolled_by, Commits, RollsBack};

use crate::answers::{Committed, Rolled};
use disk_model::Disk;
use local_txn::LocalTxns;
use resource_rules::{at_commit, at_rollback};
use resource_store::Store;
use rule_calls::carry_out;
use seata_types::{Act, Durable, Leg, NoMemory, StoreError};
use std::alloc::Global;

/// Commits a branch: its undo record is taken out, if it has one.
pub fn commit<D: Disk>(
    alloc: Global,
    store: &mut Store<D>,
    leg: Leg,
) -> Result<Committed, StoreError>
    requires { is_down store.old ≡ false }
    ensures answer { Commits D.state leg result store.old store.new }
    ensures leaves { Leaves D.state result store.old store.new }
{
    let answer = at_commit(store.memory(), leg);
    match carry_out(alloc, store, answer) {
        Ok(act) => Ok(committed_by(&act)),
        Err(error) => Err(error),
    }
}

/// Rolls a branch back: the rows of its undo record are put back, where no open local transaction has one of them and each is
/// as the branch left it. A branch without an undo record is marked, so that it never commits. What is compared with a present
/// row is what the branch left there alone, where Seata looks at the row before too.
pub fn rollback<D: Disk>(
    alloc: Global,
    store: &mut Store<D>,
    txns: &LocalTxns,
    leg: Leg,
) -> Result<Rolled, StoreError>
    requires { is_down store.old ≡ false }
    ensures answer { RollsBack D.state leg txns.now.opens result store.old store.new }
    ensures leaves { Leaves D.state result store.old store.new }
{
    match at_rollback(alloc, store.memory(), txns, leg) {
        Ok(answer) => match carry_out(alloc, store, answer) {
            Ok(act) => Ok(rolled_by(act)),
            Err(error) => Err(error),
        },
        Err(NoMemory) => Err(StoreError::NoMemory),
    }
}

// What the act of a commit tells.
fn committed_by(act: &Act) -> Committed
    ensures { result ≡ committed_by act.now }
{
    match act {
        Act::Durable(_) => Committed::Cleared,
        _ => Committed::Empty,
    }
}

// What the act of a rollback tells.
fn rolled_by(act: Act) -> Rolled
    ensures { result ≡ rolled_by act }
{
    match act {
        Act::Durable(Durable::Undone { .. }) => Rolled::Undone,
        Act::Durable(_) => Rolled::Marked,
        Act::Blocked { key, by, .. } => Rolled::Busy { key, by },
        Act::Dirty {
            key,
            after,
            now,
            ..
        } => Rolled::Dirty {
            key: key.into_inner(),
            after: after.into_inner(),
            now: now.into_inner(),
        },
        _ => Rolled::Again,
    }
}
