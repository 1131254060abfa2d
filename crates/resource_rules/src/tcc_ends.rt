//! The second phase of TCC branches.
ghost use Rattle.std.specs.Prelude.{◌≡◌, ◌≤◌, length, None, IfOk};
ghost use Rattle.seata_types.specs.declared.acts.Act.TheVariants as act;
ghost use Rattle.seata_types.specs.declared.limits.TheConstants.{FIELD_ITEMS};
ghost use Rattle.seata_types.specs.declared.messages.Message.TheVariants as message;
ghost use Rattle.seata_types.specs.declared.statuses.BranchKind.TheVariants as kind;
ghost use Rattle.seata_types.specs.declared.statuses.BranchStatus.TheVariants as branch;
ghost use Rattle.local_tables.specs.Calls.{effect};
ghost use Rattle.local_txn.specs.Answers.{Tickets};
ghost use Rattle.resource_rules.specs.Answers.{AreCounted, Hears, answer};
ghost use Rattle.resource_rules.specs.Apart.{CancelsWith, ConfirmsWith, cancels_on, confirms_on};
ghost use Rattle.tcc_fence.specs.Meanings.{answer_of};
ghost use Rattle.durable_records.specs.Fences.{Runs};
ghost use Rattle.history_rules.specs.ResourceRules.{tells_committed};
ghost use Rattle.resource_rules.specs.Ends.{confirming, cancelling};

use crate::answers::Answer;
use crate::meanings::meaning;
use crate::setups::{Setup, action_of};
use crate::telling::{committed, ignored, in_range, rollbacked};
use durable_records::ResourceRecord;
use local_tables::{Effect, Tables};
use resource_memory::Memory;
use seata_types::{Act, BranchStatus, Durable, Leg, NoMemory, Stmt};
use std::alloc::Global;
use tcc_fence::FenceAnswer;

/// A branch is to commit: its Confirm runs, as `confirm_for` says. A branch whose call has no actions here is ignored.
pub(crate) fn confirm(
    alloc: Global,
    memory: &Memory,
    setup: &Setup,
    leg: Leg,
    manager: u16,
    call: u16,
) -> Result<Answer, NoMemory>
    requires { AreCounted setup.now }
    ensures { IfOk result (λ a. (ts : Tickets) →
        Hears setup.now memory.now ts (message.BranchCommit leg.xid leg.branch kind.Tcc manager call) a) }
{
    let Some(action) = action_of(setup, manager, call) else {
        return Ok(ignored());
    };
    confirm_for(alloc, memory, leg, action.confirms.as_slice())
}

/// A branch whose Confirm has these statements is to commit: they run, where its fence lets them and each has a meaning; they need
/// not touch a row.
pub fn confirm_for(
    alloc: Global,
    memory: &Memory,
    leg: Leg,
    stmts: &[Stmt],
) -> Result<Answer, NoMemory>
    requires { length stmts.now ≤ FIELD_ITEMS }
    ensures rules { IfOk result (ConfirmsWith memory.now leg stmts.now) }
    ensures known { IfOk result (λ a. a ≡ confirms_on memory.now leg stmts.now) }
{
    let known = memory.kept();
    let fence = known.fence().on_confirm(leg);
    confirm_by(alloc, known.tables(), leg, fence, stmts)
}

// The same by what the fence answers.
fn confirm_by(
    alloc: Global,
    tables: &Tables,
    leg: Leg,
    fence: FenceAnswer,
    stmts: &[Stmt],
) -> Result<Answer, NoMemory>
    requires { length stmts.now ≤ FIELD_ITEMS }
    ensures { IfOk result (λ a. a ≡ confirming leg (effect tables.now stmts.now) (answer_of fence)) }
{
    let Leg { xid, branch } = leg;
    match fence {
        FenceAnswer::Run => run_confirm(alloc, tables, leg, stmts),
        FenceAnswer::Already => {
            let act = Act::Already { xid, branch };
            Ok(committed(leg, BranchStatus::PhaseTwoCommitted, 0, act, None))
        }
        FenceAnswer::Suspend => Ok(unconfirmed(leg)),
        FenceAnswer::Refuse => Ok(unconfirmed(leg)),
    }
}

// The fence refuses a Confirm.
fn unconfirmed(leg: Leg) -> Answer
    ensures { result ≡ answer None (tells_committed leg.xid.0 leg.branch.0 branch.PhaseTwoCommitFailedRetryable 0 (act.Unfenced leg.xid leg.branch)) }
{
    let Leg { xid, branch } = leg;
    let status = BranchStatus::PhaseTwoCommitFailedRetryable;
    committed(leg, status, 0, Act::Unfenced { xid, branch }, None)
}

// The Confirm of a branch runs.
fn run_confirm(alloc: Global, tables: &Tables, leg: Leg, stmts: &[Stmt]) -> Result<Answer, NoMemory>
    requires { length stmts.now ≤ FIELD_ITEMS }
    ensures { IfOk result (λ a. a ≡ confirming leg (effect tables.now stmts.now) Runs) }
{
    let Leg { xid, branch } = leg;
    match meaning(alloc, tables, stmts)? {
        Ok(effect) => {
            let Effect { images, .. } = effect;
            let item = ResourceRecord::Confirmed {
                xid,
                branch,
                images,
            };
            let act = Act::Durable(Durable::Confirmed { xid, branch });
            Ok(committed(leg, BranchStatus::PhaseTwoCommitted, 0, act, Some(item)))
        }
        Err((index, why)) => {
            let act = Act::Unable {
                xid,
                branch,
                index,
                why,
            };
            let status = BranchStatus::PhaseTwoCommitFailedUnretryable;
            Ok(committed(leg, status, index, act, None))
        }
    }
}

/// A branch is to roll back: its Cancel runs, as `cancel_for` says. A branch whose call has no actions here is ignored.
pub(crate) fn cancel(
    alloc: Global,
    memory: &Memory,
    setup: &Setup,
    leg: Leg,
    manager: u16,
    call: u16,
) -> Result<Answer, NoMemory>
    requires { AreCounted setup.now }
    ensures { IfOk result (λ a. (ts : Tickets) →
        Hears setup.now memory.now ts (message.BranchRollback leg.xid leg.branch kind.Tcc manager call) a) }
{
    let Some(action) = action_of(setup, manager, call) else {
        return Ok(ignored());
    };
    cancel_for(alloc, memory, leg, action.cancels.as_slice())
}

/// A branch whose Cancel has these statements is to roll back: they run, where its fence lets them and each has a meaning; they need
/// not touch a row. A branch without a fence is suspended: its Try never runs.
pub fn cancel_for(
    alloc: Global,
    memory: &Memory,
    leg: Leg,
    stmts: &[Stmt],
) -> Result<Answer, NoMemory>
    requires { length stmts.now ≤ FIELD_ITEMS }
    ensures rules { IfOk result (CancelsWith memory.now leg stmts.now) }
    ensures known { IfOk result (λ a. a ≡ cancels_on memory.now leg stmts.now) }
{
    in_range(leg.xid.0, leg.branch.0);
    let known = memory.kept();
    let fence = known.fence().on_cancel(leg);
    cancel_by(alloc, known.tables(), leg, fence, stmts)
}

// The same by what the fence answers.
fn cancel_by(
    alloc: Global,
    tables: &Tables,
    leg: Leg,
    fence: FenceAnswer,
    stmts: &[Stmt],
) -> Result<Answer, NoMemory>
    requires { length stmts.now ≤ FIELD_ITEMS }
    ensures { IfOk result (λ a. a ≡ cancelling leg (effect tables.now stmts.now) (answer_of fence)) }
{
    let Leg { xid, branch } = leg;
    match fence {
        FenceAnswer::Run => run_cancel(alloc, tables, leg, stmts),
        FenceAnswer::Already => {
            let act = Act::Already { xid, branch };
            Ok(rollbacked(leg, BranchStatus::PhaseTwoRollbacked, 0, act, None))
        }
        FenceAnswer::Suspend => Ok(rollbacked(
            leg,
            BranchStatus::PhaseTwoRollbacked,
            0,
            Act::Durable(Durable::Suspended { xid, branch }),
            Some(ResourceRecord::Suspended { xid, branch }),
        )),
        FenceAnswer::Refuse => {
            let act = Act::Unfenced { xid, branch };
            let status = BranchStatus::PhaseTwoRollbackFailedRetryable;
            Ok(rollbacked(leg, status, 0, act, None))
        }
    }
}

// The Cancel of a branch runs.
fn run_cancel(alloc: Global, tables: &Tables, leg: Leg, stmts: &[Stmt]) -> Result<Answer, NoMemory>
    requires { length stmts.now ≤ FIELD_ITEMS }
    ensures { IfOk result (λ a. a ≡ cancelling leg (effect tables.now stmts.now) Runs) }
{
    let Leg { xid, branch } = leg;
    match meaning(alloc, tables, stmts)? {
        Ok(effect) => {
            let Effect { images, .. } = effect;
            let item = ResourceRecord::Cancelled {
                xid,
                branch,
                images,
            };
            let act = Act::Durable(Durable::Cancelled { xid, branch });
            Ok(rollbacked(leg, BranchStatus::PhaseTwoRollbacked, 0, act, Some(item)))
        }
        Err((index, why)) => {
            let act = Act::Unable {
                xid,
                branch,
                index,
                why,
            };
            let status = BranchStatus::PhaseTwoRollbackFailedUnretryable;
            Ok(rollbacked(leg, status, index, act, None))
        }
    }
}
