//! The answers of branches in their second phase.
ghost use Rattle.std.specs.Prelude.{◌≡◌};
ghost use Rattle.seata_types.specs.declared.messages.Message.TheVariants as message;
ghost use Rattle.durable_records.specs.Progress.{has_retrying};
ghost use Rattle.session_memory.specs.Changes.{is_open};
ghost use Rattle.session_memory.specs.Lookups.{status_in};
ghost use Rattle.coordinator_rules.specs.Answers.{Hears};
ghost use Rattle.coordinator_rules.specs.Choices.{commits_here, rolls_here};
ghost use Rattle.coordinator_rules.specs.Looked as looked;

use crate::answers::Answer;
use crate::kinds;
use crate::telling::{rests, retries};
use durable_records::SessionRecord;
use seata_types::{Act, BranchStatus, Durable, Leg};
use session_memory::uncounted::allows;
use session_memory::{Memory, statuses};

/// Takes the answer of a branch that was asked to commit.
pub(crate) fn branch_committed(
    memory: &Memory,
    leg: Leg,
    status: BranchStatus,
    stmt: u16,
    now: u64,
) -> Answer
    ensures { Hears memory.now
        (message.BranchCommitted leg.xid leg.branch status stmt) now result }
{
    if !may_commit(memory, leg) {
        return rests(Act::Ignored, None);
    }
    end(memory, leg, status, stmt)
}

/// Takes the answer of a branch that was asked to roll back.
pub(crate) fn branch_rollbacked(
    memory: &Memory,
    leg: Leg,
    status: BranchStatus,
    stmt: u16,
    now: u64,
) -> Answer
    ensures { Hears memory.now
        (message.BranchRollbacked leg.xid leg.branch status stmt) now result }
{
    if !may_roll_back(memory, leg) {
        return rests(Act::Ignored, None);
    }
    end(memory, leg, status, stmt)
}

// Whether this is an unended branch of a transaction that commits.
fn may_commit(memory: &Memory, leg: Leg) -> bool
    ensures { result ≡ commits_here memory.now leg }
{
    kinds::is_committing(memory.status(leg.xid)) && is_open(memory, leg)
}

// Whether this is an unended branch of a transaction that rolls back.
fn may_roll_back(memory: &Memory, leg: Leg) -> bool
    ensures { result ≡ rolls_here memory.now leg }
{
    kinds::is_rolling(memory.status(leg.xid)) && is_open(memory, leg)
}

// Whether this is an unended branch of a transaction in its second phase.
fn is_open(memory: &Memory, leg: Leg) -> bool
    ensures { result ≡ is_open memory.now leg.xid.0 leg.branch.0 }
{
    let Leg { xid, branch } = leg;
    let item = SessionRecord::Ended { xid, branch };
    let open = allows(memory, &item);
    drop(item);
    open
}

// Goes by the status of an unended branch.
fn end(memory: &Memory, leg: Leg, status: BranchStatus, stmt: u16) -> Answer
    ensures { result ≡ looked.end memory.now leg status stmt }
{
    match status {
        BranchStatus::PhaseTwoCommitted => ended(leg),
        BranchStatus::PhaseTwoRollbacked => ended(leg),
        BranchStatus::PhaseTwoCommitFailedRetryable => retry_later(memory, leg),
        BranchStatus::PhaseTwoRollbackFailedRetryable => retry_later(memory, leg),
        BranchStatus::PhaseTwoCommitFailedUnretryable => failed(leg, stmt),
        BranchStatus::PhaseTwoRollbackFailedUnretryable => failed(leg, stmt),
        _ => rests(Act::Ignored, None),
    }
}

// The branch is done.
fn ended(leg: Leg) -> Answer
    ensures { result ≡ looked.ended leg }
{
    let Leg { xid, branch } = leg;
    let act = Act::Durable(Durable::Ended { xid, branch });
    rests(act, Some(SessionRecord::Ended { xid, branch }))
}

// The branch failed for good, and with it the second phase of its transaction.
fn failed(leg: Leg, stmt: u16) -> Answer
    ensures { result ≡ looked.failed leg stmt }
{
    let Leg { xid, branch } = leg;
    let act = Act::Durable(Durable::Failed { xid, branch, stmt });
    rests(act, Some(SessionRecord::Failed { xid, branch, stmt }))
}

// The branch is to be asked again, which may change the status of its transaction.
fn retry_later(memory: &Memory, leg: Leg) -> Answer
    ensures { result ≡ looked.retried leg (has_retrying (status_in memory.now leg.xid.0)) }
{
    let Leg { xid, branch } = leg;
    if statuses::has_retrying(memory.status(xid)) {
        let act = Act::Durable(Durable::Retrying { xid, branch });
        return rests(act, Some(SessionRecord::Retrying { xid }));
    }
    retries(Act::Retry { xid, branch }, xid)
}
