//! Branches are registered, and rows are asked for.
ghost use Rattle.std.specs.Prelude.{◌≡◌, ◌≤◌, ◌+◌, length, Some, None, IfOk, IfSome};
ghost use Rattle.seata_types.specs.declared.messages.Message.TheVariants as message;
ghost use Rattle.seata_types.specs.declared.statuses.Decision.TheVariants as how;
ghost use Rattle.durable_records.specs.declared.coordinators.SessionRecord.TheVariants as log;
ghost use Rattle.lock_table.specs.Locks.{TakesAtMost};
ghost use Rattle.coordinator_rules.specs.Answers.{Hears, HearsFrom, answer};
ghost use Rattle.coordinator_rules.specs.Choices.{leg_in};
ghost use Rattle.coordinator_rules.specs.Costs.{AnswerCosts, MessagePasses, held_rows, passed};
ghost use Rattle.coordinator_rules.specs.Framing.{SendsFramable};
ghost use Rattle.coordinator_rules.specs.Naming.{NamesResource};
ghost use Rattle.coordinator_rules.specs.Registering.{IsAnsweredFirst, IsByRows, IsConflict, IsSentBack, granted_answer, registers};
ghost use Rattle.coordinator_rules.specs.Steps.{regranted_step, closed_step, late_step, granted_step, conflict_step, held_step, IsFramableKey, IsFramableRow};

use crate::answers::Answer;
use crate::telling::sends;
use crate::{choosing, kinds};
use durable_records::SessionRecord;
use lock_table::{HoldError, Steps};
use seata_types::{
    Act, BranchKind, Decision, Duplicate, Durable, GlobalStatus, Leg, Message, NoMemory, Outgoing,
    Place, Registered, RowKey, Step, Ticket, Xid,
};
use session_log::RegisterPlace;
use session_memory::Memory;
use std::alloc::Global;
use std::sync::ledger::Ledger;

/// Answers a registration. It looks for the branch that was registered for it, and looks up its transaction's status and its
/// timeout, and the status of one holder of a row.
pub(crate) fn register<L: Ledger, P: Ledger>(
    alloc: Global,
    memory: &Memory,
    xid: Xid,
    place: RegisterPlace,
    hold: &[RowKey],
    check: &[RowKey],
    now: u64,
    steps: &mut Steps<L>,
    passes: &mut Steps<P>,
) -> Result<Answer, NoMemory>
    ensures answers { IfOk result (Hears memory.now (registers xid place hold.now check.now) now) }
    ensures cost { AnswerCosts (registers xid place hold.now check.now)
        memory.now steps.old steps.new }
    ensures passes { MessagePasses (registers xid place hold.now check.now)
        memory.now passes.old passes.new }
{
    match before_rows(memory, xid, place, now, steps, passes) {
        Some(answer) => Ok(answer),
        None => by_rows(alloc, memory, xid, place, hold, check, steps),
    }
}

// Answers a registration whatever its rows are: one of a branch that was registered before, one of a transaction that can't be
// decided any more, and one past its timeout. There is no answer where it goes by its rows. Takes no memory, two steps at most,
// and a pass for a transaction and for each branch of it that is passed.
fn before_rows<L: Ledger, P: Ledger>(
    memory: &Memory,
    xid: Xid,
    place: RegisterPlace,
    now: u64,
    steps: &mut Steps<L>,
    passes: &mut Steps<P>,
) -> Option<Answer>
    ensures answered { IsAnsweredFirst memory.now xid place now result }
    ensures cost { steps.new ≤ steps.old + 2 }
    ensures passes { passes.new ≤ passes.old + 1 + passed memory.now xid place.kind }
{
    if let Some(leg) = leg(memory, xid, place, passes) {
        return Some(regranted(place, leg));
    }
    steps.tick();
    let status = memory.status(xid);
    if !kinds::is_begin(status) {
        return Some(closed(place, xid, status));
    }
    steps.tick();
    if choosing::has_passed_in(memory.find(xid), now) {
        return Some(late(place, xid));
    }
    None
}

// The branch that was registered for this, found by its ticket or its call among the branches of one transaction.
fn leg<P: Ledger>(
    memory: &Memory,
    xid: Xid,
    place: RegisterPlace,
    passes: &mut Steps<P>,
) -> Option<Leg>
    ensures leg { result ≡ leg_in memory.now xid place }
    ensures cost { passes.new ≤ passes.old + 1 + passed memory.now xid place.kind }
{
    match place.kind {
        BranchKind::At => memory.ticket_leg(place.resource, place.ticket, passes),
        BranchKind::Tcc => memory.call_leg(xid, place.resource, place.call, passes),
    }
}

// The branch is registered where its rows are free. Where they aren't, their holder is looked up, once.
fn by_rows<L: Ledger>(
    alloc: Global,
    memory: &Memory,
    xid: Xid,
    place: RegisterPlace,
    hold: &[RowKey],
    check: &[RowKey],
    steps: &mut Steps<L>,
) -> Result<Answer, NoMemory>
    ensures value { IfOk result (IsByRows memory.now xid place hold.now check.now) }
    ensures sent { IfOk result (IsSentBack (registers xid place hold.now check.now)) }
    ensures cost { TakesAtMost (length hold.now + length check.now)
        (held_rows memory.now) (steps.old + 1) steps.new }
{
    match memory.conflict(alloc, xid, hold, check, steps) {
        Ok(()) => grant(alloc, memory, xid, place, hold),
        Err(HoldError::Held { key, by }) => {
            match tell_conflict(alloc, memory, xid, place, key, by, steps) {
                Ok(step) => Ok(Answer {
                    step,
                    asked: None,
                    again: None,
                }),
                Err(NoMemory) => Err(NoMemory),
            }
        }
        Err(HoldError::NoMemory) => Err(NoMemory),
    }
}

// The branch is registered under the next number.
fn grant(
    alloc: Global,
    memory: &Memory,
    xid: Xid,
    place: RegisterPlace,
    hold: &[RowKey],
) -> Result<Answer, NoMemory>
    ensures value { IfOk result (λ a. a ≡ granted_answer memory.now xid place hold.now) }
    ensures framable { IfOk result (λ a. SendsFramable a.step) }
    ensures named { IfOk result (λ a. NamesResource place.resource a.step) }
{
    let branch = memory.next_branch();
    let item = session_memory::granted(alloc, xid, branch, place, hold)?;
    Ok(Answer {
        step: granted(place, Leg { xid, branch }),
        asked: Some(item),
        again: None,
    })
}

// The branch was registered before.
fn regranted(place: RegisterPlace, leg: Leg) -> Answer
    ensures value { result ≡ answer None (regranted_step place leg) }
    ensures framable { SendsFramable result.step }
    ensures named { NamesResource place.resource result.step }
{
    let Leg { xid, branch } = leg;
    let message = Message::RegisterAnswer {
        ticket: place.ticket,
        xid,
        answer: Registered::Granted { branch },
    };
    let act = Act::Regranted { xid, branch };
    sends(act, Place::Res(place.resource), message, None)
}

// The transaction can't be decided any more.
fn closed(place: RegisterPlace, xid: Xid, status: GlobalStatus) -> Answer
    ensures value { result ≡ answer None (closed_step place xid status) }
    ensures framable { SendsFramable result.step }
    ensures named { NamesResource place.resource result.step }
{
    let message = Message::RegisterAnswer {
        ticket: place.ticket,
        xid,
        answer: Registered::Closed { status },
    };
    let act = Act::Closed { xid, status };
    sends(act, Place::Res(place.resource), message, None)
}

// The transaction is past its timeout, and is rolled back.
fn late(place: RegisterPlace, xid: Xid) -> Answer
    ensures value { result ≡ answer (Some (log.Decided xid how.Timeout)) (late_step place xid) }
    ensures framable { SendsFramable result.step }
    ensures named { NamesResource place.resource result.step }
{
    let message = Message::RegisterAnswer {
        ticket: place.ticket,
        xid,
        answer: Registered::Late,
    };
    let act = Act::Durable(Durable::Late { xid });
    let how = Decision::Timeout;
    let item = SessionRecord::Decided { xid, how };
    sends(act, Place::Res(place.resource), message, Some(item))
}

// The step of a branch that is registered.
fn granted(place: RegisterPlace, leg: Leg) -> Step
    ensures value { result ≡ granted_step place leg }
    ensures framable { SendsFramable result }
    ensures named { NamesResource place.resource result }
{
    let Leg { xid, branch } = leg;
    let message = Message::RegisterAnswer {
        ticket: place.ticket,
        xid,
        answer: Registered::Granted { branch },
    };
    Step {
        act: Act::Durable(Durable::Granted { xid, branch }),
        sent: Some(Outgoing {
            to: Place::Res(place.resource),
            message,
        }),
    }
}

// The step of a branch that isn't registered, since another transaction holds a row; one step looks this transaction up.
fn tell_conflict<L: Ledger>(
    alloc: Global,
    memory: &Memory,
    xid: Xid,
    place: RegisterPlace,
    key: RowKey,
    by: Xid,
    steps: &mut Steps<L>,
) -> Result<Step, NoMemory>
    ensures value { IfOk result (IsConflict memory.now place xid key by) }
    ensures framable { IsFramableKey key → IfOk result SendsFramable }
    ensures cost { steps.new ≡ steps.old + 1 }
{
    steps.tick();
    let rolling = kinds::is_rolling(memory.status(by));
    conflicting(alloc, place, xid, key, by, rolling)
}

fn conflicting(
    alloc: Global,
    place: RegisterPlace,
    xid: Xid,
    key: RowKey,
    holder: Xid,
    rolling: bool,
) -> Result<Step, NoMemory>
    ensures value { IfOk result (λ step. step ≡ conflict_step place xid key holder rolling) }
    ensures framable { IsFramableKey key → IfOk result SendsFramable }
{
    let act = Act::Conflict {
        xid,
        key: key.copy(alloc)?,
        holder,
        rolling,
    };
    let answer = Registered::Conflict {
        key,
        holder,
        rolling,
    };
    let message = Message::RegisterAnswer {
        ticket: place.ticket,
        xid,
        answer,
    };
    Ok(Step {
        act,
        sent: Some(Outgoing {
            to: Place::Res(place.resource),
            message,
        }),
    })
}

/// Answers a question for rows: the first of them that a transaction holds is told.
pub(crate) fn query<L: Ledger>(
    alloc: Global,
    memory: &Memory,
    from: Place,
    resource: u16,
    ticket: Ticket,
    check: &[RowKey],
    now: u64,
    steps: &mut Steps<L>,
) -> Result<Answer, NoMemory>
    ensures { IfOk result
        (HearsFrom memory.now from (message.LockQuery resource ticket check.now) now) }
{
    let found = choosing::first_held(alloc, memory.locks(), check, steps)?;
    held(alloc, from, ticket, found)
}

// A transaction holds a row, or none does.
fn held(
    alloc: Global,
    from: Place,
    ticket: Ticket,
    found: Option<(RowKey, Xid)>,
) -> Result<Answer, NoMemory>
    ensures value { IfOk result (λ a. a ≡ answer None (held_step from ticket found)) }
    ensures framable { IfSome found IsFramableRow → IfOk result (λ a. SendsFramable a.step) }
{
    let Some((key, holder)) = found else {
        let message = Message::LockAnswer { ticket, held: None };
        return Ok(sends(Act::Free, from, message, None));
    };
    let act = Act::Held {
        key: key.copy(alloc)?,
        holder,
    };
    let held = Some((key, holder));
    Ok(sends(act, from, Message::LockAnswer { ticket, held }, None))
}
