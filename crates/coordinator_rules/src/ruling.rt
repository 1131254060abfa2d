//! The one answer of a coordinator to what it is given.
ghost use Rattle.std.specs.Prelude.{IfOk};
ghost use Rattle.coordinator_rules.specs.Answers.{AnswersBy, HearsFrom};
ghost use Rattle.coordinator_rules.specs.Costs.{AnswerCosts, AnswersCost, InputPasses, MessagePasses};

use crate::answers::Answer;
use crate::moments::Moments;
use crate::telling::rests;
use crate::{answering, deciding, registering, turning};
use lock_table::Steps;
use seata_types::{Act, Input, Leg, Message, NoMemory, Place};
use session_log::RegisterPlace;
use session_memory::Memory;
use std::alloc::Global;
use std::sync::ledger::Ledger;

/// Answers an input by the rules of the coordinator, which forgets a finished transaction after `forget` ticks, or never where that
/// is 0. Nothing changes: the answer says what is to be made durable first, and which transaction is due again. Without memory
/// there is no answer.
///
/// A step is a comparison of two keys or a look-up of a transaction; a pass is a transaction in which a branch is looked for, or a
/// branch of it that is passed.
pub fn answer<L: Ledger, P: Ledger>(
    alloc: Global,
    memory: &Memory,
    moments: &Moments,
    forget: u64,
    given: &Input,
    now: u64,
    steps: &mut Steps<L>,
    passes: &mut Steps<P>,
) -> Result<Answer, NoMemory>
    ensures answers { IfOk result (AnswersBy forget memory.now moments.now given.now now) }
    ensures cost { AnswersCost given.now memory.now steps.old steps.new }
    ensures passes { InputPasses given.now memory.now passes.old passes.new }
{
    match given {
        Input::Turn => Ok(turning::turn(memory, moments, forget, now)),
        Input::Message { from, message } => {
            hear(alloc, memory, *from, message.get(), now, steps, passes)
        }
        Input::Local { .. } | Input::Outside { .. } => Ok(rests(Act::Ignored, None)),
    }
}

/// Answers a message.
pub(crate) fn hear<L: Ledger, P: Ledger>(
    alloc: Global,
    memory: &Memory,
    from: Place,
    message: &Message,
    now: u64,
    steps: &mut Steps<L>,
    passes: &mut Steps<P>,
) -> Result<Answer, NoMemory>
    ensures answers { IfOk result (HearsFrom memory.now from message.now now) }
    ensures cost { AnswerCosts message.now memory.now steps.old steps.new }
    ensures passes { MessagePasses message.now memory.now passes.old passes.new }
{
    match message {
        Message::Begin { manager, timeout } => Ok(deciding::begin(memory, *manager, *timeout, now)),
        Message::GlobalCommit { xid } => Ok(deciding::commit(memory, from, *xid, now)),
        Message::GlobalRollback { xid } => Ok(deciding::roll_back(memory, from, *xid, now)),
        Message::GlobalStatus { xid } => Ok(deciding::tell(memory, from, *xid, now)),
        Message::Register {
            xid,
            resource,
            call,
            ticket,
            kind,
            hold,
            check,
        } => {
            let place = RegisterPlace {
                resource: *resource,
                call: *call,
                ticket: *ticket,
                kind: *kind,
            };
            let rows = hold.as_slice();
            registering::register(
                alloc,
                memory,
                *xid,
                place,
                rows,
                check.as_slice(),
                now,
                steps,
                passes,
            )
        }
        Message::LockQuery {
            resource,
            ticket,
            check,
        } => {
            let rows = check.as_slice();
            registering::query(alloc, memory, from, *resource, *ticket, rows, now, steps)
        }
        Message::BranchCommitted {
            xid,
            branch,
            status,
            stmt,
        } => {
            let leg = Leg {
                xid: *xid,
                branch: *branch,
            };
            Ok(answering::branch_committed(memory, leg, *status, *stmt, now))
        }
        Message::BranchRollbacked {
            xid,
            branch,
            status,
            stmt,
        } => {
            let leg = Leg {
                xid: *xid,
                branch: *branch,
            };
            Ok(answering::branch_rollbacked(memory, leg, *status, *stmt, now))
        }
        _ => Ok(rests(Act::Ignored, None)),
    }
}
