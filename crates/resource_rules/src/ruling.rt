//! The one answer of a resource to what it is given.
ghost use Rattle.std.specs.Prelude.{◌≡◌, ◌<◌, ◌-◌, ◌^◌, IfOk};
ghost use Rattle.seata_types.specs.declared.messages.Message.TheVariants as message;
ghost use Rattle.local_txn.specs.Answers.{Tickets};
ghost use Rattle.resource_rules.specs.Answers.{Answers, AreCounted, AreOpenOn, Hears};
ghost use Rattle.resource_rules.specs.Serving.{Serves, ServesMessage};

use crate::answers::Answer;
use crate::callers::Caller;
use crate::setups::Setup;
use crate::telling::ignored;
use crate::{at_ends, calls, grants, locals, tcc_ends, turns};
use local_txn::LocalTxns;
use resource_memory::Memory;
use seata_types::{BranchKind, Input, Leg, Message, NoMemory};
use std::alloc::Global;

/// Answers an input by the rules of a resource. Nothing changes: the answer says what is to be made durable first, and what becomes
/// of the open tickets then. Without memory there is no answer.
pub fn answer(
    alloc: Global,
    memory: &Memory,
    setup: &Setup,
    txns: &LocalTxns,
    given: &Input,
) -> Result<Answer, NoMemory>
    requires room { txns.now.opened < 2 ^ 32 - 1 }
    requires counted { AreCounted setup.now }
    requires open_on { AreOpenOn memory.now txns.now }
    requires served { Serves given.now }
    ensures { IfOk result (Answers setup.now memory.now txns.now given.now) }
{
    match given {
        Input::Turn => turns::turn(alloc, setup, txns),
        Input::Message { from: _, message } => { hear(alloc, memory, setup, txns, message.get()) }
        Input::Local { number } => locals::local(alloc, memory, setup, txns, *number),
        Input::Outside { number } => locals::outside(alloc, memory, setup, txns, *number),
    }
}

// Answers a message, wherever it came from.
fn hear(
    alloc: Global,
    memory: &Memory,
    setup: &Setup,
    txns: &LocalTxns,
    message: &Message,
) -> Result<Answer, NoMemory>
    requires room { txns.now.opened < 2 ^ 32 - 1 }
    requires counted { AreCounted setup.now }
    requires open_on { AreOpenOn memory.now txns.now }
    requires served { ServesMessage message.now }
    ensures { IfOk result (Hears setup.now memory.now txns.now message.now) }
{
    match message {
        Message::Call {
            xid,
            manager,
            resource: _,
            call,
            work,
        } => {
            let caller = Caller {
                manager: *manager,
                xid: *xid,
                call: *call,
            };
            calls::call(alloc, memory, setup, txns, caller, work)
        }
        Message::RegisterAnswer {
            ticket,
            xid: _,
            answer,
        } => grants::registered(alloc, memory, setup, txns, *ticket, answer),
        Message::LockAnswer { ticket, held } => {
            locals::lock_answered(alloc, memory, txns, *ticket, held)
        }
        Message::BranchCommit {
            xid,
            branch,
            kind,
            manager,
            call,
        } => {
            let leg = Leg {
                xid: *xid,
                branch: *branch,
            };
            commit(alloc, memory, setup, leg, *kind, *manager, *call)
        }
        Message::BranchRollback {
            xid,
            branch,
            kind,
            manager,
            call,
        } => {
            let leg = Leg {
                xid: *xid,
                branch: *branch,
            };
            roll_back(alloc, memory, setup, txns, leg, *kind, *manager, *call)
        }
        _ => Ok(ignored()),
    }
}

// A branch is to commit.
fn commit(
    alloc: Global,
    memory: &Memory,
    setup: &Setup,
    leg: Leg,
    kind: BranchKind,
    manager: u16,
    call: u16,
) -> Result<Answer, NoMemory>
    requires { AreCounted setup.now }
    ensures { IfOk result (λ a. (ts : Tickets) →
        Hears setup.now memory.now ts (message.BranchCommit leg.xid leg.branch kind manager call) a) }
{
    match kind {
        BranchKind::At => Ok(at_ends::at_commit(memory, leg)),
        BranchKind::Tcc => tcc_ends::confirm(alloc, memory, setup, leg, manager, call),
    }
}

// A branch is to roll back.
fn roll_back(
    alloc: Global,
    memory: &Memory,
    setup: &Setup,
    txns: &LocalTxns,
    leg: Leg,
    kind: BranchKind,
    manager: u16,
    call: u16,
) -> Result<Answer, NoMemory>
    requires { AreCounted setup.now }
    ensures { IfOk result (Hears setup.now memory.now txns.now (message.BranchRollback leg.xid leg.branch kind manager call)) }
{
    match kind {
        BranchKind::At => at_ends::at_rollback(alloc, memory, txns, leg),
        BranchKind::Tcc => tcc_ends::cancel(alloc, memory, setup, leg, manager, call),
    }
}
