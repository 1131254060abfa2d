//! Calls, and the opening of tickets.
ghost use Rattle.std.specs.Prelude.{◌≡◌, ℕ, ◌≤◌, ◌<◌, ◌-◌, ◌^◌, ◌==◌, false, None, Some, Err, option_map, IfOk};
ghost use Rattle.std.specs.Option.{option_copied};
ghost use Rattle.seata_types.specs.declared.messages.Message.TheVariants as message;
ghost use Rattle.seata_types.specs.declared.statements.Work.{Work as TheWork};
ghost use Rattle.local_tables.specs.declared.schemas.Effect.{Effect};
ghost use Rattle.local_txn.specs.Answers.{Plans, Tickets};
ghost use Rattle.history_rules.specs.ResourceRules as rules;
ghost use Rattle.resource_rules.specs.Answers.{answer, Hears};
ghost use Rattle.resource_rules.specs.Calls as looked;

use crate::answers::{Answer, Change};
use crate::callers::Caller;
use crate::requests::request;
use crate::setups::Setup;
use crate::telling::{ignored, in_range, in_ticket, is_nobody, rests, tells};
use local_tables::Tables;
use local_txn::{ExecError, LocalTxns, OpenTxn};
use resource_memory::Memory;
use seata_types::{
    Act, BranchId, CallAnswer, Duplicate, Leg, NoMemory, Outgoing, Place, RowKey, Step, StmtError,
    Ticket, Why, Work,
};
use std::alloc::Global;
use undo_log::UndoRecord;

/// A call: done before, open already, refused, busy, or opened. A call of no transaction is ignored.
pub(crate) fn call(
    alloc: Global,
    memory: &Memory,
    setup: &Setup,
    txns: &LocalTxns,
    caller: Caller,
    work: &Work,
) -> Result<Answer, NoMemory>
    requires room { txns.now.opened < 2 ^ 32 - 1 }
    requires counted { 1 ≤ caller.call }
    requires statements { looked.HasFewStatements work.now }
    ensures { IfOk result (λ a. (resource : ℕ) →
        Hears setup.now memory.now txns.now (message.Call caller.xid caller.manager resource caller.call work.now) a) }
{
    if is_nobody(caller.xid) {
        return Ok(ignored());
    }
    let Caller { xid, call, .. } = caller;
    if let Some(branch) = done_for(memory, caller, work) {
        in_range(xid.0, branch.0);
        return Ok(told(
            caller,
            Act::Again { xid, call, branch },
            CallAnswer::Done { branch },
        ));
    }
    if txns.find_call(xid, call).is_some() {
        return Ok(rests(Act::Waiting { xid, call }, None));
    }
    let ticket = txns.next();
    in_ticket(ticket.boot, ticket.seq);
    new_call(alloc, memory.tables(), setup.number, txns, caller, work)
}

// The least branch for which the work of a call is done.
fn done_for(memory: &Memory, caller: Caller, work: &Work) -> Option<BranchId>
    ensures { result ≡ looked.done_for memory.now caller work.now }
{
    match work {
        Work::At(_) => branch_by(memory.undo_log().find_call(caller.xid, caller.call)),
        Work::Tcc(_) => branch_on(memory.tried_call(caller.xid, caller.call)),
    }
}

fn branch_by(found: Option<&UndoRecord>) -> Option<BranchId>
    ensures { result ≡ option_map looked.branch_by (option_copied found.entry) }
{
    match found {
        Some(record) => Some(record.leg.branch),
        None => None,
    }
}

fn branch_on(found: Option<Leg>) -> Option<BranchId>
    ensures { result ≡ option_map looked.branch_on found }
{
    match found {
        Some(leg) => Some(leg.branch),
        None => None,
    }
}

// The manager of a call is told what was done.
fn told(caller: Caller, act: Act, given: CallAnswer) -> Answer
    ensures { result ≡ answer None (rules.answers caller.manager caller.xid.0 caller.call act given) }
{
    Answer {
        step: tells(caller.manager, caller.xid, caller.call, act, given),
        asked: None,
        change: Change::Stays,
    }
}

// A call of a transaction, for which nothing is done, and no ticket is open.
fn new_call(
    alloc: Global,
    tables: &Tables,
    number: u16,
    txns: &LocalTxns,
    caller: Caller,
    work: &Work,
) -> Result<Answer, NoMemory>
    requires one { (caller.xid.0 == 0) ≡ false }
    requires room { txns.now.opened < 2 ^ 32 - 1 }
    requires statements { looked.HasFewStatements work.now }
    ensures { IfOk result (λ a. a ≡ looked.new_call number txns.now caller work.now (rules.meaning tables.now work.now)) }
{
    match planned(alloc, tables, txns, caller, work) {
        Ok(txn) => opened(alloc, number, opening(&txn), txn),
        Err(why) => unopened(alloc, caller, why),
    }
}

// What an opening for the work of a call comes to.
fn planned(
    alloc: Global,
    tables: &Tables,
    txns: &LocalTxns,
    caller: Caller,
    work: &Work,
) -> Result<OpenTxn, ExecError>
    requires room { txns.now.opened < 2 ^ 32 - 1 }
    requires statements { looked.HasFewStatements work.now }
    ensures { Plans txns.now caller.xid caller.call caller.manager work.now (rules.meaning tables.now work.now) result }
{
    let Caller { manager, xid, call } = caller;
    match work {
        Work::At(stmts) => txns.plan(alloc, xid, call, manager, stmts, tables),
        Work::Tcc(action) => match txns.plan_try(alloc, xid, call, manager, action) {
            Ok(txn) => Ok(txn),
            Err(NoMemory) => Err(ExecError::NoMemory),
        },
    }
}

// The act that opens the ticket of a call.
fn opening(txn: &OpenTxn) -> Act
    ensures { result ≡ Act.Opened txn.now.xid txn.now.call txn.now.ticket }
{
    Act::Opened {
        xid: txn.xid,
        call: txn.call,
        ticket: txn.ticket,
    }
}

/// A ticket is opened with this act, and asks the coordinator.
pub(crate) fn opened(alloc: Global, number: u16, act: Act, txn: OpenTxn) -> Result<Answer, NoMemory>
    ensures { IfOk result (λ a. a ≡ looked.opened number act txn) }
{
    let Ok(message) = request(alloc, number, &txn) else {
        drop(act);
        drop(txn);
        return Err(NoMemory);
    };
    Ok(Answer {
        step: Step {
            act,
            sent: Some(Outgoing {
                to: Place::Tc,
                message,
            }),
        },
        asked: None,
        change: Change::Opens(txn),
    })
}

// No ticket is opened for a call, and why.
fn unopened(alloc: Global, caller: Caller, why: ExecError) -> Result<Answer, NoMemory>
    ensures { IfOk result (looked.Unopened caller why) }
{
    match why {
        ExecError::Stmt { index, why } => refused(alloc, caller, index, why),
        ExecError::Busy { key, by } => busy(alloc, caller, key, by),
        ExecError::NoMemory => Err(NoMemory),
    }
}

// A statement has no meaning.
fn refused(alloc: Global, caller: Caller, index: u16, why: StmtError) -> Result<Answer, NoMemory>
    ensures { IfOk result (λ a. (number : ℕ) (ts : Tickets) (w : TheWork) → a ≡ looked.new_call number ts caller w (Err (index, why))) }
{
    let Ok(cause) = why.copy(alloc) else {
        drop(why);
        return Err(NoMemory);
    };
    let Caller { xid, call, .. } = caller;
    let act = Act::Refused {
        xid,
        call,
        why: Why::Stmt { index, why },
    };
    let why = Why::Stmt { index, why: cause };
    Ok(told(caller, act, CallAnswer::Failed { why }))
}

// An open ticket has a row.
fn busy(alloc: Global, caller: Caller, key: RowKey, by: Ticket) -> Result<Answer, NoMemory>
    ensures { IfOk result (λ a. (number : ℕ) (ts : Tickets) (w : TheWork) (e : Effect) → a ≡ looked.free_call number ts caller w e (Some (key, by))) }
{
    let told_key = key.copy(alloc)?;
    let Caller { xid, call, .. } = caller;
    let act = Act::Busy { xid, call, key, by };
    Ok(told(caller, act, CallAnswer::Busy { key: told_key, by }))
}
