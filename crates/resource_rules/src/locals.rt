//! Guarded local transactions and outside writes.
ghost use Rattle.std.specs.Prelude.{◌≡◌, ◌≤◌, ◌<◌, ◌-◌, ◌^◌, List as Items, length, Some, None, Ok, Err, IfOk};
ghost use Rattle.seata_types.specs.declared.limits.TheConstants.{FIELD_ITEMS};
ghost use Rattle.seata_types.specs.declared.messages.Input.TheVariants as input;
ghost use Rattle.seata_types.specs.declared.messages.Message.TheVariants as message;
ghost use Rattle.local_tables.specs.Calls.{effect};
ghost use Rattle.local_tables.specs.declared.schemas.Effect.{Effect as TheEffect};
ghost use Rattle.local_txn.specs.OpenTickets.{Open};
ghost use Rattle.resource_rules.specs.Answers.{Answers, AreCounted, AreOpenOn, Hears};
ghost use Rattle.resource_rules.specs.Apart.{WritesWith, writes_on};
ghost use Rattle.resource_rules.specs.Locals as looked;
ghost use Rattle.resource_rules.specs.declared.setups.Setup.{Setup as TheSetup};

use crate::answers::{Answer, Change};
use crate::calls::opened;
use crate::lookups::local_at;
use crate::meanings::meaning;
use crate::setups::{Setup, local_of};
use crate::telling::{ignored, in_ticket, rests};
use durable_records::ResourceRecord;
use local_tables::{Effect, Tables};
use local_txn::{ExecError, LocalTxns, OpenTxn};
use resource_memory::Memory;
use seata_types::{
    Act, Duplicate, Durable, List, NoMemory, RowKey, Shared, Step, Stmt, StmtError, Ticket, Why,
    Xid,
};
use std::alloc::Global;

/// A guarded local transaction, by its number: open already, refused, busy, or opened. One that isn't here is ignored.
pub(crate) fn local(
    alloc: Global,
    memory: &Memory,
    setup: &Setup,
    txns: &LocalTxns,
    number: u16,
) -> Result<Answer, NoMemory>
    requires room { txns.now.opened < 2 ^ 32 - 1 }
    requires counted { AreCounted setup.now }
    ensures { IfOk result (Answers setup.now memory.now txns.now (input.Local number)) }
{
    let Some(stmts) = local_of(setup, number) else {
        return Ok(ignored());
    };
    if txns.find_call(Xid(0), number).is_some() {
        return Ok(rests(Act::WaitingLocal { number }, None));
    }
    let ticket = txns.next();
    in_ticket(ticket.boot, ticket.seq);
    new_local(alloc, memory.tables(), setup.number, txns, number, stmts)
}

// One that isn't open.
fn new_local(
    alloc: Global,
    tables: &Tables,
    resource: u16,
    txns: &LocalTxns,
    number: u16,
    stmts: &Shared<List<Stmt>>,
) -> Result<Answer, NoMemory>
    requires room { txns.now.opened < 2 ^ 32 - 1 }
    requires statements { length stmts.now ≤ FIELD_ITEMS }
    ensures { IfOk result (λ a. a ≡ looked.local_meant resource txns.now number stmts.now (effect tables.now stmts.now)) }
{
    match txns.plan(alloc, Xid(0), number, 0, stmts, tables) {
        Ok(txn) => opened(alloc, resource, opening(&txn), txn),
        Err(why) => unopened(alloc, number, why),
    }
}

// The act that opens its ticket.
fn opening(txn: &OpenTxn) -> Act
    ensures { result ≡ Act.OpenedLocal txn.now.call txn.now.ticket }
{
    Act::OpenedLocal {
        number: txn.call,
        ticket: txn.ticket,
    }
}

// No ticket is opened, and why.
fn unopened(alloc: Global, number: u16, why: ExecError) -> Result<Answer, NoMemory>
    ensures { IfOk result (looked.Unopened number why) }
{
    match why {
        ExecError::Stmt { index, why } => Ok(refused(number, index, why)),
        ExecError::Busy { key, by } => busy(alloc, number, &key, by),
        ExecError::NoMemory => Err(NoMemory),
    }
}

/// What the coordinator says of the rows of a ticket; ignored unless a guarded local transaction has it open.
pub(crate) fn lock_answered(
    alloc: Global,
    memory: &Memory,
    txns: &LocalTxns,
    ticket: Ticket,
    held: &Option<(RowKey, Xid)>,
) -> Result<Answer, NoMemory>
    requires { AreOpenOn memory.now txns.now }
    ensures { IfOk result (λ a. (is : TheSetup) →
        Hears is memory.now txns.now (message.LockAnswer ticket held.now) a) }
{
    match local_at(txns, ticket) {
        Some(txn) => local_answered(alloc, txn, held),
        None => Ok(ignored()),
    }
}

/// What the coordinator says of the rows of a guarded local transaction, whose ticket is open: it commits, or is dropped where one
/// of them is held.
pub fn local_answered(
    alloc: Global,
    txn: &OpenTxn,
    held: &Option<(RowKey, Xid)>,
) -> Result<Answer, NoMemory>
    ensures { IfOk result (λ a. a ≡ looked.lock_answered txn.now held.now) }
{
    match held {
        Some((key, holder)) => dropped(alloc, txn, key, *holder),
        None => committed(alloc, txn),
    }
}

// A row is held.
fn dropped(alloc: Global, txn: &OpenTxn, key: &RowKey, holder: Xid) -> Result<Answer, NoMemory>
    ensures { IfOk result (λ a. a ≡ looked.lock_answered txn.now (Some (key.now, holder))) }
{
    let act = Act::DroppedLocal {
        number: txn.call,
        ticket: txn.ticket,
        key: key.copy(alloc)?,
        holder,
    };
    Ok(Answer {
        step: Step { act, sent: None },
        asked: None,
        change: Change::Closes(txn.ticket),
    })
}

// No row is held.
fn committed(alloc: Global, txn: &OpenTxn) -> Result<Answer, NoMemory>
    ensures { IfOk result (λ a. a ≡ looked.lock_answered txn.now None) }
{
    let number = txn.call;
    let item = ResourceRecord::LocalCommitted {
        number,
        images: txn.images.copy(alloc)?,
    };
    let ticket = txn.ticket;
    Ok(Answer {
        step: Step {
            act: Act::Durable(Durable::LocalCommitted { number, ticket }),
            sent: None,
        },
        asked: Some(item),
        change: Change::Closes(ticket),
    })
}

/// An outside write, by its number: refused, busy, or done. One that isn't here is ignored.
pub(crate) fn outside(
    alloc: Global,
    memory: &Memory,
    setup: &Setup,
    txns: &LocalTxns,
    number: u16,
) -> Result<Answer, NoMemory>
    requires { AreCounted setup.now }
    ensures { IfOk result (Answers setup.now memory.now txns.now (input.Outside number)) }
{
    let Some(stmts) = local_of(setup, number) else {
        return Ok(ignored());
    };
    outside_for(alloc, memory, txns, number, stmts.get().as_slice())
}

/// An outside write, by its number and its statements: refused, busy, or done.
pub fn outside_for(
    alloc: Global,
    memory: &Memory,
    txns: &LocalTxns,
    number: u16,
    stmts: &[Stmt],
) -> Result<Answer, NoMemory>
    requires { length stmts.now ≤ FIELD_ITEMS }
    ensures rules { IfOk result (WritesWith memory.now txns.now.opens number stmts.now) }
    ensures known { IfOk result (λ a. a ≡ writes_on memory.now txns.now.opens number stmts.now) }
{
    let known = memory.kept();
    outside_meant(alloc, known.tables(), txns, number, stmts)
}

fn outside_meant(
    alloc: Global,
    tables: &Tables,
    txns: &LocalTxns,
    number: u16,
    stmts: &[Stmt],
) -> Result<Answer, NoMemory>
    requires { length stmts.now ≤ FIELD_ITEMS }
    ensures { IfOk result (λ a. a ≡ looked.outside_meant txns.now.opens number (effect tables.now stmts.now)) }
{
    match meaning(alloc, tables, stmts)? {
        Ok(effect) => outside_free(alloc, txns, number, effect),
        Err((index, why)) => Ok(refused(number, index, why)),
    }
}

fn outside_free(
    alloc: Global,
    txns: &LocalTxns,
    number: u16,
    effect: Effect,
) -> Result<Answer, NoMemory>
    ensures { IfOk result (λ a. a ≡ looked.outside_meant txns.now.opens number (Ok effect)) }
{
    if let Some((key, by)) = txns.busy(&effect) {
        return busy(alloc, number, key, by);
    }
    let Effect { images, .. } = effect;
    let act = Act::Durable(Durable::Outside { number });
    Ok(rests(act, Some(ResourceRecord::Outside { number, images })))
}

// A statement has no meaning.
fn refused(number: u16, index: u16, why: StmtError) -> Answer
    ensures { (opens : Items Open) → result ≡ looked.outside_meant opens number (Err (index, why)) }
{
    let act = Act::RefusedLocal {
        number,
        why: Why::Stmt { index, why },
    };
    rests(act, None)
}

// An open ticket has a row.
fn busy(alloc: Global, number: u16, key: &RowKey, by: Ticket) -> Result<Answer, NoMemory>
    ensures { IfOk result (λ a. (e : TheEffect) → a ≡ looked.outside_free number e (Some (key.now, by))) }
{
    let act = Act::BusyLocal {
        number,
        key: key.copy(alloc)?,
        by,
    };
    Ok(rests(act, None))
}
