//! The coordinator's answers to registrations.
ghost use Rattle.std.specs.Prelude.{◌≡◌, ◌≤◌, ◌<◌, ◌^◌, [], length, Some, None, Ok, IfOk};
ghost use Rattle.std.specs.Option.{option_copied};
ghost use Rattle.seata_types.specs.declared.acts.Act.TheVariants as act;
ghost use Rattle.seata_types.specs.declared.ids.Xid.{Xid as TheXid};
ghost use Rattle.seata_types.specs.declared.limits.TheConstants.{FIELD_ITEMS};
ghost use Rattle.seata_types.specs.declared.messages.CallAnswer.TheVariants as called;
ghost use Rattle.seata_types.specs.declared.messages.Message.TheVariants as message;
ghost use Rattle.local_tables.specs.Calls.{effect};
ghost use Rattle.tcc_fence.specs.Meanings.{answer_of};
ghost use Rattle.local_txn.specs.Answers.{open_of, raised};
ghost use Rattle.history_rules.specs.Own.{still};
ghost use Rattle.history_rules.specs.ResourceRules.{answers};
ghost use Rattle.resource_rules.specs.Answers.{AreOpenOn, Hears, answer_by};
ghost use Rattle.resource_rules.specs.Grants as looked;
ghost use Rattle.resource_rules.specs.declared.answers.Change.TheVariants as change;

use crate::answers::{Answer, Change};
use crate::lookups::{call_at, entry};
use crate::meanings::{meaning, untouched};
use crate::setups::Setup;
use crate::telling::{ignored, in_word, tells};
use durable_records::ResourceRecord;
use local_tables::{Effect, Tables};
use local_txn::{LocalTxns, OpenTxn};
use resource_memory::Memory;
use seata_types::{
    Act, CallAnswer, Duplicate, Durable, Leg, NoMemory, Registered, Step, Stmt, Ticket, Why, Work,
    Xid,
};
use std::alloc::Global;
use tcc_fence::FenceAnswer;
use undo_log::UndoEntry;

/// What the coordinator says to the registration of a ticket; ignored unless a call has it open.
pub(crate) fn registered(
    alloc: Global,
    memory: &Memory,
    setup: &Setup,
    txns: &LocalTxns,
    ticket: Ticket,
    answer: &Registered,
) -> Result<Answer, NoMemory>
    requires { AreOpenOn memory.now txns.now }
    ensures { IfOk result (λ a. (xid : TheXid) →
        Hears setup.now memory.now txns.now (message.RegisterAnswer ticket xid answer.now) a) }
{
    let Some(txn) = call_at(txns, ticket) else {
        return Ok(ignored());
    };
    in_word(setup.tries);
    let known = memory.kept();
    match answer {
        Registered::Granted { branch } => {
            let leg = Leg {
                xid: txn.xid,
                branch: *branch,
            };
            granted(alloc, known, txn, leg)
        }
        Registered::Conflict {
            key: _,
            holder,
            rolling,
        } => conflicted(alloc, setup.tries, txn, *holder, *rolling),
        Registered::Closed { status } => {
            dropped(alloc, txn, txn.xid, Why::Closed { status: *status })
        }
        Registered::Late => dropped(alloc, txn, txn.xid, Why::Late),
    }
}

/// The branch of the ticket of a call was granted: the local transaction commits, or the Try runs. The ticket is dropped where the
/// branch is marked, where its fence refuses, and where a statement of its Try has no meaning or touched no row; a branch that
/// committed before is ignored.
pub fn granted(alloc: Global, memory: &Memory, txn: &OpenTxn, leg: Leg) -> Result<Answer, NoMemory>
    requires { looked.IsCountedTry txn.now.work }
    ensures { IfOk result (λ a. a ≡ looked.granted memory.now txn.now leg txn.now.work) }
{
    match &txn.work {
        Work::At(_) => at_granted(alloc, txn, leg, entry(memory, leg)),
        Work::Tcc(action) => {
            let fence = memory.fence().on_try(leg);
            let stmts = action.get().tries.as_slice();
            tcc_granted(alloc, memory.tables(), txn, leg, fence, stmts)
        }
    }
}

// An AT branch commits locally, where it has neither an undo record nor a marker.
fn at_granted(
    alloc: Global,
    txn: &OpenTxn,
    leg: Leg,
    found: Option<&UndoEntry>,
) -> Result<Answer, NoMemory>
    ensures { IfOk result (λ a. a ≡ looked.at_granted txn.now leg (option_copied found.entry)) }
{
    match found {
        Some(UndoEntry::Normal(_)) => Ok(ignored()),
        Some(UndoEntry::Finished) => dropped(alloc, txn, leg.xid, Why::Marker),
        None => {
            let Leg { xid, branch } = leg;
            let item = ResourceRecord::Committed {
                xid,
                branch,
                call: txn.call,
                images: txn.images.copy(alloc)?,
                reads: txn.reads.copy(alloc)?,
            };
            let asked = Durable::Committed {
                xid,
                branch,
                ticket: txn.ticket,
            };
            Ok(done(txn, leg, asked, item))
        }
    }
}

// The Try of a TCC branch runs, where the fence lets it.
fn tcc_granted(
    alloc: Global,
    tables: &Tables,
    txn: &OpenTxn,
    leg: Leg,
    fence: FenceAnswer,
    stmts: &[Stmt],
) -> Result<Answer, NoMemory>
    requires { length stmts.now ≤ FIELD_ITEMS }
    ensures { IfOk result (λ a. a ≡ looked.tcc_granted txn.now leg (effect tables.now stmts.now) (answer_of fence)) }
{
    match fence {
        FenceAnswer::Run => run_try(alloc, tables, txn, leg, stmts),
        FenceAnswer::Already => dropped(alloc, txn, leg.xid, Why::Fence),
        FenceAnswer::Suspend => dropped(alloc, txn, leg.xid, Why::Fence),
        FenceAnswer::Refuse => dropped(alloc, txn, leg.xid, Why::Fence),
    }
}

// The Try of a branch runs, where each statement has a meaning and touches a row.
fn run_try(
    alloc: Global,
    tables: &Tables,
    txn: &OpenTxn,
    leg: Leg,
    stmts: &[Stmt],
) -> Result<Answer, NoMemory>
    requires { length stmts.now ≤ FIELD_ITEMS }
    ensures { IfOk result (λ a. a ≡ looked.try_meant txn.now leg (effect tables.now stmts.now)) }
{
    match meaning(alloc, tables, stmts)? {
        Ok(effect) => tried(alloc, txn, leg, effect),
        Err((index, why)) => dropped(alloc, txn, leg.xid, Why::Stmt { index, why }),
    }
}

fn tried(alloc: Global, txn: &OpenTxn, leg: Leg, effect: Effect) -> Result<Answer, NoMemory>
    requires { length effect.touched ≤ FIELD_ITEMS }
    ensures { IfOk result (λ a. a ≡ looked.try_meant txn.now leg (Ok effect)) }
{
    let Leg { xid, branch } = leg;
    let Effect {
        images,
        touched,
        ..
    } = effect;
    if let Some(index) = untouched(touched.as_slice()) {
        return dropped(alloc, txn, xid, Why::NoRow { index });
    }
    let item = ResourceRecord::Tried {
        xid,
        branch,
        call: txn.call,
        images,
    };
    let asked = Durable::Tried {
        xid,
        branch,
        ticket: txn.ticket,
    };
    Ok(done(txn, leg, asked, item))
}

// Another transaction holds a row that a ticket asks for.
fn conflicted(
    alloc: Global,
    tries: u32,
    txn: &OpenTxn,
    holder: Xid,
    rolling: bool,
) -> Result<Answer, NoMemory>
    ensures { IfOk result (λ a. a ≡ looked.conflicted tries txn.now holder rolling) }
{
    match why_last(tries, txn, holder, rolling) {
        Some(cause) => dropped(alloc, txn, txn.xid, cause),
        None => Ok(counted(txn)),
    }
}

/// The act by which a conflict of the open ticket of a call is met: it is dropped where the transaction that holds the row is rolled
/// back, or at the last of `tries`; else the conflict is counted. Takes no memory.
pub fn conflict_act(tries: u32, txn: &OpenTxn, holder: Xid, rolling: bool) -> Act
    ensures { result ≡ (looked.meets tries txn.now holder rolling).act }
{
    match why_last(tries, txn, holder, rolling) {
        Some(why) => Act::Dropped {
            xid: txn.xid,
            call: txn.call,
            ticket: txn.ticket,
            why,
        },
        None => counts(txn),
    }
}

// Why a conflict drops the ticket, if it drops it.
fn why_last(tries: u32, txn: &OpenTxn, holder: Xid, rolling: bool) -> Option<Why>
    ensures why { result ≡ looked.cause_of (looked.meets tries txn.now holder rolling).act }
    ensures word { tries < 2 ^ 32 }
{
    if rolling {
        return Some(Why::Rolling { holder });
    }
    if txn.conflicts.saturating_add(1) >= tries {
        return Some(Why::Tries);
    }
    None
}

// A conflict of a ticket is counted; the count stands still at its type's end.
fn counts(txn: &OpenTxn) -> Act
    ensures { result ≡ act.Conflicted txn.now.ticket (raised (open_of txn.now)) }
{
    Act::Conflicted {
        ticket: txn.ticket,
        count: txn.conflicts.saturating_add(1),
    }
}

fn counted(txn: &OpenTxn) -> Answer
    ensures { result ≡ answer_by 0 [] [] (still (act.Conflicted txn.now.ticket (raised (open_of txn.now)))) }
{
    Answer {
        step: Step {
            act: counts(txn),
            sent: None,
        },
        asked: None,
        change: Change::Counts(txn.ticket),
    }
}

// The ticket of a call is dropped.
fn dropped(alloc: Global, txn: &OpenTxn, xid: Xid, cause: Why) -> Result<Answer, NoMemory>
    ensures { IfOk result (λ a. a ≡ looked.dropped txn.now xid cause) }
{
    let Ok(told) = cause.copy(alloc) else {
        drop(cause);
        return Err(NoMemory);
    };
    let act = Act::Dropped {
        xid,
        call: txn.call,
        ticket: txn.ticket,
        why: cause,
    };
    Ok(Answer {
        step: tells(
            txn.manager,
            xid,
            txn.call,
            act,
            CallAnswer::Failed { why: told },
        ),
        asked: None,
        change: Change::Closes(txn.ticket),
    })
}

// The work of a call is done as this branch.
fn done(txn: &OpenTxn, leg: Leg, asked: Durable, item: ResourceRecord) -> Answer
    ensures { result ≡ record {
      step = answers txn.now.manager leg.xid.0 txn.now.call (act.Durable asked) (called.Done leg.branch);
      asked = Some item;
      change = change.Closes txn.now.ticket;
    } }
{
    let Leg { xid, branch } = leg;
    let act = Act::Durable(asked);
    Answer {
        step: tells(txn.manager, xid, txn.call, act, CallAnswer::Done { branch }),
        asked: Some(item),
        change: Change::Closes(txn.ticket),
    }
}
