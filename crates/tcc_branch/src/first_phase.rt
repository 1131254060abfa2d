//! The first phase of TCC branches.
ghost use Rattle.std.specs.Prelude.{◌≡◌, ◌<◌, ◌^◌, ◌-◌, false, Ok, IfSome, IfOk};
ghost use Rattle.seata_types.specs.declared.statements.Work.TheVariants.{Tcc};
ghost use Rattle.local_txn.specs.OpenTickets.{no_effect, open_at};
ghost use Rattle.local_txn.specs.Answers.{open_of, owner_by, Prepares};
ghost use Rattle.resource_rules.specs.Grants as looked;
ghost use Rattle.resource_store.specs.Keeping.{known, is_down};
ghost use Rattle.resource_store.specs.Answers.{Gives, Leaves};
ghost use Rattle.rule_calls.specs.Calls.{told_of};
ghost use Rattle.rule_calls.specs.Openings.{TellsCall};
ghost use Rattle.tcc_branch.specs.Tries.{tried_by, tickets_after, Grants, MayTry, StaysUnlessTried, TellsOn};

use crate::answers::TryAnswer;
use disk_model::Disk;
use local_txn::{LocalTxns, OpenTxn};
use resource_rules::granted;
use resource_store::Store;
use rule_calls::carry_out;
use seata_types::{Act, Action, Leg, NoMemory, Shared, StoreError, Ticket, Xid};
use std::alloc::Global;

/// Opens a ticket of no rows for a TCC call, whose Try runs once it is granted. Without memory all is as before.
pub fn prepare(
    alloc: Global,
    txns: &mut LocalTxns,
    xid: Xid,
    call: u16,
    manager: u16,
    action: &Shared<Action>,
) -> Result<Ticket, NoMemory>
    requires { txns.old.opened < 2 ^ 32 - 1 }
    ensures opens { Prepares txns.old (owner_by xid.0 manager call (Tcc action.now)) result txns.new }
    ensures rules { IfOk result (λ t.
        TellsCall txns.old manager xid.0 call (Tcc action.now) (Ok no_effect) (Ok t)) }
{
    txns.prepare(alloc, xid, call, manager, action)
}

/// The branch of a ticket, which is of a TCC call where it is open, was granted: its Try runs, where the branch has no fence and
/// each statement has a meaning and touches a row, and the ticket isn't open any more. Else it is open as before.
pub fn on_grant<D: Disk>(
    alloc: Global,
    store: &mut Store<D>,
    txns: &mut LocalTxns,
    ticket: Ticket,
    leg: Leg,
) -> Result<TryAnswer, StoreError>
    requires up { is_down store.old ≡ false }
    requires may { IfSome (open_at txns.old.opens ticket) (MayTry (known store.old).tables leg) }
    ensures answer { Grants D.state txns.old.opens ticket leg result store.old store.new }
    ensures told { IfOk result (TellsOn (known store.old) leg (open_at txns.old.opens ticket)) }
    ensures leaves { Leaves D.state result store.old store.new }
    ensures stays { StaysUnlessTried result store.old store.new }
    ensures tickets { txns.new ≡ tickets_after ticket result txns.old }
{
    let Some(txn) = txns.find(ticket) else {
        return Ok(TryAnswer::NotOpen);
    };
    match grant(alloc, store, txn, leg) {
        Ok(answer) => {
            close(txns, ticket, &answer);
            Ok(answer)
        }
        Err(error) => Err(error),
    }
}

// A ticket whose Try ran isn't open any more.
fn close(txns: &mut LocalTxns, ticket: Ticket, answer: &TryAnswer)
    ensures { txns.new ≡ tickets_after ticket (Ok answer.now) txns.old }
{
    match answer {
        TryAnswer::Tried => drop(txns.take(ticket)),
        TryAnswer::Refused { why: _ } => {}
        TryAnswer::NotOpen => {}
    }
}

// Runs the Try of an open ticket.
fn grant<D: Disk>(
    alloc: Global,
    store: &mut Store<D>,
    txn: &OpenTxn,
    leg: Leg,
) -> Result<TryAnswer, StoreError>
    requires up { is_down store.old ≡ false }
    requires may { MayTry (known store.old).tables leg (open_of txn.now) }
    ensures gives { Gives D.state (told_of tried_by (looked.granted (known store.old) txn.now leg txn.now.work)) result store.old store.new }
    ensures leaves { Leaves D.state result store.old store.new }
    ensures stays { StaysUnlessTried result store.old store.new }
{
    match granted(alloc, store.memory(), txn, leg) {
        Ok(answer) => match carry_out(alloc, store, answer) {
            Ok(act) => Ok(tried_by(act)),
            Err(error) => Err(error),
        },
        Err(NoMemory) => Err(StoreError::NoMemory),
    }
}

// What the act of a grant tells.
fn tried_by(act: Act) -> TryAnswer
    ensures { result ≡ tried_by act }
{
    match act {
        Act::Durable(_) => TryAnswer::Tried,
        Act::Dropped { why, .. } => TryAnswer::Refused { why },
        _ => TryAnswer::NotOpen,
    }
}
