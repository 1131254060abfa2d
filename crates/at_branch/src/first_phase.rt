//! The first phase of AT branches.
ghost use Rattle.std.specs.Prelude.{◌≡◌, ◌<◌, ◌≤◌, ◌^◌, ◌-◌, false, map, length, Some, Ok, IfSome};
ghost use Rattle.seata_types.specs.declared.limits.TheConstants.{FIELD_ITEMS};
ghost use Rattle.seata_types.specs.declared.statements.Work.TheVariants.{At};
ghost use Rattle.local_tables.specs.Calls.{effect};
ghost use Rattle.local_txn.specs.OpenTickets.{Open, open_at, without, counting};
ghost use Rattle.local_txn.specs.Answers.{open_of, raised, with_opens};
ghost use Rattle.resource_rules.specs.Grants as looked;
ghost use Rattle.resource_store.specs.Keeping.{known, is_down};
ghost use Rattle.resource_store.specs.Answers.{Gives, Leaves};
ghost use Rattle.rule_calls.specs.Calls.{told_of};
ghost use Rattle.rule_calls.specs.Openings.{TellsCall};
ghost use Rattle.at_branch.specs.Grants.{granted_by, tickets_after, Grants, MayCommit, OpensCall};
ghost use Rattle.at_branch.specs.Conflicts.{Counts, GivesUp, ConflictsAs, conflict_of, tickets_with};

use crate::answers::{Conflicted, Granted};
use disk_model::Disk;
use local_txn::{ExecError, LocalTxns, OpenTxn};
use resource_rules::{call_at, conflict_act, granted};
use resource_store::Store;
use rule_calls::carry_out;
use seata_types::{Act, Leg, List, NoMemory, Shared, Stmt, StoreError, Ticket, Why, Xid};
use std::alloc::Global;

/// Opens the local transaction of an AT call, on the tables that the store knows: the ticket, or the first statement without a
/// meaning, counted from 1, or else the least row that another open ticket has. The store stays as it is.
pub fn phase_one<D: Disk>(
    alloc: Global,
    store: &Store<D>,
    txns: &mut LocalTxns,
    xid: Xid,
    call: u16,
    manager: u16,
    stmts: &Shared<List<Stmt>>,
) -> Result<Ticket, ExecError>
    requires statements { length stmts.now ≤ FIELD_ITEMS }
    requires tickets { txns.old.opened < 2 ^ 32 - 1 }
    ensures opens { OpensCall (known store.now).tables manager xid.0 call stmts.now result txns.old txns.new }
    ensures rules { TellsCall txns.old manager xid.0 call (At stmts.now)
        (effect (known store.now).tables stmts.now) result }
{
    txns.execute(alloc, xid, call, manager, stmts, store.tables())
}

/// The global lock was granted for a ticket, which is of an AT call where it is open: its local transaction commits, and isn't
/// open any more. After an error it is open as before.
pub fn on_grant<D: Disk>(
    alloc: Global,
    store: &mut Store<D>,
    txns: &mut LocalTxns,
    ticket: Ticket,
    leg: Leg,
) -> Result<Granted, StoreError>
    requires up { is_down store.old ≡ false }
    requires may { IfSome (open_at txns.old.opens ticket) (MayCommit (known store.old).tables leg) }
    ensures answer { Grants D.state txns.old.opens ticket leg result store.old store.new }
    ensures leaves { Leaves D.state result store.old store.new }
    ensures tickets { txns.new ≡ tickets_after ticket result txns.old }
{
    let Some(txn) = txns.find(ticket) else {
        return Ok(Granted::NotOpen);
    };
    match grant(alloc, store, txn, leg) {
        Ok(granted) => {
            close(txns, ticket, granted);
            Ok(granted)
        }
        Err(error) => Err(error),
    }
}

// Commits the local transaction of an open ticket, where its branch has neither an undo record nor a marker.
fn grant<D: Disk>(
    alloc: Global,
    store: &mut Store<D>,
    txn: &OpenTxn,
    leg: Leg,
) -> Result<Granted, StoreError>
    requires up { is_down store.old ≡ false }
    requires may { MayCommit (known store.old).tables leg (open_of txn.now) }
    ensures gives { Gives D.state (told_of granted_by (looked.granted (known store.old) txn.now leg txn.now.work)) result store.old store.new }
    ensures leaves { Leaves D.state result store.old store.new }
{
    match granted(alloc, store.memory(), txn, leg) {
        Ok(answer) => match carry_out(alloc, store, answer) {
            Ok(act) => Ok(granted_by(&act)),
            Err(error) => Err(error),
        },
        Err(NoMemory) => Err(StoreError::NoMemory),
    }
}

// What the act of a grant tells.
fn granted_by(act: &Act) -> Granted
    ensures { result ≡ granted_by act.now }
{
    match act {
        Act::Durable(_) => Granted::Committed,
        Act::Dropped { .. } => Granted::Marker,
        _ => Granted::NotOpen,
    }
}

// A ticket that committed, or that a marker kept from it, isn't open any more.
fn close(txns: &mut LocalTxns, ticket: Ticket, granted: Granted)
    ensures { txns.new ≡ tickets_after ticket (Ok granted) txns.old }
{
    match granted {
        Granted::Committed => drop(txns.take(ticket)),
        Granted::Marker => drop(txns.take(ticket)),
        Granted::NotOpen => {}
    }
}

/// Another transaction holds a row that a ticket of a call asks for. The call fails where that transaction is rolled back, or
/// at the last of `tries` conflicts of the ticket, which isn't open any more then; else the conflict is counted. Takes no
/// memory.
pub fn on_conflict(
    txns: &mut LocalTxns,
    ticket: Ticket,
    holder: Xid,
    rolling: bool,
    tries: u32,
) -> Conflicted
    ensures answer { ConflictsAs tries holder rolling txns.old.opens ticket result }
    ensures tickets { txns.new ≡ tickets_with ticket (conflict_of result) txns.old }
{
    let Some(txn) = call_at(txns, ticket) else {
        return Conflicted::NotOpen;
    };
    match cause_of(conflict_act(tries, txn, holder, rolling)) {
        Some(why) => give_up(txns, ticket, why),
        None => count(txns, ticket),
    }
}

// Why the act that meets a conflict drops the ticket; none where it counts.
fn cause_of(act: Act) -> Option<Why>
    ensures { result ≡ looked.cause_of act }
{
    match act {
        Act::Dropped { why, .. } => Some(why),
        _ => None,
    }
}

// Counts a conflict of an open ticket.
fn count(txns: &mut LocalTxns, ticket: Ticket) -> Conflicted
    ensures answer { (o : Open) → open_at txns.old.opens ticket ≡ Some o → conflict_of result ≡ Counts (raised o) }
    ensures tickets { (o : Open) → open_at txns.old.opens ticket ≡ Some o → txns.new ≡ with_opens txns.old (map (counting ticket (raised o)) txns.old.opens) }
{
    match txns.conflicted(ticket) {
        Some(count) => Conflicted::Waits(count),
        None => Conflicted::NotOpen,
    }
}

// The call of an open ticket fails.
fn give_up(txns: &mut LocalTxns, ticket: Ticket, why: Why) -> Conflicted
    ensures answer { (o : Open) → open_at txns.old.opens ticket ≡ Some o → conflict_of result ≡ GivesUp o why }
    ensures tickets { txns.new ≡ with_opens txns.old (without txns.old.opens ticket) }
{
    match txns.take(ticket) {
        Some(txn) => Conflicted::GaveUp { txn, why },
        None => Conflicted::NotOpen,
    }
}
