//! Guarded local transactions.
ghost use Rattle.std.specs.Prelude.{◌≡◌, ◌<◌, ◌≤◌, ◌^◌, ◌-◌, false, None, [], length, IfSome};
ghost use Rattle.seata_types.specs.declared.limits.TheConstants.{FIELD_ITEMS};
ghost use Rattle.local_tables.specs.Calls.{effect};
ghost use Rattle.durable_records.specs.declared.resources.ResourceRecord.TheVariants as log;
ghost use Rattle.local_txn.specs.OpenTickets.{open_at};
ghost use Rattle.resource_rules.specs.Locals.{lock_answered};
ghost use Rattle.resource_store.specs.Keeping.{known, is_down};
ghost use Rattle.resource_store.specs.Answers.{Gives, Leaves, TakesRows};
ghost use Rattle.rule_calls.specs.Calls.{told_of};
ghost use Rattle.rule_calls.specs.Openings.{TellsLocal};
ghost use Rattle.local_guard.specs.Locals.{closed, ended_by, tickets_after, Drops, Frees, MayCommit, OpensLocal};

use disk_model::Disk;
use local_txn::{ExecError, LocalTxns, OpenTxn};
use resource_rules::{local_answered, local_at};
use resource_store::Store;
use rule_calls::carry_out;
use seata_types::{Act, Durable, List, NoMemory, Shared, Stmt, StoreError, Ticket, Xid};
use std::alloc::Global;

/// Opens a guarded local transaction by its number, on the tables as they are now: the ticket, or the first statement without a
/// meaning, counted from 1, or else the least row that another open ticket has. The store stays as it is.
pub fn open_local<D: Disk>(
    alloc: Global,
    store: &Store<D>,
    txns: &mut LocalTxns,
    number: u16,
    stmts: &Shared<List<Stmt>>,
) -> Result<Ticket, ExecError>
    requires statements { length stmts.now ≤ FIELD_ITEMS }
    requires tickets { txns.old.opened < 2 ^ 32 - 1 }
    ensures opens { OpensLocal (known store.now).tables number stmts.now result txns.old txns.new }
    ensures rules { TellsLocal txns.old number (effect (known store.now).tables stmts.now) result }
{
    txns.execute(alloc, Xid(0), number, 0, stmts, store.tables())
}

/// No transaction holds a row of a ticket: its guarded local transaction commits, and isn't open any more. Its number, or none
/// exactly where the ticket isn't that of an open one. After an error it is open as before.
pub fn on_free<D: Disk>(
    alloc: Global,
    store: &mut Store<D>,
    txns: &mut LocalTxns,
    ticket: Ticket,
) -> Result<Option<u16>, StoreError>
    requires up { is_down store.old ≡ false }
    requires may { IfSome (open_at txns.old.opens ticket) (MayCommit (known store.old).tables) }
    ensures answer { Frees D.state txns.old.opens ticket result store.old store.new }
    ensures leaves { Leaves D.state result store.old store.new }
    ensures tickets { txns.new ≡ tickets_after ticket result txns.old }
{
    let Some(txn) = local_at(txns, ticket) else {
        return Ok(None);
    };
    match free(alloc, store, txn) {
        Ok(number) => {
            close(txns, ticket, number);
            Ok(number)
        }
        Err(error) => Err(error),
    }
}

// Commits a guarded local transaction, whose ticket is open.
fn free<D: Disk>(
    alloc: Global,
    store: &mut Store<D>,
    txn: &OpenTxn,
) -> Result<Option<u16>, StoreError>
    requires up { is_down store.old ≡ false }
    requires may { TakesRows (known store.old).tables txn.now.images [] (log.LocalCommitted txn.now.call txn.now.images) }
    ensures gives { Gives D.state (told_of ended_by (lock_answered txn.now None)) result store.old store.new }
    ensures leaves { Leaves D.state result store.old store.new }
{
    match local_answered(alloc, txn, &None) {
        Ok(answer) => match carry_out(alloc, store, answer) {
            Ok(act) => Ok(ended_by(&act)),
            Err(error) => Err(error),
        },
        Err(NoMemory) => Err(StoreError::NoMemory),
    }
}

// The number of the local transaction that ends with an act.
fn ended_by(act: &Act) -> Option<u16>
    ensures { result ≡ ended_by act.now }
{
    match act {
        Act::Durable(Durable::LocalCommitted { number, .. }) => Some(*number),
        Act::DroppedLocal { number, .. } => Some(*number),
        _ => None,
    }
}

/// A transaction holds a row of a ticket: its guarded local transaction is given up, and isn't open any more. Its number, or none
/// exactly where the ticket isn't that of an open one. Takes no memory.
pub fn on_held(txns: &mut LocalTxns, ticket: Ticket) -> Option<u16>
    ensures number { Drops txns.old.opens ticket result }
    ensures tickets { txns.new ≡ closed ticket result txns.old }
{
    let Some(txn) = local_at(txns, ticket) else {
        return None;
    };
    let number = Some(txn.call);
    close(txns, ticket, number);
    number
}

// A ticket isn't open any more, where it is that of a guarded local transaction.
fn close(txns: &mut LocalTxns, ticket: Ticket, number: Option<u16>)
    ensures { txns.new ≡ closed ticket number txns.old }
{
    match number {
        Some(_) => drop(txns.take(ticket)),
        None => {}
    }
}
