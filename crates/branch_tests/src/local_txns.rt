//! Local transactions that aren't opened, since a row is busy or a statement has no meaning, and one whose opening is taken back.
ghost use Rattle.std.specs.Prelude.{◌≡◌, ◌≤◌, ◌+◌};

use crate::samples::{Fail, so, statements, tables};
use local_tables::Tables;
use local_txn::{ExecError, LocalTxns};
use seata_types::{RowKey, Ticket, Value, Xid};
use std::alloc::Global;

/// What an opening answers: the ticket's number, the busy row and its ticket's number, or the statement without a meaning.
#[derive(Clone, Copy, PartialEq)]
enum Answered {
    Opened(u32),
    Busy(i64, u32),
    Refused(u16),
    NoMemory,
}

fn number_of(key: &RowKey) -> i64 {
    match key.pk.as_slice() {
        [Value::Int(number)] => *number,
        _ => 0,
    }
}

fn told(answer: &Result<Ticket, ExecError>) -> Answered {
    match answer {
        Ok(ticket) => Answered::Opened(ticket.seq),
        Err(ExecError::Busy { key, by }) => Answered::Busy(number_of(key), by.seq),
        Err(ExecError::Stmt { index, .. }) => Answered::Refused(*index),
        Err(ExecError::NoMemory) => Answered::NoMemory,
    }
}

/// Call 1 of a transaction, which does this to a table without rows.
fn execute(
    alloc: Global,
    txns: &mut LocalTxns,
    tables: &Tables,
    xid: u64,
    words: &str,
) -> Result<Answered, Fail>
    requires { txns.old.opened ≤ 100 }
    ensures { txns.new.opened ≤ txns.old.opened + 1 }
{
    let stmts = statements(alloc, words)?;
    let answer = txns.execute(alloc, Xid(xid), 1, 1, &stmts, tables);
    Ok(told(&answer))
}

/// Call 1 of a transaction, whose opening is taken back at once: the number of its ticket.
fn execute_and_withdraw(
    alloc: Global,
    txns: &mut LocalTxns,
    tables: &Tables,
    xid: u64,
    words: &str,
) -> Result<u32, Fail>
    requires { txns.old.opened ≤ 100 }
    ensures { txns.new.opened ≤ txns.old.opened + 1 }
{
    let stmts = statements(alloc, words)?;
    match txns.execute(alloc, Xid(xid), 1, 1, &stmts, tables) {
        Ok(ticket) => {
            txns.withdraw(ticket);
            Ok(ticket.seq)
        }
        Err(_) => Err(Fail::Failed),
    }
}

/// Whether calls open tickets, but for the second, whose row is busy, and the third, which has no meaning; and the number of a
/// ticket that is taken back is given again.
fn opens(alloc: Global, txns: &mut LocalTxns, tables: &Tables) -> Result<bool, Fail>
    requires { txns.old.opened ≤ 90 }
{
    let first = "INSERT INTO acc (id, m) VALUES (1, 0), (4, 0)";
    let busy = "INSERT INTO acc (id, m) VALUES (2, 0), (4, 0)";
    let twice = "INSERT INTO acc (id, m) VALUES (7, 0), (7, 0)";
    let second = "INSERT INTO acc (id, m) VALUES (2, 0), (3, 0)";
    let third = "INSERT INTO acc (id, m) VALUES (8, 0), (9, 0)";
    Ok(
        execute(alloc, txns, tables, 1, first)? == Answered::Opened(1)
            && execute(alloc, txns, tables, 2, busy)? == Answered::Busy(4, 1)
            && execute(alloc, txns, tables, 2, twice)? == Answered::Refused(1)
            && execute(alloc, txns, tables, 2, second)? == Answered::Opened(2)
            && execute_and_withdraw(alloc, txns, tables, 3, third)? == 3
            && execute(alloc, txns, tables, 4, third)? == Answered::Opened(3),
    )
}

fn holds(alloc: Global) -> Result<(), Fail> {
    let tables = tables(alloc)?;
    let mut txns = LocalTxns::new(alloc, 3);
    let opens = opens(alloc, &mut txns, &tables)?;
    so(opens, "the tickets")
}

#[test]
fn refuses_calls_and_takes_an_opening_back(rt: HostRuntime) -> Result<(), Fail> {
    holds(rt.alloc())
}
