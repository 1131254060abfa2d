//! Open local transactions in the order of their last sending, the one that was sent last first.
ghost use Rattle.std.specs.Prelude.{◌≡◌, ◌<◌, map, find, option_map, IsSome};
ghost use Rattle.std.specs.Option.{option_copied};
ghost use Rattle.std.specs.VecDeque.{deque_len, deque_capacity};
ghost use Rattle.local_txn.specs.OpenTickets.{AreDistinct, open_at, last_of};
ghost use Rattle.local_txn.specs.Answers.{open_of, is_for, ticket_of, raised, counted};
ghost use Rattle.local_txn.specs.RowIndex.{place_from, Raises, without_first};
ghost use Rattle.durable_records.specs.Branches.{same_ticket};

use crate::transactions::OpenTxn;
use seata_types::{Ticket, Xid};
use std::collections::VecDeque;

/// Whether this is the local transaction of a ticket.
fn is_of(txn: &OpenTxn, ticket: Ticket) -> bool
    ensures { result ≡ same_ticket txn.now.ticket ticket }
{
    txn.ticket.boot == ticket.boot && txn.ticket.seq == ticket.seq
}

/// Whether a local transaction was opened for this call, or with transaction 0 for this local transaction.
fn is_for(txn: &OpenTxn, xid: Xid, call: u16) -> bool
    ensures { result ≡ is_for xid.0 call (open_of txn.now) }
{
    txn.xid.0 == xid.0 && txn.call == call
}

/// Where a ticket stands.
fn place(txns: &VecDeque<OpenTxn>, ticket: Ticket) -> Option<usize>
    ensures { result ≡ place_from 0 ticket txns.now.items }
{
    let mut at = 0;
    for txn in txns {
        if is_of(txn, ticket) {
            return Some(at);
        }
        at += 1;
    }
    None
}

pub(crate) fn find(txns: &VecDeque<OpenTxn>, ticket: Ticket) -> Option<&OpenTxn>
    ensures { option_map open_of (option_copied result) ≡ open_at (map open_of txns.now.items) ticket }
{
    for txn in txns {
        if is_of(txn, ticket) {
            return Some(txn);
        }
    }
    None
}

/// The ticket of a call of a transaction.
pub(crate) fn find_call(txns: &VecDeque<OpenTxn>, xid: Xid, call: u16) -> Option<Ticket>
    ensures { result ≡ option_map ticket_of (find (is_for xid.0 call) (map open_of txns.now.items)) }
{
    for txn in txns {
        if is_for(txn, xid, call) {
            return Some(txn.ticket);
        }
    }
    None
}

/// The ticket that was sent longest ago.
pub(crate) fn last(txns: &VecDeque<OpenTxn>) -> Option<Ticket>
    ensures { result ≡ option_map ticket_of (last_of (map open_of txns.now.items)) }
{
    match txns.back() {
        Some(txn) => Some(txn.ticket),
        None => None,
    }
}

/// Takes a ticket out, and leaves room for one.
pub(crate) fn take(txns: &mut VecDeque<OpenTxn>, ticket: Ticket) -> Option<OpenTxn>
    ensures taken { option_map open_of result ≡ open_at (map open_of txns.old.items) ticket }
    ensures left { map open_of txns.new.items ≡ without_first ticket (map open_of txns.old.items) }
    ensures room { IsSome result → deque_len txns.new < deque_capacity txns.new }
{
    match place(txns, ticket) {
        Some(at) => txns.remove(at),
        None => None,
    }
}

// Counts a conflict of the local transaction at a place.
fn raise(txns: &mut VecDeque<OpenTxn>, at: usize) -> u32
    requires { at < deque_len txns.old }
    ensures { Raises txns.old.items at result txns.new.items }
{
    let txn = &mut txns[at];
    txn.conflicts = txn.conflicts.saturating_add(1);
    txn.conflicts
}

/// Counts a conflict of a ticket, and tells the count.
pub(crate) fn count_conflict(txns: &mut VecDeque<OpenTxn>, ticket: Ticket) -> Option<u32>
    requires { AreDistinct (map open_of txns.old.items) }
    ensures count { result ≡ option_map raised (open_at (map open_of txns.old.items) ticket) }
    ensures left { map open_of txns.new.items ≡ counted (open_at (map open_of txns.old.items) ticket) ticket (map open_of txns.old.items) }
{
    match place(txns, ticket) {
        Some(at) => Some(raise(txns, at)),
        None => None,
    }
}
