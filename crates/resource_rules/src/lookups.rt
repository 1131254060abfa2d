//! What is known of a branch, and what is open under a ticket.
ghost use Rattle.std.specs.Prelude.{◌≡◌, option_map};
ghost use Rattle.std.specs.Option.{option_copied};
ghost use Rattle.undo_log.specs.Entries.{entry_at};
ghost use Rattle.local_txn.specs.OpenTickets.{open_at};
ghost use Rattle.local_txn.specs.Answers.{open_of};
ghost use Rattle.resource_rules.specs.Owned.{of_call, of_local};

use crate::telling::is_nobody;
use local_txn::{LocalTxns, OpenTxn};
use resource_memory::Memory;
use seata_types::{Leg, Ticket};
use undo_log::UndoEntry;

/// What stands in the undo log at a branch; takes no memory.
pub(crate) fn entry(memory: &Memory, leg: Leg) -> Option<&UndoEntry>
    ensures { option_copied result ≡ entry_at memory.now.undo_log leg }
{
    memory.undo_log().find(leg)
}

/// The local transaction of a call that has a ticket open, if one has; takes no memory.
pub fn call_at(txns: &LocalTxns, ticket: Ticket) -> Option<&OpenTxn>
    ensures { option_map open_of (option_copied result) ≡ of_call (open_at txns.now.opens ticket) }
{
    let txn = txns.find(ticket)?;
    if is_nobody(txn.xid) { None } else { Some(txn) }
}

/// The guarded local transaction that has a ticket open, if one has; takes no memory.
pub fn local_at(txns: &LocalTxns, ticket: Ticket) -> Option<&OpenTxn>
    ensures { option_map open_of (option_copied result) ≡ of_local (open_at txns.now.opens ticket) }
{
    let txn = txns.find(ticket)?;
    if is_nobody(txn.xid) { Some(txn) } else { None }
}
