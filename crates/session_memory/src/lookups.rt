//! Look-ups among transactions and their branches.
ghost use Rattle.std.specs.Prelude.{◌≡◌, ◌≤◌, ◌+◌, ◌&&◌, find, map, length, option_map, IfOk};
ghost use Rattle.std.specs.List.{list_all, list_any, position};
ghost use Rattle.std.specs.Option.{option_copied};
ghost use Rattle.session_log.specs.Soundness.{entry_xid, is_at_branch, is_open_with};
ghost use Rattle.session_memory.specs.Lookups.{has_number, has_xid, session_of, has_manager, was_of_manager, xid_of, forgotten_xid, has_ticket, has_call, is_with, leg_with};
ghost use Rattle.session_memory.specs.Order.{AreRising, branch_number};
ghost use Rattle.durable_records.specs.Branches.{is_at, same_ticket};

use lock_table::Steps;
use seata_types::{BranchId, BranchKind, Leg, List, NoMemory, Ticket, Xid};
use session_log::{Branch, Forgotten, Session, SessionEntry};
use std::alloc::Global;
use std::sync::ledger::Ledger;

/// Where a transaction stands, by a search: the numbers rise.
pub(crate) fn place(sessions: &[SessionEntry], xid: Xid) -> Option<usize>
    requires rising { AreRising entry_xid sessions.now }
    ensures { result ≡ position (has_xid xid.0) sessions.now }
{
    match sessions.binary_search_by_key(&xid.0, |entry| entry.xid.0) {
        Ok(at) => Some(at),
        Err(_) => None,
    }
}

/// A transaction, where it is known.
pub(crate) fn session(sessions: &[SessionEntry], xid: Xid) -> Option<&Session>
    requires rising { AreRising entry_xid sessions.now }
    ensures { option_copied result ≡ option_map session_of (find (has_xid xid.0) sessions.now) }
{
    match place(sessions, xid) {
        Some(at) => Some(&sessions[at].session),
        None => None,
    }
}

/// The transaction that a manager began, where it is known.
pub(crate) fn known_xid(sessions: &[SessionEntry], manager: u16) -> Option<Xid>
    ensures { result ≡ option_map xid_of (find (has_manager manager) sessions.now) }
{
    for entry in sessions {
        if entry.session.manager == manager {
            return Some(entry.xid);
        }
    }
    None
}

/// The transaction that a manager began, where it is forgotten.
pub(crate) fn forgotten_xid(forgotten: &[Forgotten], manager: u16) -> Option<Xid>
    ensures { result ≡ option_map forgotten_xid (find (was_of_manager manager) forgotten.now) }
{
    for entry in forgotten {
        if entry.manager == manager {
            return Some(entry.xid);
        }
    }
    None
}

fn is_at(branch: &Branch) -> bool
    ensures { result ≡ is_at_branch branch.now }
{
    matches!(branch.place.kind, BranchKind::At)
}

fn same_ticket(one: Ticket, other: Ticket) -> bool
    ensures { result ≡ same_ticket one other }
{
    one.boot == other.boot && one.seq == other.seq
}

fn has_ticket(branch: &Branch, resource: u16, ticket: Ticket) -> bool
    ensures { result ≡ has_ticket resource ticket branch.now }
{
    is_at(branch) && branch.place.resource == resource && same_ticket(branch.place.ticket, ticket)
}

fn has_call(branch: &Branch, resource: u16, call: u16) -> bool
    ensures { result ≡ has_call resource call branch.now }
{
    !is_at(branch) && branch.place.resource == resource && branch.place.call == call
}

/// The first branch of a call. A step is a branch that is passed.
pub(crate) fn leg<L: Ledger>(
    xid: Xid,
    branches: &[Branch],
    resource: u16,
    call: u16,
    steps: &mut Steps<L>,
) -> Option<Leg>
    ensures leg { result ≡ leg_with (has_call resource call) xid branches.now }
    ensures cost { steps.new ≤ steps.old + length branches.now }
{
    for branch in branches {
        steps.tick();
        if has_call(branch, resource, call) {
            return Some(Leg {
                xid,
                branch: branch.id,
            });
        }
    }
    None
}

/// Whether all branches are AT.
pub(crate) fn are_at(branches: &[Branch]) -> bool
    ensures { result ≡ list_all is_at_branch branches.now }
{
    branches.iter().all(|branch| is_at(branch))
}

/// Where a branch stands, by a search: the numbers rise.
pub(crate) fn branch_place(branches: &[Branch], id: BranchId) -> Option<usize>
    requires rising { AreRising branch_number branches.now }
    ensures { result ≡ position (has_number id.0) branches.now }
{
    match branches.binary_search_by_key(&id.0, |branch| branch.id.0) {
        Ok(at) => Some(at),
        Err(_) => None,
    }
}

/// Whether this is a branch that isn't ended.
pub(crate) fn has_open(branches: &[Branch], id: BranchId) -> bool
    requires rising { AreRising branch_number branches.now }
    ensures { result ≡ list_any (is_open_with id.0) branches.now }
{
    match branch_place(branches, id) {
        Some(at) => !branches[at].ended,
        None => false,
    }
}

/// Whether this is a branch of a ticket.
pub(crate) fn is_with(branches: &[Branch], id: BranchId, resource: u16, ticket: Ticket) -> bool
    requires rising { AreRising branch_number branches.now }
    ensures { result ≡ list_any (is_with id.0 resource ticket) branches.now }
{
    match branch_place(branches, id) {
        Some(at) => has_ticket(&branches[at], resource, ticket),
        None => false,
    }
}

/// The numbers of these transactions, in their order.
pub(crate) fn xids(alloc: Global, sessions: &[SessionEntry]) -> Result<List<Xid>, NoMemory>
    ensures { IfOk result (λ xids. xids ≡ map xid_of sessions.now) }
{
    let mut xids = Vec::new(alloc);
    for entry in sessions {
        xids.push(entry.xid)?;
    }
    Ok(List::of(xids))
}
