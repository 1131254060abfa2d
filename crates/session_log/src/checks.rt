//! Which snapshots are sound.
ghost use Rattle.std.specs.Prelude.{◌≡◌, ◌++◌, ◌==◌, ◌&&◌, Bool, nat_eq, not, map, ℕ, IfOk, OnOk};
ghost use Rattle.std.specs.List.{list_all, list_any, flat_map};
ghost use Rattle.durable_records.specs.SessionOrder.{has_resource};
ghost use Rattle.session_log.specs.Soundness.{has_counts, is_numbered_branch, is_open_branch, is_ended_branch, is_at_branch, is_tcc_branch, is_open_with, status_fits, is_failed_status, failure_fits, is_entry, is_forgotten_entry, has_sound_parts, all_differ, entry_xid, entry_manager, forgotten_xid, forgotten_manager, branch_ticket, entry_tickets, branch_call, entry_calls, xids, managers_of, tickets, calls, same_ticket_key, same_call_key, is_sound};

use crate::keys::{CallKey, TicketKey};
use crate::sessions::{Branch, Forgotten, RegisterPlace, SessionEntry, Snapshot};
use durable_records::is_counted;
use seata_types::limits::{ACTS, CALLS};
use seata_types::{BranchId, BranchKind, GlobalStatus, NoMemory, RowKey, Xid};
use std::alloc::Global;
use std::collections::BTreeSet;

fn has_counts(snapshot: &Snapshot) -> bool
    ensures { result ≡ has_counts snapshot.now }
{
    let acts = u64::from(snapshot.acts);
    snapshot.acts < ACTS && snapshot.begun <= acts && snapshot.granted <= acts
}

fn have_resources(resources: u16, keys: &[RowKey]) -> bool
    ensures { result ≡ list_all (has_resource resources) keys.now }
{
    keys.iter()
        .all(|key| is_counted(usize::from(resources), key.resource))
}

fn is_numbered(resources: u16, granted: u64, branch: &Branch) -> bool
    ensures { result ≡ is_numbered_branch resources granted branch.now }
{
    branch.id.0 <= granted
        && is_counted(usize::from(resources), branch.place.resource)
        && is_counted(CALLS, branch.place.call)
        && have_resources(resources, branch.hold.as_slice())
}

fn are_numbered(resources: u16, granted: u64, branches: &[Branch]) -> bool
    ensures { result ≡ list_all (is_numbered_branch resources granted) branches.now }
{
    branches
        .iter()
        .all(|branch| is_numbered(resources, granted, branch))
}

fn are_open(branches: &[Branch]) -> bool
    ensures { result ≡ list_all is_open_branch branches.now }
{
    branches.iter().all(|branch| !branch.ended)
}

fn are_ended(branches: &[Branch]) -> bool
    ensures { result ≡ list_all is_ended_branch branches.now }
{
    branches.iter().all(|branch| branch.ended)
}

fn is_at(branch: &Branch) -> bool
    ensures { result ≡ is_at_branch branch.now }
{
    matches!(branch.place.kind, BranchKind::At)
}

fn are_at(branches: &[Branch]) -> bool
    ensures { result ≡ list_all is_at_branch branches.now }
{
    branches.iter().all(|branch| is_at(branch))
}

fn has_tcc(branches: &[Branch]) -> bool
    ensures { result ≡ list_any is_tcc_branch branches.now }
{
    branches.iter().any(|branch| !is_at(branch))
}

fn status_fits(status: GlobalStatus, branches: &[Branch]) -> bool
    ensures { result ≡ status_fits status branches.now }
{
    match status {
        GlobalStatus::UnKnown => false,
        GlobalStatus::Begin => are_open(branches),
        GlobalStatus::Committing => has_tcc(branches),
        GlobalStatus::CommitRetrying => has_tcc(branches),
        GlobalStatus::Rollbacking => true,
        GlobalStatus::RollbackRetrying => true,
        GlobalStatus::TimeoutRollbacking => true,
        GlobalStatus::TimeoutRollbackRetrying => true,
        GlobalStatus::AsyncCommitting => are_at(branches),
        GlobalStatus::Committed => are_ended(branches),
        GlobalStatus::CommitFailed => true,
        GlobalStatus::Rollbacked => are_ended(branches),
        GlobalStatus::RollbackFailed => true,
        GlobalStatus::TimeoutRollbacked => are_ended(branches),
        GlobalStatus::TimeoutRollbackFailed => true,
        GlobalStatus::Finished => false,
    }
}

fn is_failed_status(status: GlobalStatus) -> bool
    ensures { result ≡ is_failed_status status }
{
    matches!(
        status,
        GlobalStatus::CommitFailed
            | GlobalStatus::RollbackFailed
            | GlobalStatus::TimeoutRollbackFailed
    )
}

fn has_open(id: BranchId, branches: &[Branch]) -> bool
    ensures { result ≡ list_any (is_open_with id.0) branches.now }
{
    branches
        .iter()
        .any(|branch| branch.id.0 == id.0 && !branch.ended)
}

fn failure_fits(status: GlobalStatus, failed: Option<(BranchId, u16)>, branches: &[Branch]) -> bool
    ensures { result ≡ failure_fits status failed branches.now }
{
    match failed {
        None => !is_failed_status(status),
        Some((id, _)) => is_failed_status(status) && has_open(id, branches),
    }
}

fn is_entry(managers: u16, resources: u16, begun: u64, granted: u64, entry: &SessionEntry) -> bool
    ensures { result ≡ is_entry managers resources begun granted entry.now }
{
    let session = &entry.session;
    let branches = session.branches.as_slice();
    entry.xid.0 <= begun
        && is_counted(usize::from(managers), session.manager)
        && status_fits(session.status, branches)
        && failure_fits(session.status, session.failed, branches)
        && are_numbered(resources, granted, branches)
}

fn are_entries(
    managers: u16,
    resources: u16,
    begun: u64,
    granted: u64,
    entries: &[SessionEntry],
) -> bool
    ensures { result ≡ list_all (is_entry managers resources begun granted) entries.now }
{
    entries.iter().all(|entry| is_entry(managers, resources, begun, granted, entry))
}

fn are_forgotten(managers: u16, begun: u64, forgotten: &[Forgotten]) -> bool
    ensures { result ≡ list_all (is_forgotten_entry managers begun) forgotten.now }
{
    forgotten.iter().all(|entry| entry.xid.0 <= begun
        && is_counted(usize::from(managers), entry.manager))
}

// Whether no two of these are equal.
fn all_differ<K: Ord + Copy>(alloc: Global, keys: &[K]) -> Result<bool, NoMemory>
    ensures { IfOk result (λ differ. differ ≡ all_differ K.eq keys.now) }
{
    let mut seen: BTreeSet<K> = BTreeSet::new(alloc);
    for key in keys {
        if seen.contains(key) {
            return Ok(false);
        }
        seen.insert(*key)?;
    }
    Ok(true)
}

// What knows the number and the manager of a transaction.
trait Began {
    ghost xid: { Self → ℕ };

    ghost manager: { Self → ℕ };

    fn xid(&self) -> u64
        ensures { result ≡ xid self.now };

    fn manager(&self) -> u16
        ensures { result ≡ manager self.now };
}

impl Began for SessionEntry {
    ghost xid = { entry_xid };

    ghost manager = { entry_manager };

    fn xid(&self) -> u64 {
        self.xid.0
    }

    fn manager(&self) -> u16 {
        self.session.manager
    }
}

impl Began for Forgotten {
    ghost xid = { forgotten_xid };

    ghost manager = { forgotten_manager };

    fn xid(&self) -> u64 {
        self.xid.0
    }

    fn manager(&self) -> u16 {
        self.manager
    }
}

fn push_xids<T: Began>(out: &mut Vec<u64>, items: &[T]) -> Result<(), NoMemory>
    ensures { OnOk result (out.new.items ≡ out.old.items ++ map T.xid items.now) }
{
    for item in items {
        out.push(item.xid())?;
    }
    Ok(())
}

fn push_managers<T: Began>(out: &mut Vec<u16>, items: &[T]) -> Result<(), NoMemory>
    ensures { OnOk result (out.new.items ≡ out.old.items ++ map T.manager items.now) }
{
    for item in items {
        out.push(item.manager())?;
    }
    Ok(())
}

fn push_ticket(out: &mut Vec<TicketKey>, branch: &Branch) -> Result<(), NoMemory>
    ensures { OnOk result (out.new.items ≡ out.old.items ++ branch_ticket branch.now) }
{
    let RegisterPlace {
        resource,
        ticket,
        kind,
        ..
    } = branch.place;
    match kind {
        BranchKind::At => out.push(TicketKey { resource, ticket })?,
        BranchKind::Tcc => {}
    }
    Ok(())
}

fn push_entry_tickets(out: &mut Vec<TicketKey>, branches: &[Branch]) -> Result<(), NoMemory>
    ensures { OnOk result (out.new.items ≡ out.old.items ++ flat_map branch_ticket branches.now) }
{
    for branch in branches {
        push_ticket(out, branch)?;
    }
    Ok(())
}

fn push_tickets(out: &mut Vec<TicketKey>, entries: &[SessionEntry]) -> Result<(), NoMemory>
    ensures { OnOk result (out.new.items ≡ out.old.items ++ flat_map entry_tickets entries.now) }
{
    for entry in entries {
        push_entry_tickets(out, entry.session.branches.as_slice())?;
    }
    Ok(())
}

fn push_call(out: &mut Vec<CallKey>, xid: Xid, branch: &Branch) -> Result<(), NoMemory>
    ensures { OnOk result (out.new.items ≡ out.old.items ++ branch_call xid branch.now) }
{
    let RegisterPlace {
        resource,
        call,
        kind,
        ..
    } = branch.place;
    match kind {
        BranchKind::At => {}
        BranchKind::Tcc => out.push(CallKey {
            xid,
            resource,
            call,
        })?,
    }
    Ok(())
}

fn push_entry_calls(out: &mut Vec<CallKey>, xid: Xid, branches: &[Branch]) -> Result<(), NoMemory>
    ensures { OnOk result (out.new.items ≡ out.old.items ++ flat_map (branch_call xid) branches.now) }
{
    for branch in branches {
        push_call(out, xid, branch)?;
    }
    Ok(())
}

fn push_calls(out: &mut Vec<CallKey>, entries: &[SessionEntry]) -> Result<(), NoMemory>
    ensures { OnOk result (out.new.items ≡ out.old.items ++ flat_map entry_calls entries.now) }
{
    for entry in entries {
        push_entry_calls(out, entry.xid, entry.session.branches.as_slice())?;
    }
    Ok(())
}

fn xids_differ(alloc: Global, snapshot: &Snapshot) -> Result<bool, NoMemory>
    ensures { IfOk result (λ differ. differ ≡ all_differ nat_eq (xids snapshot.now)) }
{
    let mut found = Vec::new(alloc);
    push_xids(&mut found, snapshot.sessions.as_slice())?;
    push_xids(&mut found, snapshot.forgotten.as_slice())?;
    all_differ(alloc, &found)
}

fn managers_differ(alloc: Global, snapshot: &Snapshot) -> Result<bool, NoMemory>
    ensures { IfOk result (λ differ. differ ≡ all_differ nat_eq (managers_of snapshot.now)) }
{
    let mut found = Vec::new(alloc);
    push_managers(&mut found, snapshot.sessions.as_slice())?;
    push_managers(&mut found, snapshot.forgotten.as_slice())?;
    all_differ(alloc, &found)
}

fn tickets_differ(alloc: Global, snapshot: &Snapshot) -> Result<bool, NoMemory>
    ensures { IfOk result (λ differ. differ ≡ all_differ same_ticket_key (tickets snapshot.now)) }
{
    let mut found = Vec::new(alloc);
    push_tickets(&mut found, snapshot.sessions.as_slice())?;
    all_differ(alloc, &found)
}

fn calls_differ(alloc: Global, snapshot: &Snapshot) -> Result<bool, NoMemory>
    ensures { IfOk result (λ differ. differ ≡ all_differ same_call_key (calls snapshot.now)) }
{
    let mut found = Vec::new(alloc);
    push_calls(&mut found, snapshot.sessions.as_slice())?;
    all_differ(alloc, &found)
}

fn has_sound_parts(snapshot: &Snapshot, managers: u16, resources: u16) -> bool
    ensures { result ≡ has_sound_parts managers resources snapshot.now }
{
    let Snapshot { begun, granted, .. } = *snapshot;
    has_counts(snapshot)
        && are_entries(
            managers,
            resources,
            begun,
            granted,
            snapshot.sessions.as_slice(),
        )
        && are_forgotten(managers, begun, snapshot.forgotten.as_slice())
}

/// Whether a coordinator of so many managers and resources can have written this.
#[tactic(auto, unfolding(crate::specs::Soundness::is_sound))]
pub(crate) fn is_sound(
    alloc: Global,
    snapshot: &Snapshot,
    managers: u16,
    resources: u16,
) -> Result<bool, NoMemory>
    ensures { IfOk result (λ sound. sound ≡ is_sound managers resources snapshot.now) }
{
    Ok(
        has_sound_parts(snapshot, managers, resources)
            && xids_differ(alloc, snapshot)?
            && managers_differ(alloc, snapshot)?
            && tickets_differ(alloc, snapshot)?
            && calls_differ(alloc, snapshot)?,
    )
}
