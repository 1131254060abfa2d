//! Changes of transactions and their branches.
ghost use Rattle.std.specs.Prelude.{◌≡◌, [], OnOk, OnErr, find, option_map};
ghost use Rattle.std.specs.List.{position};
ghost use Rattle.session_log.specs.Soundness.{entry_xid};
ghost use Rattle.session_memory.specs.Order.{AreRising, Each, HasRising, branch_number};
ghost use Rattle.session_memory.specs.Lookups.{has_xid, session_of, is_later};
ghost use Rattle.session_memory.specs.Changes.{with_ended, turned, changed, with_branch, without, with_forgotten, forgotten_as, xid_in};
ghost use Rattle.session_memory.specs.Owners.{OthersStay};

use crate::owners::TicketOwners;
use crate::{lookups, statuses};
use durable_records::SessionRecord;
use seata_types::{BranchId, List, NoMemory, Xid};
use session_log::{Branch, Forgotten, Session, SessionEntry};
use std::alloc::Global;
use std::mem;

/// Takes the items of a list out.
pub(crate) fn take_items<T>(alloc: Global, list: &mut List<T>) -> Vec<T>
    ensures taken { result.items ≡ list.old }
    ensures left { list.new ≡ [] }
{
    mem::replace(list, List::of(Vec::new(alloc))).into_vec()
}

fn end_branch(branches: &mut [Branch], id: BranchId)
    requires rising { AreRising branch_number branches.old }
    ensures { branches.new ≡ with_ended id.0 branches.old }
{
    if let Some(at) = lookups::branch_place(branches, id) {
        branches[at].ended = true;
    }
}

/// Changes a transaction by a record on it that registers no branch.
pub(crate) fn turn(alloc: Global, session: &mut Session, item: &SessionRecord)
    requires rising { AreRising branch_number session.old.branches }
    ensures { session.new ≡ turned item.now session.old }
{
    match item {
        SessionRecord::Decided { how, .. } => {
            session.status = statuses::decided(*how, lookups::are_at(session.branches.as_slice()));
        }
        SessionRecord::Retrying { .. } => session.status = statuses::retrying(session.status),
        SessionRecord::Ended { branch, .. } => {
            let mut branches = take_items(alloc, &mut session.branches);
            end_branch(&mut branches, *branch);
            session.branches = List::of(branches);
        }
        SessionRecord::Failed { branch, stmt, .. } => {
            session.status = statuses::failed(session.status);
            session.failed = Some((*branch, *stmt));
        }
        SessionRecord::Finished { .. } => session.status = statuses::finished(session.status),
        _ => {}
    }
}

/// The transaction that a record is on.
pub(crate) fn xid_of(item: &SessionRecord) -> Xid
    ensures { result.0 ≡ xid_in item.now }
{
    match item {
        SessionRecord::Begun { xid, .. } => *xid,
        SessionRecord::Granted { xid, .. } => *xid,
        SessionRecord::Decided { xid, .. } => *xid,
        SessionRecord::Retrying { xid } => *xid,
        SessionRecord::Ended { xid, .. } => *xid,
        SessionRecord::Failed { xid, .. } => *xid,
        SessionRecord::Finished { xid } => *xid,
        SessionRecord::Forgot { xid } => *xid,
    }
}

/// Changes the transaction of a record that registers no branch.
pub(crate) fn turn_one(alloc: Global, sessions: &mut [SessionEntry], item: &SessionRecord)
    requires rising { AreRising entry_xid sessions.old }
    requires branches { Each HasRising sessions.old }
    ensures { sessions.new ≡ changed (xid_in item.now) (turned item.now) sessions.old }
{
    if let Some(at) = lookups::place(sessions, xid_of(item)) {
        turn(alloc, &mut sessions[at].session, item);
    }
}

// Where a forgotten transaction goes, if a greater one stands there.
fn later_place(forgotten: &[Forgotten], xid: Xid) -> Option<usize>
    ensures { result ≡ position (is_later xid.0) forgotten.now }
{
    forgotten.iter().position(|other| xid.0 < other.xid.0)
}

fn put_forgotten(forgotten: &mut Vec<Forgotten>, entry: Forgotten) -> Result<(), NoMemory>
    ensures ok { OnOk result (forgotten.new.items ≡ with_forgotten entry forgotten.old.items) }
    ensures err { OnErr result (forgotten.new.items ≡ forgotten.old.items) }
{
    match later_place(forgotten, entry.xid) {
        Some(at) => forgotten.insert(at, entry)?,
        None => forgotten.push(entry)?,
    }
    Ok(())
}

/// Forgets a transaction, where it is known, and whose its tickets were. After an error all is as before.
pub(crate) fn forget(
    sessions: &mut Vec<SessionEntry>,
    forgotten: &mut Vec<Forgotten>,
    owners: &mut TicketOwners,
    xid: Xid,
) -> Result<(), NoMemory>
    requires rising { AreRising entry_xid sessions.old.items }
    ensures sessions { OnOk result (sessions.new.items ≡ without xid.0 sessions.old.items) }
    ensures forgotten { OnOk result (forgotten.new.items ≡ forgotten_as xid (option_map session_of (find (has_xid xid.0) sessions.old.items)) forgotten.old.items) }
    ensures others { OthersStay xid owners.old owners.new }
    ensures same_sessions { OnErr result (sessions.new.items ≡ sessions.old.items) }
    ensures same_forgotten { OnErr result (forgotten.new.items ≡ forgotten.old.items) }
    ensures same_owners { OnErr result (owners.new ≡ owners.old) }
{
    if let Some(at) = lookups::place(sessions, xid) {
        let manager = sessions[at].session.manager;
        put_forgotten(forgotten, Forgotten { xid, manager })?;
        owners.drop_each(xid, sessions[at].session.branches.as_slice());
        drop(sessions.remove(at));
    }
    Ok(())
}

/// Adds a branch to a transaction. After an error all is as before.
pub(crate) fn push_branch(
    alloc: Global,
    session: &mut Session,
    branch: Branch,
) -> Result<(), NoMemory>
    ensures ok { OnOk result (session.new ≡ with_branch branch session.old) }
    ensures err { OnErr result (session.new ≡ session.old) }
{
    let mut branches = take_items(alloc, &mut session.branches);
    let pushed = branches.push(branch);
    session.branches = List::of(branches);
    pushed?;
    Ok(())
}

/// Adds a branch to a transaction, where it is known. After an error all is as before.
pub(crate) fn add_branch(
    alloc: Global,
    sessions: &mut [SessionEntry],
    xid: Xid,
    branch: Branch,
) -> Result<(), NoMemory>
    requires rising { AreRising entry_xid sessions.old }
    ensures ok { OnOk result (sessions.new ≡ changed xid.0 (with_branch branch) sessions.old) }
    ensures err { OnErr result (sessions.new ≡ sessions.old) }
{
    match lookups::place(sessions, xid) {
        Some(at) => push_branch(alloc, &mut sessions[at].session, branch),
        None => Ok(()),
    }
}
