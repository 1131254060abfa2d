//! Which transaction a turn takes, and which branch is asked.
ghost use Rattle.std.specs.Prelude.{◌≡◌, ◌&&◌, nat_lt, find, option_map, IfOk};
ghost use Rattle.std.specs.Option.{option_copied};
ghost use Rattle.lock_table.specs.Locks.{first_held};
ghost use Rattle.session_memory.specs.Lookups.{xid_of};
ghost use Rattle.session_memory.specs.Changes.{is_begin};
ghost use Rattle.coordinator_rules.specs.Choices.{is_late_entry, is_old_entry, is_by, nobody, has_passed, has_passed_in};

use crate::kinds;
use lock_table::{LockTable, Steps};
use retry_turns::Turns;
use seata_types::{Duplicate, NoMemory, RowKey, Xid};
use session_log::{Session, SessionEntry};
use std::alloc::Global;
use std::sync::ledger::Ledger;

// Whether the timeout of a transaction is over.
fn has_passed(session: &Session, now: u64) -> bool
    ensures { result ≡ has_passed session.now now }
{
    now.saturating_sub(session.begun) > session.timeout
}

/// Whether the timeout of a transaction is over, where it is known.
pub(crate) fn has_passed_in(found: Option<&Session>, now: u64) -> bool
    ensures { result ≡ has_passed_in (option_copied found.entry) now }
{
    match found {
        Some(session) => has_passed(session, now),
        None => false,
    }
}

fn is_late(entry: &SessionEntry, now: u64) -> bool
    ensures { result ≡ is_late_entry now entry.now }
{
    kinds::is_begin(entry.session.status) && has_passed(&entry.session, now)
}

/// The first transaction that isn't decided and whose timeout is over.
pub(crate) fn least_late(sessions: &[SessionEntry], now: u64) -> Option<Xid>
    ensures { result ≡ option_map xid_of (find (is_late_entry now) sessions.now) }
{
    for entry in sessions {
        if is_late(entry, now) {
            return Some(entry.xid);
        }
    }
    None
}

// Whether `forget` ticks, which isn't 0, have gone by.
fn is_by(since: Option<u128>, forget: u64, now: u64) -> bool
    ensures { result ≡ (nat_lt 0 forget && is_by forget now since) }
{
    match since {
        Some(since) => forget > 0 && (now as u128).saturating_sub(since) >= forget as u128,
        None => false,
    }
}

fn is_old(entry: &SessionEntry, rests: &Turns, forget: u64, now: u64) -> bool
    ensures { result ≡ is_old_entry rests.now forget now entry.now }
{
    kinds::is_finished(entry.session.status) && is_by(rests.moment(entry.xid), forget, now)
}

/// The first transaction that rests for so long that it is forgotten; none where `forget` is 0.
pub(crate) fn least_old(
    sessions: &[SessionEntry],
    rests: &Turns,
    forget: u64,
    now: u64,
) -> Option<Xid>
    ensures { result ≡ option_map xid_of (find (is_old_entry rests.now forget now) sessions.now) }
{
    if forget == 0 {
        return None;
    }
    if now < forget {
        return None;
    }
    let Some(_) = rests.next_due(now - forget) else {
        return None;
    };
    for entry in sessions {
        if is_old(entry, rests, forget, now) {
            return Some(entry.xid);
        }
    }
    None
}

/// The first of these rows that a transaction holds, with the transaction.
pub(crate) fn first_held<L: Ledger>(
    alloc: Global,
    locks: &LockTable,
    rows: &[RowKey],
    steps: &mut Steps<L>,
) -> Result<Option<(RowKey, Xid)>, NoMemory>
    ensures { IfOk result (λ found. found ≡ first_held locks.now nobody rows.now) }
{
    for key in rows {
        if let Some(by) = locks.holder(key, steps) {
            if by.0 != 0 {
                return Ok(Some((key.copy(alloc)?, by)));
            }
        }
    }
    Ok(None)
}
