//! What a coordinator goes by as it starts.
ghost use Rattle.std.specs.Prelude.{◌≡◌, max, IfOk, OnOk};
ghost use Rattle.coordinator_rules.specs.Starting.{started_by, started_on, no_moments, latest_of, start_in};

use crate::kinds;
use crate::moments::Moments;
use seata_types::NoMemory;
use seata_types::limits::LATEST_START;
use session_log::SessionEntry;
use session_memory::Memory;
use std::alloc::Global;

/// The moment at which a coordinator's clock starts: the latest at which a transaction that it knows began.
pub fn start_of(memory: &Memory) -> u64
    ensures { result ≡ start_in memory.now }
{
    let latest = latest_of(memory.snapshot().sessions.as_slice());
    if latest > LATEST_START {
        LATEST_START
    } else {
        latest
    }
}

fn latest_of(sessions: &[SessionEntry]) -> u64
    ensures { result ≡ latest_of sessions.now }
{
    let mut latest = 0;
    for entry in sessions {
        latest = later(latest, entry.session.begun);
    }
    latest
}

fn later(first: u64, second: u64) -> u64
    ensures { result ≡ max first second }
{
    if first < second { second } else { first }
}

/// At this moment all transactions in their second phase are due, and the finished ones begin to rest.
pub fn started(alloc: Global, memory: &Memory, now: u64) -> Result<Moments, NoMemory>
    ensures { IfOk result (λ moments. moments ≡ started_on now (memory.now).sessions no_moments) }
{
    let moments = started_on(alloc, memory.snapshot().sessions.as_slice(), now)?;
    Ok(moments)
}

fn started_on(alloc: Global, sessions: &[SessionEntry], now: u64) -> Result<Moments, NoMemory>
    ensures { IfOk result (λ moments. moments ≡ started_on now sessions.now no_moments) }
{
    let mut moments = Moments::new(alloc);
    for entry in sessions {
        start(&mut moments, entry, now)?;
    }
    Ok(moments)
}

// A transaction goes on, or rests, from this moment on.
fn start(moments: &mut Moments, entry: &SessionEntry, now: u64) -> Result<(), NoMemory>
    ensures { OnOk result (moments.new ≡ started_by now entry.now moments.old) }
{
    let status = entry.session.status;
    if kinds::is_going(status) {
        return moments.turns.plan(entry.xid, now);
    }
    if kinds::is_finished(status) {
        return moments.rests.plan(entry.xid, now);
    }
    Ok(())
}
