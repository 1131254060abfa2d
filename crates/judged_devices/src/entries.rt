//! What an entry leaves of a disk.
ghost use Rattle.std.specs.Prelude.{◌≡◌};
ghost use Rattle.history_rules.specs.Devices as devices;
ghost use Rattle.judged_devices.specs.Looking.{left_by_record, left_by_restart, left_by_stop};
ghost use Rattle.judged_devices.specs.Taking.{event_of};

use crate::calls::spent;
use crate::events::Event;
use seata_types::{Act, Durable};

/// Whether a node is down after an act, by whether it was before.
pub(crate) fn down_after(done: &Act, before: bool) -> bool
    ensures { result ≡ devices.down_after done.now before }
{
    match done {
        Act::Down { .. } => true,
        Act::Restarted { .. } => false,
        _ => before,
    }
}

/// The act in flight after an act, by the one before.
pub(crate) fn flight_after(done: &Act, before: Option<Durable>) -> Option<Durable>
    ensures { result ≡ devices.flight_after done.now before }
{
    match done {
        Act::Down { kept: _, at } => *at,
        Act::Restarted { .. } => None,
        _ => before,
    }
}

/// The calls that a stop lets pass after an entry, by those before.
pub(crate) fn left_after(boots: bool, event: &Event, done: &Act, before: Option<u32>) -> Option<u32>
    ensures { result ≡ devices.left_after boots (event_of event.now) done.now before }
{
    match event {
        Event::Stopped { calls } => left_by_stop(*calls, done, before),
        Event::Restarted { pick: _, calls } => left_by_restart(boots, *calls, done, before),
        Event::Given { .. } | Event::Crashed => left_by_record(done, before),
    }
}

fn left_by_record(done: &Act, before: Option<u32>) -> Option<u32>
    ensures { result ≡ left_by_record done.now before }
{
    match done {
        Act::Durable(_) => spent(before),
        _ => before,
    }
}

fn left_by_stop(calls: u32, done: &Act, before: Option<u32>) -> Option<u32>
    ensures { result ≡ left_by_stop calls done.now before }
{
    match done {
        Act::Armed => Some(calls),
        _ => left_by_record(done, before),
    }
}

fn left_by_restart(boots: bool, calls: Option<u32>, done: &Act, before: Option<u32>) -> Option<u32>
    ensures { result ≡ left_by_restart boots calls done.now before }
{
    match done {
        Act::Restarted { .. } => {
            if boots {
                return spent(calls);
            }
            calls
        }
        Act::Down { .. } => calls,
        _ => left_by_record(done, before),
    }
}
