//! The ends of links that take.
ghost use Rattle.std.specs.Prelude.{◌≡◌, ◌<◌, ◌≤◌, IfNone, IfSome, MatchOption, length};
ghost use Rattle.link_queue.specs.Links.{with_missed};
ghost use Rattle.node_seat.specs.Ends.{HaveMissed, HaveMissedBefore, NoneTook, TookAt, TookThis};

use frame_codec::Packet;
use link_queue::TakeSeat;
use std::sync::Wait;

/// Takes a packet from an end.
fn take_one<R: Wait>(rt: &R, taker: &mut TakeSeat) -> Option<Packet>
    ensures { MatchOption result (taker.new ≡ with_missed taker.old)
        (λ packet. TookThis packet taker.old taker.new) }
{
    taker.take(rt)
}

/// Takes a packet from the first of these ends, from place `low` up to place `high`, that has one, and tells which.
fn take_among<R: Wait>(
    rt: &R,
    takers: &mut [TakeSeat],
    low: usize,
    high: usize,
) -> Option<(usize, Packet)>
    requires range { (low ≤ high) × (high ≤ length takers.old) }
    ensures none { IfNone result (NoneTook takers.old takers.new) }
    ensures missed { IfNone result (HaveMissed low high takers.old takers.new) }
    ensures took { IfSome result (λ found. TookAt takers.old takers.new found.0 found.1) }
    ensures before { IfSome result (λ found. HaveMissed low found.0 takers.old takers.new) }
    ensures within { IfSome result (λ found. (low ≤ found.0) × (found.0 < high)) }
{
    for k in low..high {
        if let Some(packet) = take_one(rt, &mut takers[k]) {
            return Some((k, packet));
        }
    }
    None
}

/// The same of the ends of a node.
fn take_from<R: Wait>(
    rt: &R,
    takers: &mut Vec<TakeSeat>,
    low: usize,
    high: usize,
) -> Option<(usize, Packet)>
    requires range { (low ≤ high) × (high ≤ length takers.old.items) }
    ensures none { IfNone result (NoneTook takers.old.items takers.new.items) }
    ensures missed { IfNone result (HaveMissed low high takers.old.items takers.new.items) }
    ensures took { IfSome result
        (λ found. TookAt takers.old.items takers.new.items found.0 found.1) }
    ensures before { IfSome result
        (λ found. HaveMissed low found.0 takers.old.items takers.new.items) }
    ensures within { IfSome result (λ found. (low ≤ found.0) × (found.0 < high)) }
{
    take_among(rt, takers.as_mut_slice(), low, high)
}

/// The same of all ends in rotation, from place `next` on.
pub(crate) fn take_any<R: Wait>(
    rt: &R,
    takers: &mut Vec<TakeSeat>,
    next: usize,
) -> Option<(usize, Packet)>
    requires next { next ≤ length takers.old.items }
    ensures none { IfNone result (NoneTook takers.old.items takers.new.items) }
    ensures missed { IfNone result
        (HaveMissed 0 (length takers.old.items) takers.old.items takers.new.items) }
    ensures took { IfSome result
        (λ found. TookAt takers.old.items takers.new.items found.0 found.1) }
    ensures before { IfSome result
        (λ found. HaveMissedBefore next found.0 takers.old.items takers.new.items) }
{
    let count = takers.len();
    match take_from(rt, takers, next, count) {
        Some(found) => Some(found),
        None => take_from(rt, takers, 0, next),
    }
}
