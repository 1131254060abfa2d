//! The order of entries, and the coordinator's clock.
ghost use Rattle.std.specs.Prelude.{◌≡◌, List};
ghost use Rattle.std.specs.Bool.{Decides};
ghost use Rattle.seata_types.specs.declared.ids.Place.TheVariants as place;
ghost use Rattle.history_rules.specs.Histories.{Moment, last_now, own};
ghost use Rattle.verdict_law.specs.Verdicts.{IsInOrder, IsTimely};
ghost use Rattle.history_audit.specs.Order.{is_above, is_received_later, newest_of};

use history_text::{Cause, Entry, Origin, origin_of};
use seata_types::Place;

// Whether one entry stands above the newest one before it.
fn is_above(newest: Option<Origin>, next: Origin) -> bool
    ensures { result ≡ is_above newest next }
{
    match newest {
        Some(before) => before.cmp(&next).is_lt(),
        None => true,
    }
}

// Whether a message is received at a greater number than it was sent at.
fn is_received_later(cause: &Cause, received: u32) -> bool
    ensures { result ≡ is_received_later cause.now received }
{
    match cause {
        Cause::Deliver { stamp, .. } => *stamp < received,
        _ => true,
    }
}

/// Whether an entry stands above the newest one before it, and above the message that it takes.
pub(crate) fn is_in_order(newest: Option<Origin>, next: &Entry) -> bool
    ensures { (ms : List Moment) → newest ≡ newest_of ms →
        Decides result (IsInOrder ms next.entry.now) }
{
    let at = origin_of(next.stamp, next.place);
    is_above(newest, at) && is_received_later(&next.cause, next.stamp)
}

/// Whether an entry doesn't make the coordinator's clock fall.
pub(crate) fn is_timely(clock: u64, next: &Entry) -> bool
    ensures { (ms : List Moment) → clock ≡ last_now (own place.Tc ms) →
        Decides result (IsTimely ms next.entry.now) }
{
    match next.place {
        Place::Tc => clock <= next.now,
        _ => true,
    }
}
