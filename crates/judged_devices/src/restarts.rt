//! What may be shown of an answer and of a restart.
ghost use Rattle.std.specs.Prelude.{◌≡◌, Some};
ghost use Rattle.std.specs.Option.{option_copied};
ghost use Rattle.judged_devices.specs.Looking.{AreSame, Keeps, ShowsDurable, back_in, boots_so, goes_up, is_lost, restart_in};
ghost use Rattle.judged_devices.specs.Showing.{given_in};
ghost use Rattle.judged_devices.specs.Taking.{event_of};

use crate::calls::{is_short, may_stand};
use crate::events::Event;
use crate::looks::same_durable;
use crate::shown::{Back, Plain, Shown};
use seata_types::{Durable, Input};

/// How a durable answer is shown, by the durable act that an entry has and the one that was cut short.
pub(crate) fn durable_shown(
    left: Option<u32>,
    done: Durable,
    seen: Option<Durable>,
    cut: Option<Durable>,
) -> Option<Shown>
    ensures { ShowsDurable left done seen cut result }
{
    if is_it(cut, done) {
        return Some(Shown::Cut { flight: done });
    }
    if is_it(seen, done) && !is_short(left) {
        return Some(Shown::Done);
    }
    None
}

// Whether this is the durable act.
fn is_it(found: Option<Durable>, done: Durable) -> bool
    ensures { AreSame found (Some done) result }
{
    match found {
        Some(other) => same_durable(other, done),
        None => false,
    }
}

/// What is given to a node that is up, which its rule answers; none where it does by itself what it does. Takes no memory.
pub fn given_in(down: bool, event: &Event) -> Option<&Input>
    ensures { option_copied result ≡ given_in down (event_of event.now) }
{
    match event {
        Event::Given { input } => {
            if down {
                return None;
            }
            Some(input)
        }
        _ => None,
    }
}

/// Whether what happens to a node that is up ends so.
pub(crate) fn goes_up(event: &Event, plain: Plain) -> bool
    ensures { result ≡ goes_up (event_of event.now) plain }
{
    match event {
        Event::Stopped { .. } => matches!(plain, Plain::Armed),
        Event::Crashed => matches!(plain, Plain::Crashed),
        Event::Restarted { .. } => matches!(plain, Plain::Rests),
        Event::Given { .. } => false,
    }
}

/// The calls after which a restart's disk stops; none where this is no restart.
pub(crate) fn restart_in(event: &Event) -> Option<Option<u32>>
    ensures { result ≡ restart_in (event_of event.now) }
{
    match event {
        Event::Restarted { pick: _, calls } => Some(*calls),
        _ => None,
    }
}

/// What is shown of a restart.
pub(crate) fn back_in(plain: Plain) -> Option<Back>
    ensures { result ≡ back_in plain }
{
    match plain {
        Plain::Back(back) => Some(back),
        _ => None,
    }
}

/// Whether this is a loss.
pub(crate) fn is_lost(plain: Plain) -> bool
    ensures { result ≡ is_lost plain }
{
    matches!(plain, Plain::Lost)
}

/// Whether a restart may keep this of what was in flight: nothing, or all where it may be on the disk.
pub(crate) fn keeps(left: Option<u32>, flight: Option<Durable>, kept: Option<Durable>) -> bool
    ensures { Keeps left flight kept result }
{
    match kept {
        Some(durable) => may_stand(left) && is_it(flight, durable),
        None => true,
    }
}

/// Whether the boot of a restart may end so: that of a node that boots may fail, and fails where a stop falls on it.
pub(crate) fn may_boot(boots: bool, calls: Option<u32>, cut: bool) -> bool
    ensures { result ≡ boots_so boots calls cut }
{
    if !boots {
        return !cut;
    }
    cut || !is_short(calls)
}
