//! A link each way between two nodes.
ghost use Rattle.std.specs.Prelude.{◌≡◌, [], ◌∷◌, ◌++◌, OnOk};
ghost use Rattle.run_links.specs.Linked as linked;
ghost use Rattle.run_links.specs.Linked.{AreJoined, HaveLink};

use crate::links::NodeLinks;
use link_queue::{SendSeat, TakeSeat, link};
use node_seat::is_same;
use seata_types::{NoMemory, Place};
use std::alloc::Global;

/// Whether one of these ends goes to a place.
fn goes_to(senders: &[SendSeat], to: Place) -> bool
    ensures { result ≡ linked.goes_to to senders.now }
{
    senders.iter().any(|sender| is_same(sender.to(), to))
}

/// Adds one behind the others.
pub(crate) fn put<T: Drop>(made: &mut Vec<T>, item: T) -> Result<(), NoMemory>
    ensures { OnOk result (made.new.items ≡ made.old.items ++ item ∷ []) }
{
    made.push(item)?;
    Ok(())
}

/// Makes a link from a place to a place.
fn connect(
    alloc: Global,
    senders: &mut Vec<SendSeat>,
    takers: &mut Vec<TakeSeat>,
    from: Place,
    to: Place,
) -> Result<(), NoMemory>
    ensures { OnOk result (HaveLink from to
        senders.old.items takers.old.items senders.new.items takers.new.items) }
{
    let (sender, taker) = link(alloc, from, to)?;
    put(senders, sender)?;
    put(takers, taker)?;
    Ok(())
}

/// Links the nodes at two places, unless they are linked.
pub(crate) fn join(
    alloc: Global,
    one: &mut NodeLinks,
    other: &mut NodeLinks,
    here: Place,
    there: Place,
) -> Result<(), NoMemory>
    ensures { OnOk result (AreJoined (linked.goes_to there one.old.senders.items) here there
        one.old other.old one.new other.new) }
{
    if goes_to(one.senders.as_slice(), there) {
        return Ok(());
    }
    connect(alloc, &mut one.senders, &mut other.takers, here, there)?;
    connect(alloc, &mut other.senders, &mut one.takers, there, here)?;
    Ok(())
}
