//! Which messages a node answers by the rules, and when it hears them.
ghost use Rattle.std.specs.Prelude.{◌≡◌, ◌<◌};
ghost use Rattle.node_seat.specs.Running as running;
ghost use Rattle.node_seat.specs.Turns as turns;

use crate::plans::Plan;
use durable_records::is_counted;
use seata_types::{Message, Place, RowKey};

/// Whether each row is of one of so many resources.
fn have_resources(resources: usize, rows: &[RowKey]) -> bool
    ensures { result ≡ running.have_resources resources rows.now }
{
    rows.iter().all(|row| is_counted(resources, row.resource))
}

/// Whether the node at a place answers a message by the rules: the numbers that it names to the coordinator are counted. Where
/// disks don't tell their bytes only this test shows that none else comes.
pub(crate) fn may_hear(plan: &Plan, place: Place, message: &Message) -> bool
    ensures { result ≡ running.may_hear plan.now place message.now }
{
    match (place, message) {
        (Place::Tc, Message::Begin { manager, .. }) => is_counted(plan.managers, *manager),
        (Place::Tc, Message::Register { resource, hold, .. }) => {
            is_counted(plan.resources, *resource) && have_resources(plan.resources, hold.as_slice())
        }
        _ => true,
    }
}

/// The next stamp of a node, above its last one and that of the message that it hears.
pub(crate) fn stamp_after(last: u32, sent: u32) -> u32
    requires { (last < running.LAST) × (sent < running.LAST) }
    ensures { result ≡ turns.stamp_after last sent }
{
    if last < sent { sent + 1 } else { last + 1 }
}
