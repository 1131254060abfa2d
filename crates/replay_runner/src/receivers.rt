//! Which deliveries fit the nodes of a replay. All do that are by the rules.
ghost use Rattle.std.specs.Prelude.{◌≡◌};
ghost use Rattle.replay_runner.specs.Going as going;

use crate::messages::Delivery;
use durable_records::is_counted;
use seata_types::{Message, Place, RowKey};

/// Whether each row is of one of so many resources.
fn have_resources(resources: usize, rows: &[RowKey]) -> bool
    ensures { result ≡ going.have_resources resources rows.now }
{
    rows.iter().all(|row| is_counted(resources, row.resource))
}

/// Whether the coordinator of so many managers and resources may hear a message: the numbers that it names are counted. It
/// serves no other, and where disks don't tell their bytes only this test shows that none comes.
fn may_hear(managers: usize, resources: usize, message: &Message) -> bool
    ensures { result ≡ going.may_hear managers resources message.now }
{
    match message {
        Message::Begin { manager, .. } => is_counted(managers, *manager),
        Message::Register { resource, hold, .. } => {
            is_counted(resources, *resource) && have_resources(resources, hold.as_slice())
        }
        _ => true,
    }
}

/// Whether a node can be given a delivery: its receiver is one, and the coordinator may hear its message.
pub fn fits(managers: usize, resources: usize, delivery: &Delivery) -> bool
    ensures { result ≡ going.fits_delivery managers resources delivery.now.to delivery.now.message }
{
    match delivery.to {
        Place::Tc => may_hear(managers, resources, delivery.message.get()),
        Place::Res(n) => is_counted(resources, n),
        Place::Man(n) => is_counted(managers, n),
        Place::Net => false,
    }
}
