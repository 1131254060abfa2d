//! Whether a branch may be asked.
ghost use Rattle.std.specs.Prelude.{◌≡◌, ◌&&◌};
ghost use Rattle.seata_types.specs.declared.limits.TheConstants.{MANAGERS, CALLS};
ghost use Rattle.durable_records.specs.SessionOrder.{is_counted};
ghost use Rattle.coordinator_rules.specs.Answers.{asks_by, asks_nodes};

use durable_records::is_counted;
use seata_types::limits::{CALLS, MANAGERS};
use seata_types::{Message, Outgoing, Place};

/// Whether a branch that is asked, if one is, is asked with numbers of the scenario: the disks may hold those of another one.
pub(crate) fn asks_nodes(managers: u16, resources: u16, sent: &Option<Outgoing>) -> bool
    ensures { result ≡ asks_nodes managers resources sent.now }
{
    let Some(out) = sent else {
        return true;
    };
    match &out.message {
        Message::BranchCommit { manager, call, .. } => {
            asks_by(managers, resources, out.to, *manager, *call)
        }
        Message::BranchRollback { manager, call, .. } => {
            asks_by(managers, resources, out.to, *manager, *call)
        }
        _ => true,
    }
}

fn asks_by(managers: u16, resources: u16, to: Place, manager: u16, call: u16) -> bool
    ensures { result ≡ asks_by managers resources to manager call }
{
    match to {
        Place::Res(resource) => {
            names_nodes(managers, resources, manager, resource) && is_sendable(manager, call)
        }
        _ => false,
    }
}

// Its manager and its resource are nodes of the scenario, as those of all records that it made.
fn names_nodes(managers: u16, resources: u16, manager: u16, resource: u16) -> bool
    ensures { result ≡ (is_counted managers manager && is_counted resources resource) }
{
    is_counted(usize::from(managers), manager) && is_counted(usize::from(resources), resource)
}

// No message brings a number that couldn't be sent again.
fn is_sendable(manager: u16, call: u16) -> bool
    ensures { result ≡ (is_counted MANAGERS manager && is_counted CALLS call) }
{
    is_counted(MANAGERS, manager) && is_counted(CALLS, call)
}
