//! The coordinator of a scenario on two disks of a shelf.
ghost use Rattle.std.specs.Prelude.{length, IfOk, IfErr, OnErr, OnOk};
ghost use Rattle.disk_model.specs.Shelf.{KeepsOthers, SamePlaces};
ghost use Rattle.scenario_form.specs.Runnable.{IsRunnable};
ghost use Rattle.scenario_nodes.specs.Shelves.{AreGivenBack, HasBoth, IsDiskName, ReturnsAll, ReturnsBut, coordinator_name};
ghost use Rattle.scenario_nodes.specs.Nodes.{Held, IsNewCoordinator, coordinator_disks, coordinator_server};
ghost use Rattle.scenario_nodes.specs.Opening.{IsNotOpened};

use crate::disks::{FIRST_DISK, SECOND_DISK, give_disks, take_disks};
use coordinator_core::Coordinator;
use disk_model::Shelf;
use node_seat::{RunFault, open_fault};
use scenario_form::Scenario;
use seata_types::Place;
use std::alloc::Global;

/// Takes the coordinator's two disks from the shelf and opens it on them. Where it isn't opened they are given back; at `Store`
/// the shelf or one of them counted a fault, whatever they tell.
pub(crate) fn open_coordinator<H: Shelf>(
    alloc: Global,
    scenario: &Scenario,
    shelf: &mut H,
) -> Result<Coordinator<H::D>, RunFault>
    requires { IsRunnable scenario.now }
    ensures new { IfOk result (IsNewCoordinator H.D.state (H.state shelf.old) scenario.now
        (length scenario.now.managers) (length scenario.now.resources)) }
    ensures both { OnOk result (HasBoth (H.state shelf.new) coordinator_name) }
    ensures refused { IfErr result (λ fault. (held : Held) →
        IsNotOpened H.D.state scenario.now (H.state shelf.old) (H.state shelf.new)
        (coordinator_server scenario.now held) fault) }
    ensures keeps { KeepsOthers (IsDiskName coordinator_name)
        (H.state shelf.old) (H.state shelf.new) }
    ensures out { OnOk result (ReturnsBut (IsDiskName coordinator_name)
        (H.state shelf.old) (H.state shelf.new)) }
    ensures returned { OnErr result (ReturnsAll (H.state shelf.old) (H.state shelf.new)) }
{
    let (first, second) = match take_disks(
        alloc,
        shelf,
        Place::Tc,
        FIRST_DISK,
        SECOND_DISK,
        scenario.disk,
    ) {
        Ok(disks) => disks,
        Err(fault) => return Err(fault),
    };
    let opened = Coordinator::open(
        alloc,
        first,
        second,
        scenario.retry,
        scenario.forget,
        scenario.managers.as_slice().len() as u16,
        scenario.resources.as_slice().len() as u16,
    );
    match opened {
        Ok(coordinator) => Ok(coordinator),
        Err((error, first, second)) => {
            give_disks(shelf, FIRST_DISK, SECOND_DISK, (first, second));
            Err(open_fault(Place::Tc, error))
        }
    }
}

/// Gives the coordinator's two disks back.
pub(crate) fn close_coordinator<H: Shelf>(shelf: &mut H, coordinator: Coordinator<H::D>)
    requires { HasBoth (H.state shelf.old) coordinator_name }
    ensures back { AreGivenBack (H.state shelf.old) (H.state shelf.new)
        coordinator_name (coordinator_disks coordinator) }
    ensures keeps { KeepsOthers (IsDiskName coordinator_name)
        (H.state shelf.old) (H.state shelf.new) }
    ensures places { SamePlaces (H.state shelf.old) (H.state shelf.new) }
    ensures returned { ReturnsAll (H.state shelf.old) (H.state shelf.new) }
{
    give_disks(shelf, FIRST_DISK, SECOND_DISK, coordinator.into_disks());
}
