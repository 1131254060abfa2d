//! The nodes of a scenario with disks, opened together: the disks of all are read before any boot is written.
ghost use Rattle.std.specs.Prelude.{◌≡◌, ◌≤◌, [], map, length, vec_capacity, IfOk, IfErr};
ghost use Rattle.std.specs.VecDeque.{deque_capacity};
ghost use Rattle.scenario_form.specs.Runnable.{IsRunnable, resource_name};
ghost use Rattle.scenario_nodes.specs.Nodes.{AreNewResources, AreNewServers, resource_servers, server_names, servers_of};
ghost use Rattle.scenario_nodes.specs.Opening.{NodesNotOpened};
ghost use Rattle.scenario_nodes.specs.Together.{AreSecondNames, TakesOrReturns, numbered};

use crate::closings::close_all;
use crate::coordinators::{close_coordinator, open_coordinator};
use crate::disks::second_name;
use crate::loading::{load_resources, start_resources};
use crate::servers::Servers;
use disk_model::Shelf;
use node_seat::{RunFault, open_fault};
use resource_core::{Loaded, Resource};
use scenario_form::{ResourceDef, Scenario};
use scenario_setups::put;
use seata_types::{NoMemory, Place};
use std::alloc::Global;
use std::collections::VecDeque;

/// The names of the second disks of the resources.
pub fn second_names(alloc: Global, defs: &[ResourceDef]) -> Result<Vec<String>, NoMemory>
    ensures { IfOk result (λ names. AreSecondNames (map resource_name defs.now) names.items) }
{
    let mut names = Vec::new(alloc);
    for def in defs {
        put(&mut names, second_name(alloc, def.name.as_str())?)?;
    }
    Ok(names)
}

/// Opens the resources of a scenario, with this room for them: takes and reads the disks of all, and then lets each write its
/// boot. Where one isn't opened the disks of all are given back.
fn open_resources<H: Shelf>(
    alloc: Global,
    scenario: &Scenario,
    shelf: &mut H,
    seconds: &[String],
    loaded: VecDeque<Loaded<H::D>>,
    mut started: Vec<Resource<H::D>>,
) -> Result<Vec<Resource<H::D>>, RunFault>
    requires runnable { IsRunnable scenario.now }
    requires seconds { AreSecondNames (map resource_name scenario.now.resources) seconds.now }
    requires none_loaded { loaded.items ≡ [] }
    requires room_loaded { length scenario.now.resources ≤ deque_capacity loaded }
    requires none_started { started.items ≡ [] }
    requires room_started { length scenario.now.resources ≤ vec_capacity started }
    ensures new { IfOk result (λ resources. AreNewResources H.D.state (H.state shelf.old)
        scenario.now (numbered 1 scenario.now.resources) resources.items) }
    ensures refused { IfErr result (NodesNotOpened H.D.state scenario.now
        (resource_servers scenario.now) (H.state shelf.old) (H.state shelf.new)) }
    ensures shelf { TakesOrReturns (map resource_name scenario.now.resources)
        (H.state shelf.old) (H.state shelf.new) result }
{
    let mut loaded = match load_resources(alloc, scenario, shelf, seconds, loaded) {
        Ok(loaded) => loaded,
        Err(fault) => return Err(fault),
    };
    match start_resources(alloc, &mut loaded, &mut started) {
        Ok(()) => Ok(started),
        Err((error, first, second)) => {
            let place = Place::Res(started.len() as u16 + 1);
            let defs = scenario.resources.as_slice();
            close_all(shelf, defs, seconds, started, (first, second), loaded);
            Err(open_fault(place, error))
        }
    }
}

/// Opens the nodes of a scenario that have disks: takes and reads the two disks of each, the coordinator first, and then lets
/// each resource write its boot. Where one isn't opened the disks of all are given back. The names are those of the second
/// disks of the resources.
pub fn open_servers<H: Shelf>(
    alloc: Global,
    scenario: &Scenario,
    shelf: &mut H,
    seconds: &[String],
) -> Result<Servers<H::D>, RunFault>
    requires runnable { IsRunnable scenario.now }
    requires seconds { AreSecondNames (map resource_name scenario.now.resources) seconds.now }
    ensures new { IfOk result (AreNewServers H.D.state (H.state shelf.old) scenario.now) }
    ensures refused { IfErr result (NodesNotOpened H.D.state scenario.now
        (servers_of scenario.now) (H.state shelf.old) (H.state shelf.new)) }
    ensures shelf { TakesOrReturns (server_names scenario.now)
        (H.state shelf.old) (H.state shelf.new) result }
{
    let count = scenario.resources.as_slice().len();
    let Ok(loaded) = VecDeque::with_capacity(alloc, count) else {
        return Err(RunFault::NoMemory);
    };
    let Ok(started) = Vec::with_capacity(alloc, count) else {
        return Err(RunFault::NoMemory);
    };
    let coordinator = match open_coordinator(alloc, scenario, shelf) {
        Ok(coordinator) => coordinator,
        Err(fault) => return Err(fault),
    };
    match open_resources(alloc, scenario, shelf, seconds, loaded, started) {
        Ok(resources) => Ok(Servers {
            coordinator,
            resources,
        }),
        Err(fault) => {
            close_coordinator(shelf, coordinator);
            Err(fault)
        }
    }
}
