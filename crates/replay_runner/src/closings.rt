//! The nodes of a replay that ended: their disks go back to the shelf, and their traces are gathered.
ghost use Rattle.std.specs.Prelude.{◌≡◌, List as Items, IfOk, length, map};
ghost use Rattle.scenario_form.specs.Runnable.{IsRunnable, resource_name};
ghost use Rattle.history_rules.specs.Histories.{Moment};
ghost use Rattle.history_text.specs.History.{entries};
ghost use Rattle.scenario_nodes.specs.Nodes.{server_names};
ghost use Rattle.scenario_nodes.specs.Together.{AreSecondNames, GivesBack, HaveBoth};
ghost use Rattle.replay_runner.specs.Collecting.{AreNodesOf, AreTraces, AreTracesOf, trace_of};
ghost use Rattle.replay_runner.specs.OnShelves.{IsRoom};
ghost use Rattle.replay_runner.specs.Opened.{node_disks};
ghost use Rattle.replay_runner.specs.Traces.{places_of};

use crate::collecting::{Traces, collected, put};
use crate::members::Member;
use crate::runs::Run;
use disk_model::{Disk, Shelf};
use history_text::Entry;
use manager_core::Manager;
use node_seat::RunName;
use resource_core::Resource;
use scenario_form::Scenario;
use scenario_nodes::{Servers, close_servers};
use seata_types::{List, NoMemory};
use std::alloc::Global;

/// Room for the resources of a replay and for their traces, once they are out of their seats. It is had before any disk is
/// taken: so all disks are given back, whatever memory is refused later.
#[derive(Drop)]
pub struct Room<D: Disk> {
    pub resources: Vec<Resource<D>>,
    pub traces: Vec<Vec<Entry>>,
}

/// Room for so many resources.
pub fn room_for<D: Disk + Drop>(alloc: Global, count: usize) -> Result<Room<D>, NoMemory>
    ensures { IfOk result (IsRoom count) }
{
    let resources = Vec::with_capacity(alloc, count)?;
    let traces = Vec::with_capacity(alloc, count)?;
    Ok(Room { resources, traces })
}

/// Takes resources out of their seats, with their traces.
fn unseated<D: Disk + Drop, K: RunName>(
    members: Vec<Member<Resource<D>, K>>,
    room: Room<D>,
) -> (Vec<Resource<D>>, Vec<Vec<Entry>>)
    requires { IsRoom (length members.items) room }
    ensures nodes { AreNodesOf members.items result.0.items }
    ensures traces { AreTracesOf members.items result.1.items }
{
    let mut resources = room.resources;
    let mut traces = room.traces;
    for member in members {
        let (resource, trace, _, _) = member.seat.finish();
        resources.push_reserved(resource);
        traces.push_reserved(trace.into_vec());
    }
    (resources, traces)
}

/// The traces of the managers.
fn manager_traces<K: RunName>(
    alloc: Global,
    managers: Vec<Member<Manager, K>>,
) -> Result<Vec<Vec<Entry>>, NoMemory>
    ensures { IfOk result (λ traces. AreTracesOf managers.items traces.items) }
{
    let mut traces = Vec::new(alloc);
    for member in managers {
        let (_, trace, _, _) = member.seat.finish();
        put(&mut traces, trace.into_vec())?;
    }
    Ok(traces)
}

/// Gives back all disks of a replay, and gives its history. There is room for its resources and their traces.
pub fn close<H: Shelf, K: RunName>(
    alloc: Global,
    shelf: &mut H,
    scenario: &Scenario,
    seconds: &[String],
    run: Run<H::D, K>,
    room: Room<H::D>,
) -> Result<List<Entry>, NoMemory>
    requires runnable { IsRunnable scenario.now }
    requires seconds { AreSecondNames (map resource_name scenario.now.resources) seconds.now }
    requires whole { length run.nodes.resources.items ≡ length scenario.now.resources }
    requires room { IsRoom (length scenario.now.resources) room }
    requires taken { HaveBoth (H.state shelf.old) (server_names scenario.now) }
    ensures gives { GivesBack (server_names scenario.now) (node_disks run.nodes)
        (H.state shelf.old) (H.state shelf.new) }
    ensures history { IfOk result (λ history. (ms : Items Moment) →
        run.places.items ≡ places_of ms → AreTraces (trace_of run.network.items run.nodes) ms →
        history ≡ entries ms) }
{
    let Run {
        nodes,
        network,
        places,
        ..
    } = run;
    let (coordinator, trace, _, _) = nodes.coordinator.seat.finish();
    let (resources, traces) = unseated(nodes.resources, room);
    let servers = Servers {
        coordinator,
        resources,
    };
    close_servers(shelf, scenario, seconds, servers);
    let managers = manager_traces(alloc, nodes.managers)?;
    let traces = Traces {
        network,
        coordinator: trace.into_vec(),
        resources: traces,
        managers,
    };
    collected(alloc, places.as_slice(), traces)
}
