//! The end of a run: the nodes are taken out of their seats, their disks go back to the shelf, and the links between them are
//! gathered.
ghost use Rattle.std.specs.Prelude.{◌≡◌, ◌≤◌, ◌+◌, ◌++◌, ◌^◌, [], length, map, vec_capacity, IfOk};
ghost use Rattle.scenario_form.specs.Runnable.{IsRunnable, resource_name};
ghost use Rattle.history_rules.specs.Nodes.{Past};
ghost use Rattle.history_text.specs.Worlds.{world_of};
ghost use Rattle.scenario_nodes.specs.Nodes.{server_names};
ghost use Rattle.scenario_nodes.specs.Together.{AreSecondNames, GivesBack, HaveBoth};
ghost use Rattle.run_ends.specs.Ending.{trace_of};
ghost use Rattle.run_ends.specs.Settled.{AreSettled};
ghost use Rattle.thread_runner.specs.Ending.{AllKeep, EachKeeps, all_here, endings, endings_at, node_of, seat_disks};
ghost use Rattle.thread_runner.specs.Ready.{AreSeats, IsRoom};

use coordinator_core::Coordinator;
use disk_model::{Disk, Shelf};
use history_text::Entry;
use manager_core::Manager;
use node_seat::RunName;
use node_steps::Node;
use resource_core::Resource;
use run_ends::{Ended, end_of, settle};
use run_rounds::{Begun, Seats};
use scenario_form::Scenario;
use scenario_nodes::{Servers, close_servers};
use seata_types::{List, NoMemory};
use std::alloc::Global;
use std::sync::Wait;

/// Room for the resources and managers of a run once they are out of their seats, for what is left of all seats, and for their
/// traces.
#[derive(Drop)]
pub struct Room<D: Disk, K: RunName> {
    pub resources: Vec<Resource<D>>,
    pub managers: Vec<Manager>,
    pub ended: Vec<Ended<K>>,
    pub traces: Vec<List<Entry>>,
}

/// Room for so many resources and managers.
pub(crate) fn room_for<D: Disk + Drop, K: RunName>(
    alloc: Global,
    servers: usize,
    users: usize,
) -> Result<Room<D, K>, NoMemory>
    requires few { (servers ≤ 2 ^ 15) × (users ≤ 2 ^ 15) }
    ensures { IfOk result (IsRoom servers users) }
{
    let resources = Vec::with_capacity(alloc, servers)?;
    let managers = Vec::with_capacity(alloc, users)?;
    let ended = Vec::with_capacity(alloc, servers + users + 1)?;
    let traces = Vec::with_capacity(alloc, servers + users + 1)?;
    Ok(Room {
        resources,
        managers,
        ended,
        traces,
    })
}

/// Takes nodes out of their seats, and puts what is left of these behind the others. There is room for all.
fn unseated<N: Node + Drop, K: RunName>(
    seats: Vec<Option<Begun<N, K>>>,
    mut nodes: Vec<N>,
    ended: &mut Vec<Ended<K>>,
) -> Vec<N>
    requires none { nodes.items ≡ [] }
    requires nodes { length seats.items ≤ vec_capacity nodes }
    requires room { length ended.old.items + length seats.items ≤ vec_capacity ended.old }
    ensures nodes { result.items ≡ map node_of (all_here seats.items) }
    ensures ended { ended.new.items ≡ ended.old.items ++ endings_at N.state seats.items }
    ensures room { vec_capacity ended.old ≤ vec_capacity ended.new }
    ensures keep { EachKeeps N.state K.world K.held K.run seats.items }
{
    for seat in seats {
        if let Some(begun) = seat {
            let (node, end) = end_of(begun.into_seat());
            nodes.push_reserved(node);
            ended.push_reserved(end);
        }
    }
    nodes
}

/// Gives back all disks of a run, gathers its links, and gives the traces of its nodes: of the coordinator, of the resources and
/// of the managers. There is room for all. It waits for good where a link has only one end, which is never so.
pub(crate) fn close<H: Shelf, K: RunName, R: Wait>(
    rt: &R,
    alloc: Global,
    shelf: &mut H,
    scenario: &Scenario,
    seconds: &[String],
    seats: Seats<Coordinator<H::D>, Resource<H::D>, Manager, K>,
    room: Room<H::D, K>,
) -> List<List<Entry>>
    requires runnable { IsRunnable scenario.now }
    requires seconds { AreSecondNames (map resource_name scenario.now.resources) seconds.now }
    requires world { K.world ≡ world_of scenario.now }
    requires seats { AreSeats H.D.state scenario.now seats }
    requires room { IsRoom (length scenario.now.resources) (length scenario.now.managers) room }
    requires taken { HaveBoth (H.state shelf.old) (server_names scenario.now) }
    ensures gives { GivesBack (server_names scenario.now) (seat_disks seats)
        (H.state shelf.old) (H.state shelf.new) }
    ensures keep { AllKeep H.D.state K.world K.held K.run seats }
    ensures traces { result ≡ map trace_of (endings H.D.state seats) }
    ensures settled { (past : Past) →
        AreSettled K.world past K.run.stops (endings H.D.state seats) }
{
    let Seats {
        coordinator,
        resources,
        managers,
    } = seats;
    let Room {
        resources: servers,
        managers: users,
        mut ended,
        traces,
    } = room;
    let Some(begun) = coordinator else {
        unreachable!();
    };
    let (coordinator, end) = end_of(begun.into_seat());
    ended.push_reserved(end);
    let resources = unseated(resources, servers, &mut ended);
    let _managers = unseated(managers, users, &mut ended);
    let servers = Servers {
        coordinator,
        resources,
    };
    close_servers(shelf, scenario, seconds, servers);
    if let Some(traces) = settle(alloc, ended, traces) {
        return traces;
    }
    for _ in rt.forever() {}
    unreachable!()
}
