//! Runs on worker threads, on the disks of a shelf.
ghost use Rattle.std.specs.Prelude.{◌≡◌, ◌≤◌, map};
ghost use Rattle.disk_model.specs.Shelf.{KeepsOthers};
ghost use Rattle.scenario_form.specs.Runnable.{IsRunnable, resource_name};
ghost use Rattle.scenario_nodes.specs.Nodes.{Held, HoldAll, server_names};
ghost use Rattle.scenario_nodes.specs.Shelves.{ReturnsAll};
ghost use Rattle.scenario_nodes.specs.Together.{AreSecondNames, HaveBoth};
ghost use Rattle.replay_runner.specs.Leaving.{IsCalmEnd, IsCalmShelf, IsServerDisk};
ghost use Rattle.replay_runner.specs.OnShelves.{Closes, RunsOn};
ghost use Rattle.run_links.specs.Linked.{AreLinksOf, queue_of};
ghost use Rattle.thread_runner.specs.Ready.{IsReady};
ghost use Rattle.thread_runner.specs.Running.{Leaves, Runs};
ghost use Rattle.thread_runner.specs.Seats.{AreOpened, IsKnown, IsNamedFor, KnowsDisks};

use crate::closings::close;
use crate::openings::{Ready, prepare, seat_of, seats_of};
use disk_model::Shelf;
use history_text::Entry;
use node_seat::{RunFault, RunName};
use run_links::{RunLinks, link_nodes};
use run_rounds::{Gate, Seats, make_rounds};
use scenario_form::Scenario;
use scenario_nodes::{Servers, open_servers, second_names};
use seata_types::{List, NoMemory};
use std::alloc::Global;
use std::marker::Brand;
use std::sync::Wait;
use std::thread::Threads;
use trace_merge::merge;

/// Runs the nodes of a scenario to the end, or until a fault, and gives their disks back.
fn run_nodes<H: Shelf, G: Gate, K: RunName + Send + Sync, R: Threads + Wait + Sync>(
    rt: &R,
    alloc: Global,
    scenario: &Scenario,
    workers: u32,
    shelf: &mut H,
    gate: &G,
    seconds: &[String],
    servers: Servers<H::D>,
    mut ready: Ready<H::D, K>,
) -> Result<List<Entry>, RunFault>
    requires runnable { IsRunnable scenario.now }
    requires workers { (1 ≤ workers) × (workers ≤ 16) }
    requires seconds { AreSecondNames (map resource_name scenario.now.resources) seconds.now }
    requires named { IsNamedFor K.world K.run scenario.now }
    requires opened { AreOpened H.D.state H.state scenario.now K.held K.run servers }
    requires ready { IsReady K.run.queue scenario.now ready }
    requires taken { HaveBoth (H.state shelf.old) (server_names scenario.now) }
    ensures { Closes (IsKnown K.held K.run) (Leaves scenario.now) H.D.state scenario.now
        (H.state shelf.old) (H.state shelf.new) result }
{
    // The coordinator's disks tell where its clock begins.
    ready.coordinator.plan.from = servers.coordinator.start();
    let mut seats = Seats {
        coordinator: seat_of(rt, alloc, servers.coordinator, ready.coordinator),
        resources: seats_of(rt, alloc, servers.resources, ready.resources, ready.seats),
        managers: ready.managers,
    };
    let ended = make_rounds(rt, alloc, gate, workers, &mut seats);
    let traces = close(rt, alloc, shelf, scenario, seconds, seats, ready.room);
    if let Err(fault) = ended {
        drop(traces);
        return Err(fault);
    }
    match merge(alloc, traces) {
        Ok(history) => Ok(history),
        Err(NoMemory) => Err(RunFault::NoMemory),
    }
}

/// Runs a scenario, in the run that `K` names, over these links.
fn run_named<H: Shelf, G: Gate, K: RunName + Send + Sync, R: Threads + Wait + Sync>(
    rt: &R,
    alloc: Global,
    scenario: &Scenario,
    workers: u32,
    shelf: &mut H,
    gate: &G,
    links: RunLinks,
) -> Result<List<Entry>, RunFault>
    requires runnable { IsRunnable scenario.now }
    requires workers { (1 ≤ workers) × (workers ≤ 16) }
    requires links { AreLinksOf scenario.now links }
    requires queue { K.run.queue ≡ queue_of links }
    requires named { IsNamedFor K.world K.run scenario.now }
    requires disks { KnowsDisks H.D.state (H.state shelf.old) scenario.now K.held K.run }
    ensures { RunsOn (Leaves scenario.now) H.D.state scenario.now
        (H.state shelf.old) (H.state shelf.new) result }
{
    let Ok(seconds) = second_names(alloc, scenario.resources.as_slice()) else {
        return Err(RunFault::NoMemory);
    };
    let Ok(ready) = prepare::<H::D, K, R>(rt, alloc, scenario, links) else {
        return Err(RunFault::NoMemory);
    };
    let seconds = seconds.as_slice();
    match open_servers(alloc, scenario, shelf, seconds) {
        Ok(servers) => run_nodes(
            rt, alloc, scenario, workers, shelf, gate, seconds, servers, ready,
        ),
        Err(fault) => Err(fault),
    }
}

/// Runs a scenario by its nodes alone, on 1 to 16 worker threads, with the coordinator and each resource on two disks of the
/// shelf: those of all are taken and read before any resource writes its boot, and they are given back however it ends. It gives
/// the entries of its history, by stamp and place, or why it ended early. The schedule and the local transactions of the
/// scenario are ignored. `Store` comes only by a fault that the shelf or a disk of the node counted, whatever the disks tell.
/// Where they tell their bytes, all is said over whatever records they held before, as the shelf shows it; over such disks
/// `Damaged` and `Other` never come. It may wait, and where messages are lost for good it may never return. A worker calls the
/// gate before it takes the lock of a seat. Disks under other names stay as they are.
pub fn run<H: Shelf, G: Gate, R: Threads + Wait + Sync>(
    rt: &R,
    alloc: Global,
    scenario: &Scenario,
    workers: u32,
    shelf: &mut H,
    gate: &G,
) -> Result<List<Entry>, RunFault>
    requires runnable { IsRunnable scenario.now }
    requires workers { (1 ≤ workers) × (workers ≤ 16) }
    ensures runs { Runs H.D.state (H.state shelf.old) (H.state shelf.new) scenario.now result }
    ensures calm { (held : Held) → HoldAll H.D.state (H.state shelf.old) scenario.now held →
        IsCalmShelf H.D.state scenario.now (H.state shelf.old) (H.state shelf.new) →
        IsCalmEnd result }
    ensures returned { ReturnsAll (H.state shelf.old) (H.state shelf.new) }
    ensures keeps { KeepsOthers (IsServerDisk scenario.now)
        (H.state shelf.old) (H.state shelf.new) }
{
    let Ok(links) = link_nodes(alloc, scenario) else {
        return Err(RunFault::NoMemory);
    };
    run_named::<H, G, Brand, R>(rt, alloc, scenario, workers, shelf, gate, links)
}
