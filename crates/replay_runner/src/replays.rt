//! Replays on the disks of a shelf.
ghost use Rattle.std.specs.Prelude.{length, map};
ghost use Rattle.disk_model.specs.Shelf.{KeepsOthers};
ghost use Rattle.scenario_form.specs.Runnable.{IsRunnable, resource_name};
ghost use Rattle.scenario_nodes.specs.Nodes.{Held, HoldAll, server_names};
ghost use Rattle.scenario_nodes.specs.Shelves.{ReturnsAll};
ghost use Rattle.scenario_nodes.specs.Together.{AreSecondNames, HaveBoth};
ghost use Rattle.replay_runner.specs.Leaving.{IsCalmEnd, IsCalmShelf, IsServerDisk, Leaves, Replays};
ghost use Rattle.replay_runner.specs.OnShelves.{BeginOver, CanBegin, Closes, IsRoom, RunsOn};

use crate::closings::{Room, close, room_for};
use crate::nodes::Nodes;
use crate::openings::{new_managers, open_nodes};
use crate::runs::Run;
use disk_model::Shelf;
use history_text::Entry;
use node_seat::{RunFault, RunName};
use scenario_form::Scenario;
use scenario_nodes::second_names;
use seata_types::{List, NoMemory};
use std::alloc::Global;
use std::marker::Brand;

/// Plays the schedule of a scenario with its nodes, and gives their disks back.
fn play<H: Shelf, K: RunName>(
    alloc: Global,
    scenario: &Scenario,
    shelf: &mut H,
    seconds: &[String],
    nodes: Nodes<H::D, K>,
    room: Room<H::D>,
) -> Result<List<Entry>, RunFault>
    requires runnable { IsRunnable scenario.now }
    requires seconds { AreSecondNames (map resource_name scenario.now.resources) seconds.now }
    requires begin { CanBegin scenario.now nodes }
    requires room { IsRoom (length scenario.now.resources) room }
    requires taken { HaveBoth (H.state shelf.old) (server_names scenario.now) }
    ensures { Closes (BeginOver H.D.state scenario.now nodes) (Leaves scenario.now) H.D.state
        scenario.now (H.state shelf.old) (H.state shelf.new) result }
{
    let mut run = Run::<H::D, K>::new(alloc, nodes);
    let locals = scenario.locals.as_slice();
    let played = run.play_all(alloc, locals, scenario.schedule.as_slice());
    let history = close(alloc, shelf, scenario, seconds, run, room);
    if let Err(fault) = played {
        drop(history);
        return Err(fault);
    }
    match history {
        Ok(history) => Ok(history),
        Err(NoMemory) => Err(RunFault::NoMemory),
    }
}

/// Replays a scenario of the run that `K` names.
fn replay_named<H: Shelf, K: RunName>(
    alloc: Global,
    scenario: &Scenario,
    shelf: &mut H,
) -> Result<List<Entry>, RunFault>
    requires runnable { IsRunnable scenario.now }
    ensures { RunsOn (Leaves scenario.now) H.D.state scenario.now
        (H.state shelf.old) (H.state shelf.new) result }
{
    let defs = scenario.resources.as_slice();
    let Ok(seconds) = second_names(alloc, defs) else {
        return Err(RunFault::NoMemory);
    };
    let Ok(room) = room_for::<H::D>(alloc, defs.len()) else {
        return Err(RunFault::NoMemory);
    };
    let Ok(managers) = new_managers::<K>(alloc, scenario) else {
        return Err(RunFault::NoMemory);
    };
    match open_nodes::<H, K>(alloc, scenario, shelf, seconds.as_slice(), managers) {
        Ok(nodes) => play(alloc, scenario, shelf, seconds.as_slice(), nodes, room),
        Err(fault) => Err(fault),
    }
}

/// Replays the schedule of a scenario, step by step, with the coordinator and each resource on two disks of the shelf: those of
/// all are taken and read before any resource writes its boot, and they are given back however it ends. It gives the entries of
/// its history, or why it ended early. `Store` comes only by a fault that the shelf or a disk of the node counted, whatever the
/// disks tell. Where they tell their bytes, each record of its history had a place, by the entries alone, and `Full` comes where
/// the next one has none. This is said over whatever records the disks held before, as the shelf shows it; over such disks
/// `Damaged` never comes, and neither does `Other`, since each message fits a node. Disks under other names stay as they are.
pub fn replay<H: Shelf>(
    alloc: Global,
    scenario: &Scenario,
    shelf: &mut H,
) -> Result<List<Entry>, RunFault>
    requires runnable { IsRunnable scenario.now }
    ensures replays { Replays H.D.state (H.state shelf.old) (H.state shelf.new)
        scenario.now result }
    ensures calm { (held : Held) → HoldAll H.D.state (H.state shelf.old) scenario.now held →
        IsCalmShelf H.D.state scenario.now (H.state shelf.old) (H.state shelf.new) →
        IsCalmEnd result }
    ensures returned { ReturnsAll (H.state shelf.old) (H.state shelf.new) }
    ensures keeps { KeepsOthers (IsServerDisk scenario.now)
        (H.state shelf.old) (H.state shelf.new) }
{
    replay_named::<H, Brand>(alloc, scenario, shelf)
}
