//! Replays and runs over what the disks hold, which are read first; and before that the text of the scenario is kept.
ghost use Rattle.std.specs.Prelude.{◌≡◌, ◌≤◌};
ghost use Rattle.disk_model.specs.Shelf.{KeepsOthers};
ghost use Rattle.scenario_form.specs.Runnable.{IsRunnable};
ghost use Rattle.scenario_nodes.specs.Shelves.{ReturnsAll};
ghost use Rattle.replay_runner.specs.Leaving as replayed;
ghost use Rattle.thread_runner.specs.Running as ran;
ghost use Rattle.lab_calls.specs.Kept.{EndsKept};
ghost use Rattle.lab_calls.specs.Over.{EndsOver};

use base_shelf::keep_base;
use disk_model::Shelf;
use history_text::Entry;
use node_seat::RunFault;
use replay_runner::replay;
use report_text::Before;
use scenario_reader::Scenario;
use seata_types::List;
use std::alloc::Global;
use std::sync::Wait;
use std::thread::Threads;
use store_shown::read_before;
use thread_runner::{Gate, run};

/// The entries of a history, and what the disks held before it.
#[derive(Drop)]
pub struct Played {
    pub before: Before,
    pub history: List<Entry>,
}

/// Replays a scenario over what its disks hold.
pub fn replay_over<H: Shelf>(
    alloc: Global,
    scenario: &Scenario,
    shelf: &mut H,
) -> Result<Played, RunFault>
    requires { IsRunnable scenario.now }
    ensures ends { EndsOver (replayed.Leaves scenario.now) H.D.state H.state
        shelf.old shelf.new scenario.now result }
    ensures returned { ReturnsAll (H.state shelf.old) (H.state shelf.new) }
    ensures keeps { KeepsOthers (replayed.IsServerDisk scenario.now)
        (H.state shelf.old) (H.state shelf.new) }
{
    let before = match read_before(alloc, scenario, shelf) {
        Ok(before) => before,
        Err(fault) => return Err(fault),
    };
    match replay(alloc, scenario, shelf) {
        Ok(history) => Ok(Played { before, history }),
        Err(fault) => Err(fault),
    }
}

/// Runs a scenario over what its disks hold.
pub fn run_over<H: Shelf, G: Gate, R: Threads + Wait + Sync>(
    rt: &R,
    alloc: Global,
    scenario: &Scenario,
    workers: u32,
    shelf: &mut H,
    gate: &G,
) -> Result<Played, RunFault>
    requires runnable { IsRunnable scenario.now }
    requires workers { (1 ≤ workers) × (workers ≤ 16) }
    ensures ends { EndsOver (ran.Leaves scenario.now) H.D.state H.state
        shelf.old shelf.new scenario.now result }
    ensures returned { ReturnsAll (H.state shelf.old) (H.state shelf.new) }
    ensures keeps { KeepsOthers (replayed.IsServerDisk scenario.now)
        (H.state shelf.old) (H.state shelf.new) }
{
    let before = match read_before(alloc, scenario, shelf) {
        Ok(before) => before,
        Err(fault) => return Err(fault),
    };
    match run(rt, alloc, scenario, workers, shelf, gate) {
        Ok(history) => Ok(Played { before, history }),
        Err(fault) => Err(fault),
    }
}

/// Keeps the text of a scenario on the disk `net`, and replays it over what its disks hold.
pub fn replay_kept<H: Shelf>(
    alloc: Global,
    scenario: &Scenario,
    shelf: &mut H,
) -> Result<Played, RunFault>
    requires { IsRunnable scenario.now }
    ensures ends { EndsKept (replayed.Leaves scenario.now) H.D.state H.state
        shelf.old shelf.new scenario.now result }
    ensures returned { ReturnsAll (H.state shelf.old) (H.state shelf.new) }
    ensures tells { (H.state shelf.new).tells ≡ (H.state shelf.old).tells }
{
    match keep_base(alloc, scenario, shelf) {
        Ok(()) => replay_over(alloc, scenario, shelf),
        Err(fault) => Err(fault),
    }
}

/// Keeps the text of a scenario on the disk `net`, and runs it over what its disks hold.
pub fn run_kept<H: Shelf, G: Gate, R: Threads + Wait + Sync>(
    rt: &R,
    alloc: Global,
    scenario: &Scenario,
    workers: u32,
    shelf: &mut H,
    gate: &G,
) -> Result<Played, RunFault>
    requires runnable { IsRunnable scenario.now }
    requires workers { (1 ≤ workers) × (workers ≤ 16) }
    ensures ends { EndsKept (ran.Leaves scenario.now) H.D.state H.state
        shelf.old shelf.new scenario.now result }
    ensures returned { ReturnsAll (H.state shelf.old) (H.state shelf.new) }
    ensures tells { (H.state shelf.new).tells ≡ (H.state shelf.old).tells }
{
    match keep_base(alloc, scenario, shelf) {
        Ok(()) => run_over(rt, alloc, scenario, workers, shelf, gate),
        Err(fault) => Err(fault),
    }
}
