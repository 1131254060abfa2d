//! The nodes of a replay before its first entry.
ghost use Rattle.std.specs.Prelude.{◌≡◌, ◌≤◌, [], IfOk, length, vec_capacity};
ghost use Rattle.scenario_form.specs.Runnable.{IsRunnable};
ghost use Rattle.scenario_nodes.specs.Nodes.{IsNewManager};
ghost use Rattle.scenario_nodes.specs.Together.{AreEach};
ghost use Rattle.replay_runner.specs.OnShelves.{CanOpen, OpensNodes};
ghost use Rattle.replay_runner.specs.Opened.{AreNewMembers, IsSeated};

use crate::collecting::put;
use crate::members::Member;
use crate::nodes::Nodes;
use disk_model::Shelf;
use manager_core::Manager;
use node_seat::{RunFault, RunName};
use node_steps::Node;
use scenario_form::Scenario;
use scenario_nodes::{Servers, new_manager, open_servers};
use seata_types::NoMemory;
use std::alloc::Global;

/// The managers of a scenario.
pub fn new_managers<K: RunName>(
    alloc: Global,
    scenario: &Scenario,
) -> Result<Vec<Member<Manager, K>>, NoMemory>
    requires runnable { IsRunnable scenario.now }
    ensures { IfOk result (λ managers.
        AreNewMembers (IsNewManager scenario.now) scenario.now.managers managers.items) }
{
    let mut made = Vec::new(alloc);
    for (k, def) in scenario.managers.as_slice().iter().enumerate() {
        let manager = new_manager(alloc, scenario, k as u16 + 1, def)?;
        put(&mut made, Member::new(alloc, manager))?;
    }
    Ok(made)
}

/// Gives each of these nodes a seat: there is room for all.
fn seated<N: Node + Drop, K: RunName>(
    alloc: Global,
    nodes: Vec<N>,
    mut members: Vec<Member<N, K>>,
) -> Vec<Member<N, K>>
    requires none { members.items ≡ [] }
    requires room { length nodes.items ≤ vec_capacity members }
    ensures { AreEach IsSeated nodes.items result.items }
{
    for node in nodes {
        members.push_reserved(Member::new(alloc, node));
    }
    members
}

/// Opens the nodes of a scenario, with these managers. The room for their seats is had before any disk is taken.
pub fn open_nodes<H: Shelf, K: RunName>(
    alloc: Global,
    scenario: &Scenario,
    shelf: &mut H,
    seconds: &[String],
    managers: Vec<Member<Manager, K>>,
) -> Result<Nodes<H::D, K>, RunFault>
    requires can { CanOpen scenario.now seconds.now }
    requires managers { AreNewMembers (IsNewManager scenario.now)
        scenario.now.managers managers.items }
    ensures { OpensNodes H.D.state scenario.now
        (H.state shelf.old) (H.state shelf.new) result }
{
    let Ok(members) = Vec::with_capacity(alloc, scenario.resources.as_slice().len()) else {
        return Err(RunFault::NoMemory);
    };
    match open_servers(alloc, scenario, shelf, seconds) {
        Ok(servers) => {
            let Servers {
                coordinator,
                resources,
            } = servers;
            Ok(Nodes {
                coordinator: Member::new(alloc, coordinator),
                resources: seated(alloc, resources, members),
                managers,
            })
        }
        Err(fault) => Err(fault),
    }
}
