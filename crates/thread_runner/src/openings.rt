//! The seats of the nodes of a run, before its first round.
ghost use Rattle.std.specs.Prelude.{◌≡◌, ◌≤◌, [], length, vec_capacity, IfOk};
ghost use Rattle.scenario_form.specs.Runnable.{IsRunnable};
ghost use Rattle.scenario_nodes.specs.Together.{AreEach};
ghost use Rattle.run_links.specs.Linked.{AreLinksOf, queue_of};
ghost use Rattle.thread_runner.specs.Seats.{AreNewManagers, IsNamedFor, IsPutAt, MaySit};
ghost use Rattle.thread_runner.specs.Ready.{IsReady};

use crate::closings::{Room, room_for};
use crate::outfits::{Outfit, outfit_at, outfits, put};
use disk_model::Disk;
use manager_core::Manager;
use node_seat::{RunName, Seat};
use node_steps::Node;
use resource_core::Resource;
use run_links::RunLinks;
use run_rounds::Begun;
use scenario_form::Scenario;
use scenario_nodes::new_manager;
use seata_types::{NoMemory, Place};
use std::alloc::Global;
use std::sync::Wait;

/// What a run has before any disk is taken: so all disks are given back, whatever memory is refused later. There is room for
/// the seats of the resources.
#[derive(Drop)]
pub struct Ready<D: Disk, K: RunName> {
    pub coordinator: Outfit,
    pub resources: Vec<Outfit>,
    pub seats: Vec<Option<Begun<Resource<D>, K>>>,
    pub managers: Vec<Option<Begun<Manager, K>>>,
    pub room: Room<D, K>,
}

/// The managers of a scenario.
fn new_managers(alloc: Global, scenario: &Scenario) -> Result<Vec<Manager>, NoMemory>
    requires { IsRunnable scenario.now }
    ensures { IfOk result (λ managers. AreNewManagers scenario.now managers.items) }
{
    let mut made = Vec::new(alloc);
    for (k, def) in scenario.managers.as_slice().iter().enumerate() {
        let manager = new_manager(alloc, scenario, k as u16 + 1, def)?;
        put(&mut made, manager)?;
    }
    Ok(made)
}

/// The seat of a node that did nothing yet. It made its first stop, if it has one.
pub(crate) fn seat_of<N: Node, K: RunName, R: Wait>(
    rt: &R,
    alloc: Global,
    node: N,
    outfit: Outfit,
) -> Option<Begun<N, K>>
    requires { MaySit K.world K.held K.run (N.state node) outfit }
    ensures { IsPutAt N.state (N.state node).place result }
{
    let Outfit {
        plan,
        takers,
        senders,
    } = outfit;
    let seat = Seat::linked(alloc, node, plan, takers, senders);
    Some(Begun::new(rt, alloc, seat))
}

/// The seats of such nodes: there is room for all.
pub(crate) fn seats_of<N: Node + Drop, K: RunName, R: Wait>(
    rt: &R,
    alloc: Global,
    nodes: Vec<N>,
    outfits: Vec<Outfit>,
    mut seats: Vec<Option<Begun<N, K>>>,
) -> Vec<Option<Begun<N, K>>>
    requires may { AreEach (λ node. MaySit K.world K.held K.run (N.state node))
        nodes.items outfits.items }
    requires none { seats.items ≡ [] }
    requires room { length nodes.items ≤ vec_capacity seats }
    ensures { AreEach (λ node. IsPutAt N.state (N.state node).place) nodes.items result.items }
{
    let mut outfits = outfits.into_iter();
    for node in nodes {
        match outfits.next() {
            Some(outfit) => seats.push_reserved(seat_of(rt, alloc, node, outfit)),
            None => unreachable!(),
        }
    }
    seats
}

/// What a run of a scenario has before any disk is taken, with these links.
pub(crate) fn prepare<D: Disk + Drop, K: RunName, R: Wait>(
    rt: &R,
    alloc: Global,
    scenario: &Scenario,
    links: RunLinks,
) -> Result<Ready<D, K>, NoMemory>
    requires runnable { IsRunnable scenario.now }
    requires links { AreLinksOf scenario.now links }
    requires queue { K.run.queue ≡ queue_of links }
    requires named { IsNamedFor K.world K.run scenario.now }
    ensures { IfOk result (IsReady K.run.queue scenario.now) }
{
    let RunLinks {
        coordinator,
        resources,
        managers,
    } = links;
    let servers = scenario.resources.as_slice().len();
    let users = scenario.managers.as_slice().len();
    let coordinator = outfit_at::<K>(alloc, scenario, Place::Tc, coordinator)?;
    let resources = outfits::<K>(alloc, scenario, false, resources)?;
    let given = outfits::<K>(alloc, scenario, true, managers)?;
    let made = new_managers(alloc, scenario)?;
    let room = room_for::<D, K>(alloc, servers, users)?;
    let seats = Vec::with_capacity(alloc, servers)?;
    let places = Vec::with_capacity(alloc, users)?;
    Ok(Ready {
        coordinator,
        resources,
        seats,
        managers: seats_of(rt, alloc, made, given, places),
        room,
    })
}
