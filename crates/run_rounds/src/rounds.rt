//! The rounds of a run.
ghost use Rattle.std.specs.Prelude.{◌≤◌, OnOk, IfErr};
ghost use Rattle.coordinator_core.specs.Standing as coordinator;
ghost use Rattle.resource_core.specs.NodeStanding as resource;
ghost use Rattle.manager_core.specs.Standing as manager;
ghost use Rattle.run_rounds.specs.Ending.{EndBy, HaveEnded, HaveStopped};
ghost use Rattle.run_rounds.specs.Seating.{AreFew, AreLocksOf, StandAs};

use crate::ends::end_of;
use crate::gates::Gate;
use crate::locks::locks_for;
use crate::seats::{Locks, Seats};
use crate::work::{Worker, work, workers_for};
use coordinator_core::Coordinator;
use disk_model::Disk;
use manager_core::Manager;
use node_seat::{RunFault, RunName};
use node_steps::Node;
use resource_core::Resource;
use std::alloc::Global;
use std::sync::Wait;
use std::thread;
use std::thread::Threads;

/// The most workers.
const WORKERS: usize = 16;

/// Has each worker make its turns of a round, in a thread of its own.
fn work_all<C, S, M, K, G, R>(
    rt: &R,
    alloc: Global,
    gate: &G,
    locks: &Locks<C, S, M, K>,
    workers: &mut [Worker],
)
where
    C: Node + Send,
    S: Node + Send,
    M: Node + Send,
    K: RunName + Send + Sync,
    G: Gate,
    R: Threads + Wait + Sync,
{
    thread::for_each_mut(
        rt,
        workers,
        WORKERS,
        &|_, worker| work(rt, alloc, gate, locks, worker),
    );
}

/// A round: each seat is put behind its lock, the workers make their turns, and the seats are taken out.
fn round<C, S, M, K, G, R>(
    rt: &R,
    alloc: Global,
    gate: &G,
    locks: &Locks<C, S, M, K>,
    workers: &mut [Worker],
    seats: &mut Seats<C, S, M, K>,
)
where
    C: Node + Send,
    S: Node + Send,
    M: Node + Send,
    K: RunName + Send + Sync,
    G: Gate,
    R: Threads + Wait + Sync,
{
    locks.exchange(rt, seats);
    work_all(rt, alloc, gate, locks, workers);
    locks.exchange(rt, seats);
}

/// Makes rounds until the run has ended after one, or a seat answered a fault. A round after which a seat isn't at its place,
/// as never happens, isn't the last.
fn rounds<D, K, G, R>(
    rt: &R,
    alloc: Global,
    gate: &G,
    locks: &Locks<Coordinator<D>, Resource<D>, Manager, K>,
    workers: &mut [Worker],
    seats: &mut Seats<Coordinator<D>, Resource<D>, Manager, K>,
) -> Result<(), RunFault>
where
    D: Disk + Send,
    K: RunName + Send + Sync,
    G: Gate,
    R: Threads + Wait + Sync,
    ensures locked { AreLocksOf (coordinator.node_state D.state) (resource.node_state D.state)
        manager.node_state seats.new locks.now }
    ensures ended { EndBy D.state seats.new result }
{
    for _ in rt.forever() {
        round(rt, alloc, gate, locks, workers, seats);
        if locks.are_free(seats) {
            if let Some(end) = end_of(seats) {
                return end;
            }
        }
    }
    unreachable!()
}

/// Makes rounds of so many workers, each in a thread of its own, until after one the run has ended or a seat answered a fault:
/// then that of the least place is answered. Want of memory comes before the first round, with all as before. The seats are
/// then there as before, each with its node where it stood. It may wait, and where messages are lost for good it may never
/// return.
pub fn make_rounds<D, K, G, R>(
    rt: &R,
    alloc: Global,
    gate: &G,
    workers: u32,
    seats: &mut Seats<Coordinator<D>, Resource<D>, Manager, K>,
) -> Result<(), RunFault>
where
    D: Disk + Send + Drop,
    K: RunName + Send + Sync,
    G: Gate,
    R: Threads + Wait + Sync,
    requires workers { (1 ≤ workers) × (workers ≤ 16) }
    requires few { AreFew seats.old }
    ensures placed { StandAs (coordinator.node_state D.state) (resource.node_state D.state)
        manager.node_state seats.old seats.new }
    ensures ended { OnOk result (HaveEnded D.state seats.new) }
    ensures stopped { IfErr result (HaveStopped seats.old seats.new) }
{
    let Ok(locks) = locks_for(alloc, seats) else {
        return Err(RunFault::NoMemory);
    };
    let (resources, managers) = (seats.resources.len(), seats.managers.len());
    let Ok(mut crew) = workers_for(alloc, workers, resources, managers) else {
        return Err(RunFault::NoMemory);
    };
    rounds(rt, alloc, gate, &locks, crew.as_mut_slice(), seats)
}
