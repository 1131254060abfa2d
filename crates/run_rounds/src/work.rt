//! The turns of a worker in a round.
ghost use Rattle.std.specs.Prelude.{◌≡◌, ◌≤◌, IfOk, vec_len};
ghost use Rattle.seata_types.specs.declared.limits.TheConstants.{MANAGERS, RESOURCES};

use crate::courses::{Course, SeatOf};
use crate::gates::Gate;
use crate::seats::{Locks, Shared};
use node_seat::{RunName, Turned};
use node_steps::Node;
use seata_types::NoMemory;
use std::alloc::Global;
use std::sync::Wait;

/// How many turns a worker makes in a round.
const TURNS: u32 = 64;

/// A worker: its number, the seats that it visits, which of them is next, how many turns it made, and how many are left to it
/// in this round.
#[derive(Drop)]
pub struct Worker {
    number: u32,
    course: Course,
    next: u32,
    turns: u64,
    left: u32,
}

/// The workers of a run. Each begins at another shared seat, as far as there are enough, and has as many managers as another,
/// or one more.
pub fn workers_for(
    alloc: Global,
    count: u32,
    resources: usize,
    managers: usize,
) -> Result<Vec<Worker>, NoMemory>
    requires workers { (1 ≤ count) × (count ≤ 16) }
    requires resources { resources ≤ RESOURCES }
    requires managers { managers ≤ MANAGERS }
    ensures { IfOk result (λ workers. vec_len workers ≡ count) }
{
    let shared = resources as u32 + 1;
    let mut own = 0;
    let mut workers = Vec::new(alloc);
    for number in 0..count {
        let managed = (managers as u32 - own) / (count - number);
        workers.push(Worker {
            number,
            course: Course {
                shared,
                first: number * shared / count,
                own,
                last: shared + managed - 1,
            },
            next: 0,
            turns: 0,
            left: 0,
        })?;
        own += managed;
    }
    Ok(workers)
}

/// One turn of a worker at a seat. None: its round is over, since no turn is left to it, or the seat answered a fault.
fn turn_at<N: Node, K: RunName, G: Gate, R: Wait>(
    rt: &R,
    alloc: Global,
    gate: &G,
    shared: &Shared<N, K>,
    worker: &mut Worker,
) -> Option<Turned> {
    let place = shared.place?;
    if worker.left == 0 {
        return None;
    }
    gate.turn(worker.number, place, worker.turns);
    worker.left -= 1;
    worker.turns = worker.turns.saturating_add(1);
    shared.turn(rt, alloc)
}

/// Turns of a worker at a seat that all share, until one took no packet. Left with one turn a visit, a resource to which many
/// managers send would never have a turn of its own. False: its round is over.
fn visit<N: Node, K: RunName, G: Gate, R: Wait>(
    rt: &R,
    alloc: Global,
    gate: &G,
    shared: &Shared<N, K>,
    worker: &mut Worker,
) -> bool {
    for _ in 0..TURNS {
        match turn_at(rt, alloc, gate, shared, worker) {
            Some(Turned::Took) => {}
            Some(_) => return true,
            None => return false,
        }
    }
    false
}

/// A worker's visit of its next seat. False: its round is over.
fn visit_next<C: Node, S: Node, M: Node, K: RunName, G: Gate, R: Wait>(
    rt: &R,
    alloc: Global,
    gate: &G,
    locks: &Locks<C, S, M, K>,
    worker: &mut Worker,
) -> bool {
    match worker.course.seat_at(worker.next) {
        SeatOf::Coordinator => visit(rt, alloc, gate, &locks.coordinator, worker),
        SeatOf::Resource(k) => match locks.resources.get(k) {
            Some(shared) => visit(rt, alloc, gate, shared, worker),
            None => false,
        },
        SeatOf::Manager(k) => match locks.managers.get(k) {
            Some(shared) => turn_at(rt, alloc, gate, shared, worker).is_some(),
            None => false,
        },
    }
}

/// The turns of a worker in a round, at most 64. The next round goes on at the seat where this one stopped.
pub fn work<C: Node, S: Node, M: Node, K: RunName, G: Gate, R: Wait>(
    rt: &R,
    alloc: Global,
    gate: &G,
    locks: &Locks<C, S, M, K>,
    worker: &mut Worker,
) {
    worker.left = TURNS;
    for _ in 0..TURNS {
        if !visit_next(rt, alloc, gate, locks, worker) {
            return;
        }
        worker.next = worker.course.behind(worker.next);
    }
}
