//! The locks behind which the seats of a run lie while a round is made.
ghost use Rattle.std.specs.Prelude.{◌≡◌, true, IfOk};
ghost use Rattle.run_rounds.specs.Seating.{AreLocksOf, lock_places, place_in, places_of};

use crate::begun::Begun;
use crate::seats::{Locks, Seats, Shared};
use node_seat::{RunName, Turned};
use node_steps::Node;
use seata_types::{NoMemory, Place};
use std::alloc::Global;
use std::mem;
use std::sync::{Mutex, Wait};

/// Where the node of a seat stands, if the seat is there.
fn place_of<N: Node, K: RunName>(seat: &Option<Begun<N, K>>) -> Option<Place>
    ensures { result ≡ place_in N.state seat.now }
{
    let begun = seat.as_ref()?;
    Some(begun.node().place())
}

/// Whether two seats are at one place, or neither is there.
fn is_same(one: Option<Place>, other: Option<Place>) -> bool
    ensures { result ≡ true → one ≡ other }
{
    match (one, other) {
        (Some(one), Some(other)) => one == other,
        (None, None) => true,
        _ => false,
    }
}

impl<N: Node, K: RunName> Shared<N, K> {
    ghost use Rattle.std.specs.Prelude.{◌≡◌};
    ghost use Rattle.run_rounds.specs.Seating.{place_in};

    /// The lock of this seat.
    fn of(seat: &Option<Begun<N, K>>) -> Shared<N, K>
        ensures { result.place ≡ place_in N.state seat.now }
    {
        Shared {
            place: place_of(seat),
            lock: Mutex::new(None),
        }
    }

    /// Exchanges what lies behind the lock for what doesn't: a seat, or none.
    fn exchange<R: Wait>(&self, rt: &R, seat: &mut Option<Begun<N, K>>) {
        let mut guard = self.lock.lock(rt);
        mem::swap(&mut *guard, seat);
    }

    /// One turn of the seat behind the lock. None where it answers a fault.
    pub fn turn<R: Wait>(&self, rt: &R, alloc: Global) -> Option<Turned> {
        let mut guard = self.lock.lock(rt);
        let begun = guard.as_mut()?;
        begun.turn(rt, alloc).ok()
    }
}

/// The locks of these seats.
fn locks_of<N: Node + Drop, K: RunName>(
    alloc: Global,
    seats: &[Option<Begun<N, K>>],
) -> Result<Vec<Shared<N, K>>, NoMemory>
    ensures { IfOk result (λ locks. places_of N.state seats.now ≡ lock_places locks.items) }
{
    let mut locks = Vec::new(alloc);
    for seat in seats {
        locks.push(Shared::of(seat))?;
    }
    Ok(locks)
}

/// Exchanges each of these seats for what lies behind its lock.
fn exchange_all<N: Node, K: RunName, R: Wait>(
    rt: &R,
    locks: &[Shared<N, K>],
    seats: &mut [Option<Begun<N, K>>],
) {
    for (lock, seat) in locks.iter().zip(seats) {
        lock.exchange(rt, seat);
    }
}

/// Whether a seat is out of its lock, at the place of the lock.
fn is_back<N: Node, K: RunName>(seat: &Option<Begun<N, K>>, lock: &Shared<N, K>) -> bool
    ensures { result ≡ true → place_in N.state seat.now ≡ lock.now.place }
{
    is_same(place_of(seat), lock.place)
}

/// Whether each of these seats is.
fn are_back<N: Node, K: RunName>(seats: &[Option<Begun<N, K>>], locks: &[Shared<N, K>]) -> bool
    ensures { result ≡ true → places_of N.state seats.now ≡ lock_places locks.now }
{
    if seats.len() != locks.len() {
        return false;
    }
    for k in 0..seats.len() {
        if !is_back(&seats[k], &locks[k]) {
            return false;
        }
    }
    true
}

/// The locks of the seats of a run.
pub fn locks_for<C: Node + Drop, S: Node + Drop, M: Node + Drop, K: RunName>(
    alloc: Global,
    seats: &Seats<C, S, M, K>,
) -> Result<Locks<C, S, M, K>, NoMemory>
    ensures { IfOk result (AreLocksOf C.state S.state M.state seats.now) }
{
    let resources = locks_of(alloc, seats.resources.as_slice())?;
    let managers = locks_of(alloc, seats.managers.as_slice())?;
    Ok(Locks {
        coordinator: Shared::of(&seats.coordinator),
        resources,
        managers,
    })
}

impl<C: Node, S: Node, M: Node, K: RunName> Locks<C, S, M, K> {
    ghost use Rattle.std.specs.Prelude.{◌≡◌, true};
    ghost use Rattle.run_rounds.specs.Seating.{AreLocksOf};

    /// Exchanges the seats for what lies behind their locks.
    pub fn exchange<R: Wait>(&self, rt: &R, seats: &mut Seats<C, S, M, K>) {
        let Seats {
            coordinator,
            resources,
            managers,
        } = seats;
        self.coordinator.exchange(rt, coordinator);
        exchange_all(rt, self.resources.as_slice(), resources.as_mut_slice());
        exchange_all(rt, self.managers.as_slice(), managers.as_mut_slice());
    }

    /// Whether each seat is out of its lock, at the place of the lock.
    pub fn are_free(&self, seats: &Seats<C, S, M, K>) -> bool
        ensures { result ≡ true → AreLocksOf C.state S.state M.state seats.now self.now }
    {
        if !is_back(&seats.coordinator, &self.coordinator) {
            return false;
        }
        if !are_back(seats.resources.as_slice(), self.resources.as_slice()) {
            return false;
        }
        are_back(seats.managers.as_slice(), self.managers.as_slice())
    }
}
