//! The plans, each a transaction with the moment at which it is due.
ghost use Rattle.std.specs.Prelude.{◌≡◌, ◌+◌, [], OnOk, OnErr, IsTrue, IsOk};
ghost use Rattle.retry_turns.specs.Plans.{TellsDue, moment_of, is_planned, with_plan, without_plan};

use crate::queue;
use crate::queue::Queue;
use seata_types::{NoMemory, Xid};
use std::alloc::Global;
use std::collections::{BTreeMap, BinaryHeap};
use std::marker::Model;

/// The transactions that are planned, each for one moment in ticks, which may lie behind all moments of 64 bits. Contracts see each
/// with its moment, in order of their numbers.
///
/// Asking takes one look. Planning and forgetting take, over many calls, a logarithm of the plans: a plan that was changed
/// or forgotten may stay in the queue until it comes first, or until the queue is full and is made anew of the plans alone.
#[derive(Drop)]
pub struct Turns {
    moments: BTreeMap<u64, u128>,
    queue: Queue,
}

impl Model for Turns {
    ghost use Rattle.std.specs.BinaryHeap.{heap_items, heap_capacity};
    ghost use Rattle.retry_turns.specs.Plans.{Plans};
    ghost use Rattle.retry_turns.specs.Queues.{IsQueueOf};

    ghost Value = { Plans };

    ghost view = { λ t. t.moments.entries };

    ghost invariant = { λ t. IsQueueOf t.moments.entries (heap_items t.queue) (heap_capacity t.queue) };
}

impl Turns {
    /// Nothing is planned; takes no memory.
    pub fn new(alloc: Global) -> Turns
        ensures { result ≡ [] }
    {
        Turns {
            moments: BTreeMap::new(alloc),
            queue: BinaryHeap::new(alloc),
        }
    }

    /// Plans a transaction for a moment, in place of the one for which it was planned before. Memory is asked for only where
    /// it wasn't planned; where it is refused, the plans are as before.
    pub fn plan(&mut self, xid: Xid, at: u64) -> Result<(), NoMemory>
        ensures planned { OnOk result (self.new ≡ with_plan self.old xid.0 at) }
        ensures refused { OnErr result (self.new ≡ self.old) }
        ensures again { IsTrue (is_planned self.old xid.0) → IsOk result }
    {
        self.put(xid, at as u128)
    }

    /// The same for the moment so many ticks after another one.
    pub fn plan_after(&mut self, xid: Xid, moment: u64, ticks: u64) -> Result<(), NoMemory>
        ensures planned { OnOk result (self.new ≡ with_plan self.old xid.0 (moment + ticks)) }
        ensures refused { OnErr result (self.new ≡ self.old) }
        ensures again { IsTrue (is_planned self.old xid.0) → IsOk result }
    {
        self.put(xid, moment as u128 + ticks as u128)
    }

    // Plans a transaction for a moment.
    fn put(&mut self, xid: Xid, at: u128) -> Result<(), NoMemory>
        ensures planned { OnOk result (self.new ≡ with_plan self.old xid.0 at) }
        ensures refused { OnErr result (self.new ≡ self.old) }
        ensures again { IsTrue (is_planned self.old xid.0) → IsOk result }
    {
        if !self.moments.contains_key(&xid.0) {
            queue::make_room(&mut self.queue, self.moments.len())?;
        }
        self.moments.insert(xid.0, at)?;
        queue::put(&mut self.queue, &self.moments, xid.0, at);
        Ok(())
    }

    /// A transaction is planned no longer, if it was; takes no memory.
    pub fn forget(&mut self, xid: Xid)
        ensures { self.new ≡ without_plan self.old xid.0 }
    {
        self.moments.remove(&xid.0);
        queue::settle(&mut self.queue, &self.moments);
    }

    /// The moment for which a transaction is planned, where it is; takes no memory.
    pub fn moment(&self, xid: Xid) -> Option<u128>
        ensures { result ≡ moment_of self.now xid.0 }
    {
        self.moments.get(&xid.0).copied()
    }

    /// The transaction whose moment is the least of those that have come by `now`, of several with that moment the one with
    /// the least number; none where no moment has come. Takes no memory.
    pub fn next_due(&self, now: u64) -> Option<Xid>
        ensures { TellsDue self.now now result }
    {
        match queue::first(&self.queue) {
            Some((at, number)) if at <= now as u128 => Some(Xid(number)),
            _ => None,
        }
    }
}
