//! The queue of plans, by moment and then by number. It may have plans that don't stand any longer, but not as its first.
ghost use Rattle.std.specs.Prelude.{◌≡◌, ◌≤◌, ◌<◌, ◌+◌, ◌^◌, ◌↔◌, OnOk, IfSome, IsTrue, Some, length};
ghost use Rattle.std.specs.BinaryHeap.{heap_items, heap_capacity};
ghost use Rattle.retry_turns.specs.Plans.{moment_of};
ghost use Rattle.retry_turns.specs.Queues.{Awaits, Keeps, IsQueueOf, IsInOrder, IsLeast, first_of};

use seata_types::NoMemory;
use std::cmp::Reverse;
use std::collections::{BTreeMap, BinaryHeap};

/// Moments with their transactions, of which the least comes first.
pub(crate) type Queue = BinaryHeap<Reverse<(u128, u64)>>;

/// Makes room for all plans and one more, and for as many that don't stand any longer: so a queue is made anew only after
/// as many changes as there are plans.
pub(crate) fn make_room(queue: &mut Queue, plans: usize) -> Result<(), NoMemory>
    requires { plans < 2 ^ 63 }
    ensures items { heap_items queue.new ≡ heap_items queue.old }
    ensures room { heap_capacity queue.old ≤ heap_capacity queue.new }
    ensures ok { OnOk result (plans + 1 ≤ heap_capacity queue.new) }
{
    let room = (plans + 1).saturating_mul(2);
    queue.reserve(room.saturating_sub(queue.len()))?;
    Ok(())
}

/// Puts a transaction that was planned into the queue of the other plans.
pub(crate) fn put(queue: &mut Queue, moments: &BTreeMap<u64, u128>, number: u64, at: u128)
    requires { Awaits moments.now.entries number at (heap_items queue.old) (heap_capacity queue.old) }
    ensures { IsQueueOf moments.now.entries (heap_items queue.new) (heap_capacity queue.new) }
{
    add(queue, moments, number, at);
    settle(queue, moments);
}

// Room may be missing only for what doesn't stand any longer.
fn add(queue: &mut Queue, moments: &BTreeMap<u64, u128>, number: u64, at: u128)
    requires { Awaits moments.now.entries number at (heap_items queue.old) (heap_capacity queue.old) }
    ensures { Keeps moments.now.entries (heap_items queue.new) (heap_capacity queue.new) }
{
    if queue.len() == queue.capacity() {
        return fill(queue, moments);
    }
    let pushed = queue.push(Reverse((at, number)));
    prove!(pushed.is_ok());
    drop(pushed);
}

/// Makes the queue anew of the plans that stand.
fn fill(queue: &mut Queue, moments: &BTreeMap<u64, u128>)
    requires { length moments.now.entries ≤ heap_capacity queue.old }
    ensures { Keeps moments.now.entries (heap_items queue.new) (heap_capacity queue.new) }
{
    queue.clear();
    for (number, at) in moments {
        let pushed = queue.push(Reverse((*at, *number)));
        prove!(pushed.is_ok());
        drop(pushed);
    }
}

/// Whether a transaction is planned for this moment.
fn stands(moments: &BTreeMap<u64, u128>, number: u64, at: u128) -> bool
    ensures { IsTrue result ↔ (moment_of moments.now.entries number ≡ Some at) }
{
    match moments.get(&number) {
        Some(planned) => *planned == at,
        None => false,
    }
}

/// Drops the first ones until a plan that stands comes first.
pub(crate) fn settle(queue: &mut Queue, moments: &BTreeMap<u64, u128>)
    requires { Keeps moments.now.entries (heap_items queue.old) (heap_capacity queue.old) }
    ensures { IsQueueOf moments.now.entries (heap_items queue.new) (heap_capacity queue.new) }
{
    while let Some((at, number)) = first(queue) {
        if stands(moments, number, at) {
            return;
        }
        drop(queue.pop());
    }
}

/// The moment and the transaction that come first.
pub(crate) fn first(queue: &Queue) -> Option<(u128, u64)>
    ensures first { result ≡ first_of (heap_items queue.now) }
    ensures least { IfSome result (λ p. IsInOrder (heap_items queue.now) → IsLeast p (heap_items queue.now)) }
{
    match queue.peek() {
        Some(Reverse((at, number))) => Some((*at, *number)),
        None => None,
    }
}
