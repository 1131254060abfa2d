//! Whether a run has ended.
ghost use Rattle.std.specs.Prelude.{◌≡◌, true, IfSome};
ghost use Rattle.run_rounds.specs.Ending as ending;

use crate::begun::Begun;
use crate::seats::Seats;
use coordinator_core::Coordinator;
use disk_model::Disk;
use manager_core::Manager;
use node_seat::{RunFault, RunName};
use node_steps::Node;
use resource_core::Resource;

/// The fault that a seat answered, if it is there and did.
fn fault_of<N: Node, K: RunName>(seat: &Option<Begun<N, K>>) -> Option<RunFault>
    ensures { result ≡ ending.fault_in seat.now }
{
    let begun = seat.as_ref()?;
    begun.fault()
}

/// The fault of the first of these seats that answered one.
fn first_fault<N: Node, K: RunName>(seats: &[Option<Begun<N, K>>]) -> Option<RunFault>
    ensures { result ≡ ending.first_fault seats.now }
{
    for seat in seats {
        if let Some(fault) = fault_of(seat) {
            return Some(fault);
        }
    }
    None
}

/// The fault of the seat of the least place that answered one.
fn least_fault<C: Node, S: Node, M: Node, K: RunName>(seats: &Seats<C, S, M, K>) -> Option<RunFault>
    ensures { result ≡ ending.least_fault seats.now }
{
    if let Some(fault) = fault_of(&seats.coordinator) {
        return Some(fault);
    }
    if let Some(fault) = first_fault(seats.resources.as_slice()) {
        return Some(fault);
    }
    first_fault(seats.managers.as_slice())
}

/// Whether the coordinator is up and all its transactions are over.
fn is_over<D: Disk>(coordinator: &Coordinator<D>) -> bool
    ensures { result ≡ true → ending.IsOver D.state coordinator.now }
{
    !coordinator.is_down() && coordinator.unended() == 0
}

/// Whether each of the managers is at its end.
fn are_done<K: RunName>(managers: &[Option<Begun<Manager, K>>]) -> bool
    ensures { result ≡ true → ending.AreDone managers.now }
{
    for manager in managers {
        if let Some(begun) = manager {
            if !begun.node().at_end() {
                return false;
            }
        }
    }
    true
}

/// How the run has ended, if it has.
pub fn end_of<D: Disk, K: RunName>(
    seats: &Seats<Coordinator<D>, Resource<D>, Manager, K>,
) -> Option<Result<(), RunFault>>
    ensures { IfSome result (ending.EndBy D.state seats.now) }
{
    if let Some(fault) = least_fault(seats) {
        return Some(Err(fault));
    }
    let coordinator = seats.coordinator.as_ref()?;
    if is_over(coordinator.node()) && are_done(seats.managers.as_slice()) {
        return Some(Ok(()));
    }
    None
}
