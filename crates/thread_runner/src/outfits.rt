//! What the seats of a run are made of, beside their nodes.
ghost use Rattle.std.specs.Prelude.{◌≡◌, ◌≤◌, ◌+◌, ◌++◌, ◌∷◌, ◌^◌, [], length, IfOk, OnOk};
ghost use Rattle.scenario_form.specs.Runnable.{IsRunnable};
ghost use Rattle.run_links.specs.Linked.{HasEndsAt};
ghost use Rattle.thread_runner.specs.Seats as seats;
ghost use Rattle.thread_runner.specs.Seats.{AreOutfits, EachHas, IsOutfitAt};

use link_queue::{SendSeat, TakeSeat};
use node_seat::{Plan, RunName};
use run_links::{NodeLinks, plan_of};
use scenario_form::Scenario;
use seata_types::{List, NoMemory, Place};
use std::alloc::Global;

/// What the seat of a node is made of, beside the node: its plan and the ends of its links.
#[derive(Drop)]
pub struct Outfit {
    pub plan: Plan,
    pub takers: List<TakeSeat>,
    pub senders: List<SendSeat>,
}

/// Adds one behind the others.
pub(crate) fn put<T: Drop>(made: &mut Vec<T>, item: T) -> Result<(), NoMemory>
    ensures { OnOk result (made.new.items ≡ made.old.items ++ item ∷ []) }
{
    made.push(item)?;
    Ok(())
}

/// The place of the manager or of the resource with a number.
fn numbered_place(managers: bool, number: u16) -> Place
    ensures { result ≡ seats.numbered_place managers number }
{
    if managers {
        Place::Man(number)
    } else {
        Place::Res(number)
    }
}

/// What the seat of the node at a place is made of, with the ends of its links. Its clock begins at 0: where the coordinator's
/// begins is told by its disks.
pub(crate) fn outfit_at<K: RunName>(
    alloc: Global,
    scenario: &Scenario,
    place: Place,
    links: NodeLinks,
) -> Result<Outfit, NoMemory>
    requires runnable { IsRunnable scenario.now }
    requires ends { HasEndsAt K.run.queue place links }
    ensures { IfOk result (IsOutfitAt scenario.now K.run.queue place) }
{
    let plan = plan_of(alloc, scenario, place, 0)?;
    Ok(Outfit {
        plan,
        takers: List::of(links.takers),
        senders: List::of(links.senders),
    })
}

/// The same of all managers, or of all resources, with the ends of the links of each.
pub(crate) fn outfits<K: RunName>(
    alloc: Global,
    scenario: &Scenario,
    managers: bool,
    links: Vec<NodeLinks>,
) -> Result<Vec<Outfit>, NoMemory>
    requires runnable { IsRunnable scenario.now }
    requires few { length links.items ≤ 2 ^ 15 }
    requires ends { EachHas (λ k. HasEndsAt K.run.queue (seats.numbered_place managers (k + 1)))
        links.items }
    ensures { IfOk result (λ made.
        AreOutfits scenario.now K.run.queue managers (length links.items) made.items) }
{
    let mut made = Vec::new(alloc);
    for ends in links {
        let place = numbered_place(managers, made.len() as u16 + 1);
        let outfit = outfit_at::<K>(alloc, scenario, place, ends)?;
        put(&mut made, outfit)?;
    }
    Ok(made)
}
