//! The nodes of a replay.
ghost use Rattle.std.specs.Prelude.{◌≡◌, map};
ghost use Rattle.replay_runner.specs.Members as members;

use crate::members::Member;
use crate::messages::Letter;
use coordinator_core::Coordinator;
use disk_model::Disk;
use history_text::Cause;
use manager_core::Manager;
use node_seat::{RunFault, RunName};
use node_steps::Node;
use resource_core::Resource;
use seata_types::{Input, Place};
use std::alloc::Global;

/// The nodes of a replay. Resources and managers are counted from 1.
#[derive(Drop)]
pub struct Nodes<D: Disk, K: RunName> {
    pub coordinator: Member<Coordinator<D>, K>,
    pub resources: Vec<Member<Resource<D>, K>>,
    pub managers: Vec<Member<Manager, K>>,
}

impl<D: Disk, K: RunName> Nodes<D, K> {
    ghost use Rattle.std.specs.Prelude.{◌≡◌, ◌+◌, ℕ, length, IfErr, OnOk};
    ghost use Rattle.scenario_form.specs.Runnable.{IsPlaceAmong};
    ghost use Rattle.replay_runner.specs.Going.{CanEnter, NodesGo};
    ghost use Rattle.replay_runner.specs.Ends.{HaveCountedAt};
    ghost use Rattle.replay_runner.specs.Entering.{Comes, Entered, IsEarliest};
    ghost use Rattle.replay_runner.specs.Standing.{disks_at};

    /// Makes one entry at a node, and gives the message that it sent.
    pub fn enter(
        &mut self,
        alloc: Global,
        place: Place,
        stamp: u32,
        now: u64,
        cause: Cause,
        input: Option<Input>,
    ) -> Result<Option<Letter>, RunFault>
        requires can { CanEnter self.old stamp now place cause input }
        ensures entered { (c : Comes D.state self.old stamp place cause input) →
            Entered D.state self.old self.new stamp now place cause input c result }
        ensures failed { IfErr result (HaveCountedAt (disks_at D.state self.new)) }
        ensures goes { OnOk result
            (NodesGo (length self.old.managers.items) (length self.old.resources.items)
            (stamp + 1) now self.new) }
        ensures count { length self.new.resources.items ≡ length self.old.resources.items }
    {
        match place {
            Place::Tc => self.coordinator.enter(alloc, stamp, now, cause, input),
            Place::Res(n) => self.resources[n as usize - 1].enter(alloc, stamp, now, cause, input),
            Place::Man(n) => self.managers[n as usize - 1].enter(alloc, stamp, now, cause, input),
            Place::Net => unreachable!(),
        }
    }

    /// The node whose last turn is the earliest; of several the first in the order coordinator, resources, managers.
    pub fn longest_waiting(&self) -> Place
        requires numbered { (stamp now : ℕ) × NodesGo (length self.now.managers.items)
            (length self.now.resources.items) stamp now self.now }
        ensures earliest { IsEarliest D.state self.now result }
        ensures there { IsPlaceAmong (length self.now.resources.items)
            (length self.now.managers.items) result }
    {
        let first = (Place::Tc, self.coordinator.turned);
        let first = earlier(first, self.resources.as_slice());
        earlier(first, self.managers.as_slice()).0
    }
}

/// Of a place with the stamp of its last turn and of these nodes, the one whose last turn is the earliest; of several the first.
fn earlier<N: Node, K: RunName>(first: (Place, u32), others: &[Member<N, K>]) -> (Place, u32)
    ensures { result ≡ members.earliest_of first (map (members.turn_of N.state) others.now) }
{
    let (mut place, mut turned) = first;
    for member in others {
        if member.turned < turned {
            place = member.seat.node().place();
            turned = member.turned;
        }
    }
    (place, turned)
}
