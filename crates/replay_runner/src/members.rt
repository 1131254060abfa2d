//! The nodes of a replay.
ghost use Rattle.std.specs.Prelude.{◌≡◌};
ghost use Rattle.replay_runner.specs.Members as members;

use crate::messages::{Letter, letter_of};
use history_text::Cause;
use node_seat::{RunFault, RunName, Seat};
use node_steps::Node;
use seata_types::Input;
use std::alloc::Global;

/// A node of a replay with the stamp of its last turn, 0 where it had none.
#[derive(Drop)]
pub struct Member<N: Node, K: RunName> {
    pub seat: Seat<N, K>,
    pub turned: u32,
}

impl<N: Node, K: RunName> Member<N, K> {
    ghost use Rattle.std.specs.Prelude.{◌≡◌, ◌≤◌, ◌+◌, [], Some, IfErr};
    ghost use Rattle.history_rules.specs.Own.{Event};
    ghost use Rattle.node_steps.specs.Promises.{StaysItself};
    ghost use Rattle.node_seat.specs.Entering.{event_by};
    ghost use Rattle.node_seat.specs.Faults.{CountsFault};
    ghost use Rattle.node_seat.specs.Keeping.{MayEnter};
    ghost use Rattle.replay_runner.specs.Members.{IsMade};

    /// A node that did nothing yet.
    pub fn new(alloc: Global, node: N) -> Member<N, K>
        ensures node { result.seat.node ≡ node }
        ensures trace { result.seat.trace ≡ [] }
        ensures turned { result.turned ≡ 0 }
    {
        Member {
            seat: Seat::new(alloc, node),
            turned: 0,
        }
    }

    /// Makes one entry, and gives the message that it sent.
    pub fn enter(
        &mut self,
        alloc: Global,
        stamp: u32,
        now: u64,
        cause: Cause,
        input: Option<Input>,
    ) -> Result<Option<Letter>, RunFault>
        requires { MayEnter (N.state self.old.seat.node) self.old.seat.trace
            stamp now cause input }
        ensures made { (event : Event) → event_by cause input ≡ Some event
            → IsMade N.state self.old self.new stamp now cause event result }
        ensures failed { IfErr result
            (CountsFault (N.state self.old.seat.node) (N.state self.new.seat.node)) }
        ensures same { StaysItself (N.state self.old.seat.node) (N.state self.new.seat.node) }
        ensures counted { (N.state self.old.seat.node).left
            ≤ (N.state self.new.seat.node).left + 1 }
    {
        let packet = match self.seat.enter(alloc, stamp, now, cause, input) {
            Ok(packet) => packet,
            Err(fault) => return Err(fault),
        };
        self.turned = turned_by(cause, stamp, self.turned);
        Ok(letter_of(self.seat.node().place(), self.seat.trace(), packet))
    }
}

/// The stamp of a node's last turn, after an entry.
fn turned_by(cause: Cause, stamp: u32, before: u32) -> u32
    ensures { result ≡ members.turned_by cause stamp before }
{
    if matches!(cause, Cause::Turn) {
        stamp
    } else {
        before
    }
}
