//! A seat of a run whose node made its first stop, if it has one.
use node_seat::{RunFault, RunName, Seat, Turned};
use node_steps::Node;
use std::alloc::Global;
use std::marker::Model;
use std::sync::Wait;

/// A seat of a run that can have turns, or answered a fault, which it then answers at each. Its type is all that is known of it
/// once it was behind a lock. Contracts see it as its seat.
#[derive(Drop)]
pub struct Begun<N: Node, K: RunName> {
    seat: Seat<N, K>,
}

impl<N: Node, K: RunName> Model for Begun<N, K> {
    ghost use Rattle.node_seat.specs.Seating.{Seated, seated_code};
    ghost use Rattle.run_rounds.specs.Beginning.{HasBegun};

    ghost Value = { Seated N };

    ghost coded = { seated_code N.code };

    ghost view = { λ b. b.seat };

    ghost invariant = { λ b. HasBegun b.seat };
}

impl<N: Node, K: RunName> Begun<N, K> {
    ghost use Rattle.std.specs.Prelude.{◌≡◌};
    ghost use Rattle.node_seat.specs.Turns.{AnswersTurn, HasDisksToStop, IsUnmoved};
    ghost use Rattle.run_rounds.specs.Beginning.{Begins, HasBegun};

    /// Makes the first stop of a seat that did nothing yet, if it has one. After a fault each turn answers that.
    pub fn new<R: Wait>(rt: &R, alloc: Global, seat: Seat<N, K>) -> Begun<N, K>
        requires first { IsUnmoved seat }
        requires disks { HasDisksToStop (N.state seat.node) seat.plan }
        ensures { Begins N.state seat result }
    {
        let mut seat = seat;
        let _stopped = seat.begin(rt, alloc);
        Begun { seat }
    }

    /// One turn. After a fault each turn answers that, and nothing happens.
    pub fn turn<R: Wait>(&mut self, rt: &R, alloc: Global) -> Result<Turned, RunFault>
        ensures { AnswersTurn N.state self.old.fault self.old self.new result }
    {
        match self.seat.fault() {
            Some(fault) => Err(fault),
            None => self.seat.turn(rt, alloc),
        }
    }

    /// The fault that a turn answers, where one was answered.
    pub fn fault(&self) -> Option<RunFault>
        ensures { result ≡ self.now.fault }
    {
        self.seat.fault()
    }

    /// Its node.
    pub fn node(&self) -> &N
        ensures { result.now ≡ self.now.node }
    {
        self.seat.node()
    }

    /// Its seat, with what its type keeps.
    pub fn into_seat(self) -> Seat<N, K>
        ensures seat { result ≡ self }
        ensures begun { HasBegun self }
    {
        self.seat
    }
}
