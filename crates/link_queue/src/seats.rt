//! The two ends of a link, and what is left of the link once both are given back.
ghost use Rattle.std.specs.Prelude.{◌≡◌, ◌<◌, ◌^◌, ◌-◌, IfOk, OnOk, IfErr, OnErr, IfSome, IfNone};
ghost use Rattle.link_queue.specs.Links.{AreNew, IsFront, WasFull, with_pushed, with_refused, with_taken, with_missed};

use crate::rule::{End, Queue, Roles, Sends, Takes, Total};
use frame_codec::Packet;
use seata_types::{NoMemory, Place};
use std::alloc::Global;
use std::marker::Model;
use std::sync::{Arc, Wait};

/// How many packets a link holds.
const ROOM: usize = 64;

/// The end of a link that sends. Contracts see the link, the packets that were pushed, the oldest first, each as its message
/// and stamp, and how many came back.
#[derive(Drop)]
pub struct SendSeat {
    queue: Arc<Queue, Global>,
    end: End,
    from: Place,
    to: Place,
    refused: u64,
}

impl Model for SendSeat {
    ghost use Rattle.std.specs.Arc.{arc_value};
    ghost use Rattle.crossbeam_queue.specs.Passes.{view as view_of};
    ghost use Rattle.link_queue.specs.Knowing.{IsSender};
    ghost use Rattle.link_queue.specs.Links.{Sending, sending, sending_code};

    ghost Value = { Sending };

    ghost coded = { sending_code };

    ghost view = { λ s. sending s.end.table_id s.from s.to (view_of s.end).pushed s.refused };

    ghost invariant = { λ s. IsSender (arc_value s.queue) s.end };
}

/// The end of a link that takes. Contracts see the link, the packets that were taken, the oldest first, and how often none was
/// there.
#[derive(Drop)]
pub struct TakeSeat {
    queue: Arc<Queue, Global>,
    end: End,
    from: Place,
    to: Place,
    missed: u64,
}

impl Model for TakeSeat {
    ghost use Rattle.std.specs.Arc.{arc_value};
    ghost use Rattle.crossbeam_queue.specs.Passes.{view as view_of};
    ghost use Rattle.link_queue.specs.Knowing.{IsTaker};
    ghost use Rattle.link_queue.specs.Links.{Taking, taking, taking_code};

    ghost Value = { Taking };

    ghost coded = { taking_code };

    ghost view = { λ s. taking s.end.table_id s.from s.to (view_of s.end).taken s.missed };

    ghost invariant = { λ s. IsTaker (arc_value s.queue) s.end };
}

/// What went over a link: what was pushed, and the first of it that was taken. It has no bytes.
#[derive(Drop)]
pub struct LinkEnd {
    end: End,
}

impl Model for LinkEnd {
    ghost use Rattle.crossbeam_queue.specs.Passes.{view as view_of};
    ghost use Rattle.link_queue.specs.Links.{Ended, ended, ended_code, IsFront};

    ghost Value = { Ended };

    ghost coded = { ended_code };

    ghost view = { λ e. ended (view_of e.end).pushed (view_of e.end).taken };

    ghost invariant = { λ e. IsFront (view_of e.end).taken (view_of e.end).pushed };
}

const _: () = prove!(size_of::<LinkEnd>() == 0);

/// A new link from a place to a place, as its two ends. It holds at most 64 packets; want of memory is the only error.
pub fn link(alloc: Global, from: Place, to: Place) -> Result<(SendSeat, TakeSeat), NoMemory>
    ensures { IfOk result (λ ends. AreNew from to ends.0 ends.1) }
{
    let (queue, mut sending) = Queue::ruled(alloc, ROOM)?;
    let queue = Arc::new(alloc, queue)?;
    let same = Arc::try_clone(&queue)?;
    let taking = queue.another::<Roles>(&mut sending);
    let sender = SendSeat {
        queue,
        end: sending,
        from,
        to,
        refused: 0,
    };
    let taker = TakeSeat {
        queue: same,
        end: taking,
        from,
        to,
        missed: 0,
    };
    Ok((sender, taker))
}

impl SendSeat {
    /// The place that it sends from.
    pub fn from(&self) -> Place
        ensures { result ≡ self.now.line.from }
    {
        self.from
    }

    /// The place that it sends to.
    pub fn to(&self) -> Place
        ensures { result ≡ self.now.line.to }
    {
        self.to
    }

    /// Pushes a packet. It comes back where the link was full at this call's step, never before as many were pushed as a link
    /// holds, and is counted. Takes no memory.
    pub fn send<R: Wait>(&mut self, rt: &R, packet: Packet) -> Result<(), Packet>
        requires counts { self.old.refused < 2 ^ 64 - 1 }
        ensures pushed { OnOk result (self.new ≡ with_pushed self.old packet) }
        ensures same { IfErr result (λ back. back ≡ packet) }
        ensures refused { OnErr result (self.new ≡ with_refused self.old) }
        ensures full { OnErr result (WasFull self.old.pushed) }
    {
        match self.queue.push_as::<Sends, R>(rt, &mut self.end, packet) {
            Ok(()) => Ok(()),
            Err(back) => {
                self.refused += 1;
                Err(back)
            }
        }
    }

    /// How many packets came back.
    pub fn refused(&self) -> u64
        ensures { result ≡ self.now.refused }
    {
        self.refused
    }
}

impl TakeSeat {
    /// The place that it takes from.
    pub fn from(&self) -> Place
        ensures { result ≡ self.now.line.from }
    {
        self.from
    }

    /// The place that it takes at.
    pub fn to(&self) -> Place
        ensures { result ≡ self.now.line.to }
    {
        self.to
    }

    /// Takes the oldest packet. None where none was there at this call's step; each none is counted, up to the greatest u64.
    /// Takes no memory.
    pub fn take<R: Wait>(&mut self, rt: &R) -> Option<Packet>
        ensures taken { IfSome result (λ packet. self.new ≡ with_taken self.old packet) }
        ensures missed { IfNone result (self.new ≡ with_missed self.old) }
    {
        match self.queue.pop_as::<Takes, R>(rt, &mut self.end) {
            Some(packet) => Some(packet),
            None => {
                self.missed = self.missed.saturating_add(1);
                None
            }
        }
    }

    /// How often no packet was there.
    pub fn missed(&self) -> u64
        ensures { result ≡ self.now.missed }
    {
        self.missed
    }
}

/// Gives back both ends of a link, so that nothing more goes over it. Takes no memory, and doesn't wait.
pub fn gather(sender: SendSeat, taker: TakeSeat) -> LinkEnd
    requires one_link { taker.line.queue ≡ sender.line.queue }
    ensures pushed { result.pushed ≡ sender.pushed }
    ensures taken { result.taken ≡ taker.taken }
    ensures front { IsFront result.taken result.pushed }
{
    let SendSeat { queue, mut end, .. } = sender;
    let TakeSeat { end: other, .. } = taker;
    queue.absorb::<Roles>(&mut end, other);
    queue.learn_as::<Total>(&mut end);
    LinkEnd { end }
}
