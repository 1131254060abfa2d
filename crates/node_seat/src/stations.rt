//! A node with its trace and the ends of its links, without a fact that its type keeps.
use crate::entering::enter;
use crate::faults::RunFault;
use crate::hearing::{may_hear, stamp_after};
use crate::offering::offer;
use crate::plans::Plan;
use crate::taking::take_any;
use crate::turned::Turned;
use frame_codec::Packet;
use history_text::{Cause, Entry, Note};
use link_queue::{SendSeat, TakeSeat};
use node_steps::Node;
use seata_types::{Boxed, Input, List, Message, NoMemory, Place};
use std::alloc::Global;
use std::sync::Wait;

/// The last stamp.
const LAST: u32 = u32::MAX;

/// The pick of a restart without a stop.
const USUAL_PICK: u16 = 1;

/// A node, and the entries that it made, the oldest first; whether it makes turns of a run, and its plan; how often it was
/// restarted and had a turn, and its last stamp; the ends of its links, and the one that is asked first; and the fault that
/// one of its calls answered.
#[derive(Drop)]
pub struct Station<N> {
    pub node: N,
    pub trace: Vec<Entry>,
    /// Room for what its next entry shows of the message that it sends.
    pub room: Option<Boxed<Note>>,
    pub runs: bool,
    pub plan: Plan,
    pub restarts: u32,
    pub turns: u32,
    pub stamp: u32,
    pub takers: Vec<TakeSeat>,
    pub senders: Vec<SendSeat>,
    pub next: usize,
    pub fault: Option<RunFault>,
}

impl<N: Node> Station<N> {
    ghost use Rattle.std.specs.Prelude.{◌≡◌, ◌<◌, ◌≤◌, ◌+◌, true, false};
    ghost use Rattle.seata_types.specs.declared.limits.TheConstants.{LATEST_MOMENT};
    ghost use Rattle.history_text.specs.History.{cause_of};
    ghost use Rattle.frame_codec.specs.Limits.{IsFramable};
    ghost use Rattle.trace_rules.specs.Links.{with_stamp};
    ghost use Rattle.trace_rules.specs.Stops.{restart_of};
    ghost use Rattle.node_seat.specs.Running.{CanGoOn, may_hear};
    ghost use Rattle.node_seat.specs.Seating.{new_seat, seated_of};
    ghost use Rattle.node_seat.specs.Turns as turns;

    /// One that did nothing yet.
    pub fn new(
        alloc: Global,
        runs: bool,
        node: N,
        plan: Plan,
        takers: List<TakeSeat>,
        senders: List<SendSeat>,
    ) -> Station<N>
        ensures { seated_of result ≡ new_seat runs node plan takers senders }
    {
        Station {
            node,
            trace: Vec::new(alloc),
            room: None,
            runs,
            plan,
            restarts: 0,
            turns: 0,
            stamp: 0,
            takers: takers.into_vec(),
            senders: senders.into_vec(),
            next: 0,
            fault: None,
        }
    }

    /// The moment of its turn: the coordinator's clock goes on by one at each.
    fn moment(&self) -> u64
        requires { self.now.plan.from + self.now.turns ≤ LATEST_MOMENT }
        ensures { result ≡ turns.moment_of (N.state self.now.node) (seated_of self.now) }
    {
        match self.node.place() {
            Place::Tc => self.plan.from + u64::from(self.turns),
            _ => 0,
        }
    }

    /// Where the newest entry sent its message.
    fn receiver(&self) -> Option<Place>
        ensures { result ≡ turns.receiver_in self.now.trace.items }
    {
        let entry = self.trace.last()?;
        let sent = entry.sent.as_ref()?;
        Some(sent.to)
    }

    /// Makes an entry at its stamp and moment, and hands the message to the end that goes to its receiver.
    fn make<R: Wait>(
        &mut self,
        rt: &R,
        alloc: Global,
        cause: Cause,
        input: Option<Input>,
    ) -> Result<(), RunFault>
        requires { turns.CanMake N.state (seated_of self.old) cause input }
        ensures { turns.MakesEntry N.state (seated_of self.old) (seated_of self.new)
            cause input result }
    {
        let now = self.moment();
        let stamp = self.stamp;
        match enter(
            &mut self.node,
            &mut self.trace,
            &mut self.room,
            alloc,
            stamp,
            now,
            cause,
            input,
        ) {
            Ok(packet) => {
                let to = self.receiver();
                offer(rt, &mut self.senders, to, packet);
                Ok(())
            }
            Err(fault) => Err(fault),
        }
    }

    /// Makes the first stop of its node, if it has one.
    fn try_begin<R: Wait>(&mut self, rt: &R, alloc: Global) -> Result<(), RunFault>
        requires goes { CanGoOn (N.state self.old.node) (seated_of self.old) }
        requires first { turns.IsUnmoved (seated_of self.old) }
        requires disks { turns.HasDisksToStop (N.state self.old.node) self.old.plan }
        ensures { turns.IsBegun N.state self.old.plan.stops
            (seated_of self.old) (seated_of self.new) result }
    {
        let Some((calls, _)) = self.plan.stops.as_slice().first() else {
            return Ok(());
        };
        let calls = *calls;
        self.stamp = 1;
        self.make(rt, alloc, Cause::Stop { calls }, None)
    }

    /// The cause of its next restart: the pick of the stop that was armed last, and the calls of the next.
    fn next_restart(&self) -> Cause
        ensures { result ≡ cause_of (restart_of self.now.plan.stops self.now.restarts) }
    {
        let stops = self.plan.stops.as_slice();
        let restarts = self.restarts as usize;
        let pick = match stops.get(restarts) {
            Some((_, pick)) => *pick,
            None => USUAL_PICK,
        };
        let calls = match stops.get(restarts + 1) {
            Some((calls, _)) => Some(*calls),
            None => None,
        };
        Cause::Restart { pick, calls }
    }

    /// Restarts a node that is down.
    fn restart<R: Wait>(&mut self, rt: &R, alloc: Global) -> Result<Turned, RunFault>
        requires goes { CanGoOn (N.state self.old.node) (seated_of self.old) }
        requires able { turns.IsAble N.state (seated_of self.old) }
        requires down { (N.state self.old.node).down ≡ true }
        ensures { turns.IsTurned N.state (seated_of self.old) (seated_of self.new) result }
    {
        let cause = self.next_restart();
        self.stamp += 1;
        self.turns += 1;
        self.restarts += 1;
        match self.make(rt, alloc, cause, None) {
            Ok(()) => Ok(Turned::Restarted),
            Err(fault) => Err(fault),
        }
    }

    /// Gives a turn to a node whose ends had no packet.
    fn rest<R: Wait>(&mut self, rt: &R, alloc: Global) -> Result<(), RunFault>
        requires goes { CanGoOn (N.state self.old.node) (seated_of self.old) }
        requires able { turns.IsAble N.state (seated_of self.old) }
        ensures { turns.MakesTurn N.state (seated_of self.old) (seated_of self.new) result }
    {
        self.stamp += 1;
        self.turns += 1;
        self.make(rt, alloc, Cause::Turn, Some(Input::Turn))
    }

    /// Delivers a message that was sent with an earlier stamp than the last.
    fn deliver<R: Wait>(
        &mut self,
        rt: &R,
        alloc: Global,
        from: Place,
        message: Boxed<Message>,
        sent: u32,
    ) -> Result<(), RunFault>
        requires goes { CanGoOn (N.state self.old.node) (seated_of self.old) }
        requires able { turns.IsAble N.state (seated_of self.old) }
        requires early { sent < LAST }
        requires framable { IsFramable message }
        requires heard { may_hear self.old.plan (N.state self.old.node).place message ≡ true }
        ensures { turns.Delivers N.state (seated_of self.old) (seated_of self.new)
            from (with_stamp sent message) result }
    {
        self.stamp = stamp_after(self.stamp, sent);
        self.turns += 1;
        let cause = Cause::Deliver { stamp: sent, from };
        self.make(rt, alloc, cause, Some(Input::Message { from, message }))
    }

    /// Delivers a packet from a place. One of the last stamp is lost, and one that the node doesn't answer by the rules is a
    /// fault; where disks tell their bytes, none such is sent.
    fn hear<R: Wait>(
        &mut self,
        rt: &R,
        alloc: Global,
        from: Place,
        packet: Packet,
    ) -> Result<Turned, RunFault>
        requires goes { CanGoOn (N.state self.old.node) (seated_of self.old) }
        requires able { turns.IsAble N.state (seated_of self.old) }
        ensures { turns.IsHeard N.state (seated_of self.old) (seated_of self.new)
            from packet result }
    {
        let opened = packet.open(alloc);
        drop(packet);
        let (message, sent) = match opened {
            Ok(opened) => opened,
            Err(NoMemory) => return Err(RunFault::NoMemory),
        };
        if sent == LAST {
            drop(message);
            self.stamp = LAST;
            return Ok(Turned::Worn);
        }
        if !may_hear(&self.plan, self.node.place(), &message) {
            drop(message);
            return Err(RunFault::Other);
        }
        let Ok(message) = Boxed::new(alloc, message) else {
            return Err(RunFault::NoMemory);
        };
        match self.deliver(rt, alloc, from, message, sent) {
            Ok(()) => Ok(Turned::Took),
            Err(fault) => Err(fault),
        }
    }

    /// A turn of a node that is up: it takes a packet, or else has a turn.
    fn serve<R: Wait>(&mut self, rt: &R, alloc: Global) -> Result<Turned, RunFault>
        requires goes { CanGoOn (N.state self.old.node) (seated_of self.old) }
        requires able { turns.IsAble N.state (seated_of self.old) }
        requires up { (N.state self.old.node).down ≡ false }
        ensures { turns.IsTurned N.state (seated_of self.old) (seated_of self.new) result }
    {
        match take_any(rt, &mut self.takers, self.next) {
            Some((k, packet)) => {
                self.next = k + 1;
                let from = self.takers[k].from();
                self.hear(rt, alloc, from, packet)
            }
            None => match self.rest(rt, alloc) {
                Ok(()) => Ok(Turned::Idle),
                Err(fault) => Err(fault),
            },
        }
    }

    /// One turn, of a seat without a fault.
    fn try_turn<R: Wait>(&mut self, rt: &R, alloc: Global) -> Result<Turned, RunFault>
        requires { CanGoOn (N.state self.old.node) (seated_of self.old) }
        ensures { turns.IsTurned N.state (seated_of self.old) (seated_of self.new) result }
    {
        if self.stamp == LAST {
            return Ok(Turned::Worn);
        }
        if self.node.steps_left() == 0 {
            return Ok(Turned::Worn);
        }
        if self.node.is_down() {
            return self.restart(rt, alloc);
        }
        self.serve(rt, alloc)
    }

    /// Makes the first stop of its node, if it has one, and keeps the fault.
    pub fn begin<R: Wait>(&mut self, rt: &R, alloc: Global) -> Result<(), RunFault>
        requires goes { CanGoOn (N.state self.old.node) (seated_of self.old) }
        requires first { turns.IsUnmoved (seated_of self.old) }
        requires disks { turns.HasDisksToStop (N.state self.old.node) self.old.plan }
        ensures { turns.AnswersBegin N.state (seated_of self.old) (seated_of self.new) result }
    {
        match self.try_begin(rt, alloc) {
            Ok(()) => Ok(()),
            Err(fault) => {
                self.fault = Some(fault);
                Err(fault)
            }
        }
    }

    /// One turn, after which it keeps the fault. Where it has one, it answers that, and nothing happens.
    pub fn turn<R: Wait>(&mut self, rt: &R, alloc: Global) -> Result<Turned, RunFault>
        requires { CanGoOn (N.state self.old.node) (seated_of self.old) }
        ensures { turns.AnswersTurn N.state self.old.fault
            (seated_of self.old) (seated_of self.new) result }
    {
        match self.fault {
            Some(fault) => Err(fault),
            None => match self.try_turn(rt, alloc) {
                Ok(turned) => Ok(turned),
                Err(fault) => {
                    self.fault = Some(fault);
                    Err(fault)
                }
            },
        }
    }
}
