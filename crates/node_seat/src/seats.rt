//! A seat: a node with its trace and the ends of its links. In a run its type keeps that the trace is legal for the node alone,
//! that the node is what it replays to, what went over the links and where the node's journal stands.
use crate::entering::enter;
use crate::faults::RunFault;
use crate::names::RunName;
use crate::plans::Plan;
use crate::stations::Station;
use crate::turned::Turned;
use frame_codec::Packet;
use history_text::{Cause, Entry};
use link_queue::{SendSeat, TakeSeat};
use node_steps::Node;
use seata_types::{Input, List};
use std::alloc::Global;
use std::marker::{Model, PhantomData};
use std::sync::Wait;

/// A node of the replay or run that `K` names, with its trace; in a run with its plan and the ends of its links.
#[derive(Drop)]
pub struct Seat<N: Node, K: RunName> {
    station: Station<N>,
    run: PhantomData<K>,
}

impl<N: Node, K: RunName> Model for Seat<N, K> {
    ghost use Rattle.node_seat.specs.Seating.{Seated, seated_code, seated_of};
    ghost use Rattle.node_seat.specs.Running.{KeepsSeat};

    ghost Value = { Seated N };

    ghost coded = { seated_code N.code };

    ghost view = { λ s. seated_of s.station };

    ghost invariant = { λ s.
        KeepsSeat (N.state s.station.node) K.world K.held K.run (seated_of s.station) };
}

impl<N: Node, K: RunName> Seat<N, K> {
    ghost use Rattle.std.specs.Prelude.{◌≡◌, [], true, OnOk};
    ghost use Rattle.node_seat.specs.Entering.{HasEntered};
    ghost use Rattle.node_seat.specs.Keeping.{MayEnter};
    ghost use Rattle.node_seat.specs.Naming.{OverAll};
    ghost use Rattle.node_seat.specs.Running.{AreApart, AreUnused, CanServe, IsFreshIn, IsOfRun, KeepsSeat};
    ghost use Rattle.node_seat.specs.Seating.{new_seat, traced_of};
    ghost use Rattle.node_seat.specs.Turns.{AnswersBegin, AnswersTurn, HasDisksToStop, IsUnmoved, MayTurn};

    /// A seat for a node of a replay that did nothing yet.
    pub fn new(alloc: Global, node: N) -> Seat<N, K>
        ensures node { result.node ≡ node }
        ensures trace { result.trace ≡ [] }
    {
        let plan = Plan {
            stops: List::of(Vec::new(alloc)),
            from: 0,
            managers: 0,
            resources: 0,
        };
        let takers = List::of(Vec::new(alloc));
        let senders = List::of(Vec::new(alloc));
        Seat {
            station: Station::new(alloc, false, node, plan, takers, senders),
            run: PhantomData,
        }
    }

    /// A seat for a node of a run that did nothing yet, with its plan and the ends of its links, over which nothing went.
    pub fn linked(
        alloc: Global,
        node: N,
        plan: Plan,
        takers: List<TakeSeat>,
        senders: List<SendSeat>,
    ) -> Seat<N, K>
        requires fresh { OverAll K.held K.run (λ past over. IsFreshIn K.world past over (N.state node)) }
        requires serves { CanServe plan (N.state node) }
        requires of_run { OverAll K.held K.run
            (λ past over. IsOfRun past over (N.state node) plan takers senders) }
        requires apart { AreApart takers senders }
        requires unused { AreUnused takers senders }
        ensures { result ≡ new_seat true node plan takers senders }
    {
        Seat {
            station: Station::new(alloc, true, node, plan, takers, senders),
            run: PhantomData,
        }
    }

    /// Makes one entry with a stamp, at a moment in ticks: the node is given the input, or without one its disk is stopped, it
    /// crashes or it is restarted, as the cause says. It gives the frame of the message that the entry sent. After a fault
    /// nothing happened, or, after want of memory alone, the entry stands and its message is lost. At `Store` the node's disks
    /// counted a fault, whatever they tell. A seat of a run makes no turns after it.
    pub fn enter(
        &mut self,
        alloc: Global,
        stamp: u32,
        now: u64,
        cause: Cause,
        input: Option<Input>,
    ) -> Result<Option<Packet>, RunFault>
        requires { MayEnter (N.state self.old.node) self.old.trace stamp now cause input }
        ensures { HasEntered N.state (traced_of self.old) (traced_of self.new)
            stamp now cause input result }
    {
        let station = &mut self.station;
        station.runs = false;
        enter(
            &mut station.node,
            &mut station.trace,
            &mut station.room,
            alloc,
            stamp,
            now,
            cause,
            input,
        )
    }

    /// Makes the first entry of a run at a node with stops, which is the first of them. After a fault each turn answers that.
    pub fn begin<R: Wait>(&mut self, rt: &R, alloc: Global) -> Result<(), RunFault>
        requires first { IsUnmoved self.old }
        requires disks { HasDisksToStop (N.state self.old.node) self.old.plan }
        ensures begun { OnOk result (MayTurn self.new) }
        ensures stopped { AnswersBegin N.state self.old self.new result }
    {
        self.station.begin(rt, alloc)
    }

    /// One turn of a run. A node that is down is restarted by its stops. One that is up is given a packet of its links, which
    /// are asked in rotation, or else has a turn. The message of the entry goes to its link, and is lost where that is full. A
    /// packet of the last stamp is lost. After a fault each turn answers that, and nothing happens.
    pub fn turn<R: Wait>(&mut self, rt: &R, alloc: Global) -> Result<Turned, RunFault>
        requires { MayTurn self.old }
        ensures begun { MayTurn self.new }
        ensures turned { AnswersTurn N.state self.old.fault self.old self.new result }
    {
        self.station.turn(rt, alloc)
    }

    /// The fault that a turn answers, where one was answered.
    pub fn fault(&self) -> Option<RunFault>
        ensures { result ≡ self.now.fault }
    {
        self.station.fault
    }

    /// Its node.
    pub fn node(&self) -> &N
        ensures { result.now ≡ self.now.node }
    {
        &self.station.node
    }

    /// The entries that its node made, the oldest first.
    pub fn trace(&self) -> &[Entry]
        ensures { result.now ≡ self.now.trace }
    {
        self.station.trace.as_slice()
    }

    /// Its node, its trace and the ends of its links, with what its type keeps.
    pub fn finish(self) -> (N, List<Entry>, List<TakeSeat>, List<SendSeat>)
        ensures node { result.0 ≡ self.node }
        ensures trace { result.1 ≡ self.trace }
        ensures takers { result.2 ≡ self.takers }
        ensures senders { result.3 ≡ self.senders }
        ensures keeps { KeepsSeat (N.state self.node) K.world K.held K.run self }
    {
        let Station {
            node,
            trace,
            takers,
            senders,
            room,
            ..
        } = self.station;
        drop(room);
        (node, List::of(trace), List::of(takers), List::of(senders))
    }
}
