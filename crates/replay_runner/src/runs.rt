//! A replay on its way: the nodes, the messages that were sent, where each entry stands, and the clock.
ghost use Rattle.std.specs.Prelude.{◌≡◌, ◌-◌, ℕ, Some, List as Items, length, slice_get};
ghost use Rattle.seata_types.specs.declared.ids.Place.TheVariants as places;
ghost use Rattle.seata_types.specs.declared.statements.Stmt.{Stmt as TheStmt};
ghost use Rattle.scenario_form.specs.Contents.{IsBetween};

use crate::messages::{Delivery, Letter, Messages};
use crate::nodes::Nodes;
use crate::receivers::fits;
use disk_model::Disk;
use history_text::{Cause, Entry};
use node_seat::{RunFault, RunName};
use scenario_form::ScheduleItem;
use seata_types::{Act, Input, List, NoMemory, Place, Stmt};
use std::alloc::Global;

/// A replay on its way. The clock is in ticks.
#[derive(Drop)]
pub struct Run<D: Disk, K: RunName> {
    pub nodes: Nodes<D, K>,
    /// The entries at which nothing came to a node.
    pub network: Vec<Entry>,
    /// Where each entry stands.
    pub places: Vec<Place>,
    pub messages: Messages,
    pub clock: u64,
}

/// The place of the resource of a local transaction, counted from 1.
fn place_of(locals: &[(u16, List<Stmt>)], number: u16) -> Place
    requires { IsBetween 1 (length locals.now) number }
    ensures { (local : ℕ × Items TheStmt) → slice_get locals.now (number - 1) ≡ Some local →
        result ≡ places.Res local.0 }
{
    Place::Res(locals[number as usize - 1].0)
}

impl<D: Disk, K: RunName> Run<D, K> {
    ghost use Rattle.std.specs.Prelude.{◌≡◌, ◌≤◌, ◌<◌, ◌+◌, ◌++◌, ◌∷◌, [], false, length, All, IfErr, OnOk, Some, option_map};
    ghost use Rattle.seata_types.specs.declared.limits.TheConstants.{LATEST_START, STEPS};
    ghost use Rattle.scenario_form.specs.declared.scenarios.Scenario.{Scenario as TheScenario};
    ghost use Rattle.scenario_form.specs.Runnable.{FitsNodes, IsPlaceAmong, IsRunnable};
    ghost use Rattle.scenario_form.specs.Runnable.{all_steps, steps_of};
    ghost use Rattle.frame_codec.specs.Limits.{IsFramable};
    ghost use Rattle.coordinator_core.specs.Standing.{start_of};
    ghost use Rattle.history_rules.specs.Schedules.{Auto, DeliverOf, TurnOf, singles_of, times};
    ghost use Rattle.history_law.specs.MessageSafety.{AreOfResources};
    ghost use Rattle.history_text.specs.Worlds.{item_of, world_of};
    ghost use Rattle.scenario_nodes.specs.Nodes.{Held};
    ghost use Rattle.replay_runner.specs.Ends.{HaveCountedAt};
    ghost use Rattle.replay_runner.specs.Going.{AreLocals, CanGo, CanMake, Goes, HasGone, NodesGo};
    ghost use Rattle.replay_runner.specs.Letters.{delivery_of, letter_at};
    ghost use Rattle.replay_runner.specs.Plays.{Brings, HasMade, HasPlayed, Hears, IsPassed, Made, Names, Plays, Ready, ReadyWith};
    ghost use Rattle.replay_runner.specs.Standing.{AreNodes, disks_at};

    /// A replay that made no entry yet.
    pub fn new(alloc: Global, nodes: Nodes<D, K>) -> Run<D, K>
        requires going { NodesGo (length nodes.managers.items) (length nodes.resources.items)
            1 (start_of nodes.coordinator.seat.node) nodes }
        requires early { start_of nodes.coordinator.seat.node ≤ LATEST_START }
        ensures plays { (s : TheScenario) (held : Held) → AreNodes D.state s held nodes [] →
            AreOfResources (world_of s) held.past.sessions → Plays D.state s held result [] }
        ensures goes { Goes (length nodes.managers.items) (length nodes.resources.items) 0 result }
    {
        let clock = nodes.coordinator.seat.node().start();
        Run {
            nodes,
            network: Vec::new(alloc),
            places: Vec::new(alloc),
            messages: Messages::new(alloc),
            clock,
        }
    }

    /// The stamp of the next entry: they are counted from 1.
    fn next_stamp(&self) -> u32
        requires { length self.now.places.items < STEPS }
        ensures { result ≡ length self.now.places.items + 1 }
    {
        self.places.len() as u32 + 1
    }

    /// Keeps where the newest entry stands, and the message that it sent.
    fn keep(&mut self, place: Place, letter: Option<Letter>) -> Result<(), NoMemory>
        ensures places { OnOk result (self.new.places.items ≡ self.old.places.items ++ place ∷ []) }
        ensures letters { OnOk result
            (self.new.messages.letters.items ≡ self.old.messages.letters.items ++ letter ∷ []) }
        ensures taken { OnOk result
            (self.new.messages.taken.items ≡ self.old.messages.taken.items ++ false ∷ []) }
        ensures waiting { self.new.messages.waiting ≡ self.old.messages.waiting }
        ensures nodes { self.new.nodes ≡ self.old.nodes }
        ensures network { self.new.network ≡ self.old.network }
        ensures clock { self.new.clock ≡ self.old.clock }
    {
        self.messages.add(letter)?;
        self.places.push(place)?;
        Ok(())
    }

    /// Makes one entry at a node.
    fn make(
        &mut self,
        alloc: Global,
        place: Place,
        cause: Cause,
        input: Option<Input>,
    ) -> Result<(), RunFault>
        requires can { CanMake self.old place cause input }
        ensures made { (b : Brings D.state self.old place cause input) →
            Made D.state self.old self.new place cause input b result }
        ensures gone { HasGone D.state self.old self.new 1 result }
    {
        let stamp = self.next_stamp();
        let now = self.clock;
        let letter = match self.nodes.enter(alloc, place, stamp, now, cause, input) {
            Ok(letter) => letter,
            Err(fault) => return Err(fault),
        };
        match self.keep(place, letter) {
            Ok(()) => Ok(()),
            Err(NoMemory) => Err(RunFault::NoMemory),
        }
    }

    /// Makes one entry of the network, at which nothing comes to a node.
    fn make_without_node(&mut self, cause: Cause) -> Result<(), RunFault>
        requires short { length self.old.places.items < STEPS }
        ensures passed { OnOk result (IsPassed self.old self.new cause) }
        ensures fault { IfErr result (λ fault. fault ≡ RunFault.NoMemory) }
        ensures waiting { self.new.messages.waiting ≡ self.old.messages.waiting }
        ensures nodes { self.new.nodes ≡ self.old.nodes }
        ensures clock { self.new.clock ≡ self.old.clock }
    {
        let entry = Entry {
            stamp: self.next_stamp(),
            place: Place::Net,
            now: self.clock,
            cause,
            act: Act::Nothing,
            sent: None,
        };
        if self.network.push(entry).is_err() {
            return Err(RunFault::NoMemory);
        }
        match self.keep(Place::Net, None) {
            Ok(()) => Ok(()),
            Err(NoMemory) => Err(RunFault::NoMemory),
        }
    }

    /// Gives a node a turn.
    fn turn(&mut self, alloc: Global, place: Place) -> Result<(), RunFault>
        requires can { CanGo self.old 1 }
        requires there { IsPlaceAmong (length self.old.nodes.resources.items)
            (length self.old.nodes.managers.items) place }
        ensures made { (names : Names D.state self.old (TurnOf place)) →
            HasMade D.state self.old self.new names.here result }
        ensures gone { HasGone D.state self.old self.new 1 result }
    {
        self.make(alloc, place, Cause::Turn, Some(Input::Turn))
    }

    /// Gives a node a message that was sent. One that fits no node ends the replay; where disks tell their bytes, none is sent.
    fn hear(&mut self, alloc: Global, stamp: u32, delivery: Delivery) -> Result<(), RunFault>
        requires can { CanGo self.old 1 }
        requires sent { option_map delivery_of (letter_at stamp self.old.messages.letters.items)
            ≡ Some delivery }
        requires framable { IsFramable delivery.message }
        ensures made { (hears : Hears D.state self.old stamp delivery) →
            HasMade D.state self.old self.new hears.step.here result }
        ensures gone { HasGone D.state self.old self.new 1 result }
    {
        if !fits(
            self.nodes.managers.len(),
            self.nodes.resources.len(),
            &delivery,
        ) {
            drop(delivery);
            return Err(RunFault::Other);
        }
        let Delivery { from, to, message } = delivery;
        let cause = Cause::Deliver { stamp, from };
        if let Err(fault) = self.make(alloc, to, cause, Some(Input::Message { from, message })) {
            return Err(fault);
        }
        self.messages.take(stamp);
        Ok(())
    }

    /// Delivers the message that the entry with this stamp sent.
    fn deliver(&mut self, alloc: Global, stamp: u32) -> Result<(), RunFault>
        requires can { CanGo self.old 1 }
        ensures made { (names : Names D.state self.old (DeliverOf stamp)) →
            HasMade D.state self.old self.new names.here result }
        ensures gone { HasGone D.state self.old self.new 1 result }
    {
        match self.messages.delivery(alloc, stamp) {
            Ok(Some(delivery)) => self.hear(alloc, stamp, delivery),
            Ok(None) => self.make_without_node(Cause::Missing { stamp }),
            Err(NoMemory) => Err(RunFault::NoMemory),
        }
    }

    /// Delivers the oldest message that no entry delivered, or else gives a turn to the node whose last turn is the earliest.
    fn choose(&mut self, alloc: Global) -> Result<(), RunFault>
        requires can { CanGo self.old 1 }
        ensures made { (names : Names D.state self.old (Auto 1)) →
            HasMade D.state self.old self.new names.here result }
        ensures gone { HasGone D.state self.old self.new 1 result }
    {
        match self.messages.oldest() {
            Some(stamp) => self.deliver(alloc, stamp),
            None => {
                let place = self.nodes.longest_waiting();
                self.turn(alloc, place)
            }
        }
    }

    /// Makes so many steps that the replay chooses itself.
    fn choose_each(&mut self, alloc: Global, steps: u32) -> Result<(), RunFault>
        requires can { CanGo self.old steps }
        ensures played { (ready : Ready D.state self.old (times steps (Auto 1))) →
            HasPlayed D.state ready.s ready.held self.new ready.rest result }
        ensures gone { HasGone D.state self.old self.new steps result }
    {
        for _ in 0..steps {
            if let Err(fault) = self.choose(alloc) {
                return Err(fault);
            }
        }
        Ok(())
    }

    /// Plays one member of the schedule, with the local transactions of the scenario.
    fn play(
        &mut self,
        alloc: Global,
        locals: &[(u16, List<Stmt>)],
        item: ScheduleItem,
    ) -> Result<(), RunFault>
        requires can { CanGo self.old (steps_of item) }
        requires locals { AreLocals (length self.old.nodes.resources.items) locals.now }
        requires fits { FitsNodes (length self.old.nodes.resources.items)
            (length self.old.nodes.managers.items) (length locals.now) item }
        ensures played { (ready : ReadyWith D.state self.old locals.now (singles_of (item_of item)))
            → HasPlayed D.state ready.ready.s ready.ready.held
            self.new ready.ready.rest result }
        ensures gone { HasGone D.state self.old self.new (steps_of item) result }
    {
        match item {
            ScheduleItem::Turn { place } => self.turn(alloc, place),
            ScheduleItem::Deliver { stamp } => self.deliver(alloc, stamp),
            ScheduleItem::Wait { ticks } => {
                self.clock += ticks;
                self.make_without_node(Cause::Wait { ticks })
            }
            ScheduleItem::Stop { place, calls } => {
                self.make(alloc, place, Cause::Stop { calls }, None)
            }
            ScheduleItem::Crash { place } => self.make(alloc, place, Cause::Crash, None),
            ScheduleItem::Restart { place, pick, calls } => {
                self.make(alloc, place, Cause::Restart { pick, calls }, None)
            }
            ScheduleItem::Local { number } => self.make(
                alloc,
                place_of(locals, number),
                Cause::Local { number },
                Some(Input::Local { number }),
            ),
            ScheduleItem::Outside { number } => self.make(
                alloc,
                place_of(locals, number),
                Cause::Outside { number },
                Some(Input::Outside { number }),
            ),
            ScheduleItem::Auto { steps } => self.choose_each(alloc, steps),
        }
    }

    /// Plays a schedule, member by member, with the local transactions of the scenario.
    pub fn play_all(
        &mut self,
        alloc: Global,
        locals: &[(u16, List<Stmt>)],
        schedule: &[ScheduleItem],
    ) -> Result<(), RunFault>
        requires can { CanGo self.old (all_steps schedule.now) }
        requires locals { AreLocals (length self.old.nodes.resources.items) locals.now }
        requires fits { All (FitsNodes (length self.old.nodes.resources.items)
            (length self.old.nodes.managers.items) (length locals.now)) schedule.now }
        ensures played { (s : TheScenario) (held : Held) → IsRunnable s → s.locals ≡ locals.now →
            s.schedule ≡ schedule.now → Plays D.state s held self.old [] →
            HasPlayed D.state s held self.new [] result }
        ensures failed { IfErr result (HaveCountedAt (disks_at D.state self.new.nodes)) }
        ensures count { length self.new.nodes.resources.items
            ≡ length self.old.nodes.resources.items }
    {
        for item in schedule {
            if let Err(fault) = self.play(alloc, locals, *item) {
                return Err(fault);
            }
        }
        Ok(())
    }
}
