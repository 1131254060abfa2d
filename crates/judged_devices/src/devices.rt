//! A node's disk, as its own entries leave it.
use crate::entries::{down_after, flight_after, left_after};
use crate::events::Event;
use crate::looks::{cut_in, durable_in, plain_in, same_act};
use crate::restarts::{back_in, durable_shown, goes_up, is_lost, keeps, may_boot, restart_in};
use crate::shown::{Back, Plain, Shown};
use seata_types::{Act, Durable};

/// A node's disk: whether the node is down, how many calls a stop still lets pass, where one does, and the durable act in flight of
/// a node that is down; and how many own entries were taken.
#[derive(Clone, Copy)]
pub struct Device {
    pub down: bool,
    pub left: Option<u32>,
    pub flight: Option<Durable>,
    pub taken: u32,
}

impl Device {
    ghost use Rattle.std.specs.Prelude.{◌≡◌, ◌<◌, ◌^◌, Bool, []};
    ghost use Rattle.judged_devices.specs.declared.limits.TheConstants.{OWN_ENTRIES};
    ghost use Rattle.judged_devices.specs.Noting.{IsDevice, noted};
    ghost use Rattle.judged_devices.specs.Showing.{ComesBack, IsPlain, May, Shows, ShowsPlain};
    ghost use Rattle.judged_devices.specs.Taking.{event_of};

    /// The disk of a node without entries.
    pub fn new() -> Device
        ensures { (boots : Bool) → IsDevice boots [] result }
    {
        Device {
            down: false,
            left: None,
            flight: None,
            taken: 0,
        }
    }

    /// How the act of an entry shows what the rule of a node that is up answers, as far as a stop and its disk may have let it; none
    /// where it shows nothing that may have been done of it. Takes no memory.
    pub fn shows(&self, answer: &Act, done: &Act) -> Option<Shown>
        ensures { Shows self.now.left answer.now done.now result }
    {
        match durable_in(answer) {
            Some(durable) => durable_shown(self.left, durable, durable_in(done), cut_in(done)),
            None => {
                if same_act(answer, done) {
                    return Some(Shown::Done);
                }
                None
            }
        }
    }

    /// What the act of an entry shows of what a node does by itself; none where it shows nothing that it may do. A restart writes a
    /// boot at a node that boots. Takes no memory.
    pub fn does(&self, boots: bool, event: &Event, done: &Act) -> Option<Plain>
        requires { IsPlain self.now (event_of event.now) }
        ensures { ShowsPlain boots self.now (event_of event.now) done.now result }
    {
        let Some(plain) = plain_in(done) else {
            return None;
        };
        if self.may(boots, event, plain) {
            return Some(plain);
        }
        None
    }

    // Whether a node does this by itself.
    fn may(&self, boots: bool, event: &Event, plain: Plain) -> bool
        requires { IsPlain self.now (event_of event.now) }
        ensures { May boots self.now (event_of event.now) plain result }
    {
        if !self.down {
            return goes_up(event, plain);
        }
        let Some(calls) = restart_in(event) else {
            return is_lost(plain);
        };
        let Some(back) = back_in(plain) else {
            return false;
        };
        self.comes_back(boots, calls, back)
    }

    // Whether a node that is down comes back so at a restart.
    fn comes_back(&self, boots: bool, calls: Option<u32>, back: Back) -> bool
        ensures { ComesBack boots self.now calls back result }
    {
        if !may_boot(boots, calls, back.cut) {
            return false;
        }
        keeps(self.left, self.flight, back.kept)
    }

    /// One own entry more, with this act. Takes no memory.
    pub fn note(&mut self, boots: bool, event: &Event, done: &Act)
        requires { self.old.taken < OWN_ENTRIES }
        ensures { self.new ≡ noted boots (event_of event.now) done.now self.old }
    {
        self.down = down_after(done, self.down);
        self.left = left_after(boots, event, done, self.left);
        self.flight = flight_after(done, self.flight);
        self.taken += 1;
    }
}
