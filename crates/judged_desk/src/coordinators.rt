//! The coordinator, as its own entries left it.
ghost use Rattle.std.specs.Prelude.{◌≡◌, ◌+◌, ◌<◌, ◌^◌, true, OnOk, IfSome};
ghost use Rattle.session_memory.specs.Changes.{may_come};
ghost use Rattle.judged_desk.specs.Leaving.{known_after};

use coordinator_rules::{Answer, Moments, started, uncounted};
use durable_records::SessionRecord;
use judged_devices::{Device, Event, Plain, Shown, act_of, given_in, still};
use seata_types::{Act, Durable, Input, NoMemory, Step, Xid};
use session_memory::Memory;
use session_memory::uncounted::apply;
use std::alloc::Global;
use std::mem;

/// The coordinator, as its own entries left it: its settings, what it knows, the moments that it goes by, and the record in flight
/// while it is down.
#[derive(Drop)]
pub struct Coordinator {
    pub retry: u64,
    pub forget: u64,
    pub memory: Memory,
    pub moments: Moments,
    pub flight: Option<SessionRecord>,
}

impl Coordinator {
    ghost use Rattle.std.specs.Prelude.{◌≡◌, ◌+◌, ◌<◌, ◌^◌, true, IfOk, OnOk, IfSome, Some, None};
    ghost use Rattle.seata_types.specs.declared.acts.Act.TheVariants as act;
    ghost use Rattle.history_rules.specs.Own as own;
    ghost use Rattle.session_memory.specs.Changes.{may_come};
    ghost use Rattle.judged_devices.specs.Showing.{IsPlain};
    ghost use Rattle.judged_devices.specs.Taking.{event_of};
    ghost use Rattle.judged_desk.specs.Leaving.{Answered, CanServe, IsFollowed, IsStood, Stayed, Took, fallen, landed, left_plain, opened};

    /// Takes an entry as its act shows it: the step that is done with it, or none where none is. After an error, or none, nothing
    /// more is asked of it.
    pub(crate) fn take(
        &mut self,
        alloc: Global,
        device: &Device,
        event: &Event,
        now: u64,
        done: &Act,
    ) -> Result<Option<Step>, NoMemory>
        requires ready { CanServe self.old }
        ensures { IfOk result (Took device.now
            (event_of event.now) now done.now self.old self.new) }
    {
        match given_in(device.down, event) {
            Some(given) => self.answer(alloc, device, given, now, done),
            None => self.stay(alloc, device, event, now, done),
        }
    }

    // Answers what it is given while it is up.
    fn answer(
        &mut self,
        alloc: Global,
        device: &Device,
        given: &Input,
        now: u64,
        done: &Act,
    ) -> Result<Option<Step>, NoMemory>
        requires ready { CanServe self.old }
        ensures { IfOk result (Answered device.now.left given.now now done.now self.old self.new) }
    {
        let moments = &self.moments;
        let answer = uncounted::answer(alloc, &self.memory, moments, self.forget, given, now)?;
        match device.shows(&answer.step.act, done) {
            Some(Shown::Done) => self.stand(alloc, answer, now),
            Some(Shown::Cut { flight }) => Ok(Some(self.fall(answer, flight))),
            None => {
                drop(answer);
                Ok(None)
            }
        }
    }

    // What an answer asks for is done.
    fn stand(&mut self, alloc: Global, answer: Answer, now: u64) -> Result<Option<Step>, NoMemory>
        requires room { self.old.memory.acts + 1 < 2 ^ 32 }
        requires comes { IfSome answer.asked (λ item. may_come self.old.memory item ≡ true) }
        ensures step { IfOk result (λ step. step ≡ Some answer.step) }
        ensures left { OnOk result (IsStood now answer self.old self.new) }
    {
        let Answer { step, asked, again } = answer;
        match self.follow(alloc, asked, again, now) {
            Ok(()) => Ok(Some(step)),
            Err(error) => {
                drop(step);
                Err(error)
            }
        }
    }

    // The record that is asked for is known, or a transaction is due again later.
    fn follow(
        &mut self,
        alloc: Global,
        asked: Option<SessionRecord>,
        again: Option<Xid>,
        now: u64,
    ) -> Result<(), NoMemory>
        requires room { self.old.memory.acts + 1 < 2 ^ 32 }
        requires comes { IfSome asked (λ item. may_come self.old.memory item ≡ true) }
        ensures { OnOk result (IsFollowed now asked again self.old self.new) }
    {
        match asked {
            Some(item) => self.make(alloc, item, now),
            None => self.go_again(again, now),
        }
    }

    // A record is known, and the moments change.
    fn make(&mut self, alloc: Global, item: SessionRecord, now: u64) -> Result<(), NoMemory>
        requires room { self.old.memory.acts + 1 < 2 ^ 32 }
        requires comes { may_come self.old.memory item ≡ true }
        ensures { OnOk result (IsFollowed now (Some item) None self.old self.new) }
    {
        let made = self.know(alloc, &item, now);
        drop(item);
        made
    }

    fn know(&mut self, alloc: Global, item: &SessionRecord, now: u64) -> Result<(), NoMemory>
        requires room { self.old.memory.acts + 1 < 2 ^ 32 }
        requires comes { may_come self.old.memory item.now ≡ true }
        ensures { OnOk result (IsFollowed now (Some item.now) None self.old self.new) }
    {
        self.moments.prepare(item, now)?;
        apply(alloc, &mut self.memory, item)?;
        self.moments.settle(item, now, self.retry);
        Ok(())
    }

    // A transaction is due again later, if there is one.
    fn go_again(&mut self, again: Option<Xid>, now: u64) -> Result<(), NoMemory>
        ensures { OnOk result (IsFollowed now None again self.old self.new) }
    {
        match again {
            Some(xid) => self.moments.plan_again(xid, now, self.retry),
            None => Ok(()),
        }
    }

    // It went down with what an answer asks for in flight.
    fn fall(&mut self, answer: Answer, flight: Durable) -> Step
        ensures step { result ≡ own.still (act.Down None (Some flight)) }
        ensures left { self.new ≡ fallen answer self.old }
    {
        let Answer {
            step,
            asked,
            again: _,
        } = answer;
        drop(step);
        drop(mem::replace(&mut self.flight, asked));
        still(Act::Down {
            kept: None,
            at: Some(flight),
        })
    }

    // Does by itself what the act of an entry shows.
    fn stay(
        &mut self,
        alloc: Global,
        device: &Device,
        event: &Event,
        now: u64,
        done: &Act,
    ) -> Result<Option<Step>, NoMemory>
        requires plain { IsPlain device.now (event_of event.now) }
        requires ready { CanServe self.old }
        ensures { IfOk result (Stayed device.now
            (event_of event.now) now done.now self.old self.new) }
    {
        let Some(plain) = device.does(false, event, done) else {
            return Ok(None);
        };
        match self.come(alloc, plain, now) {
            Ok(()) => Ok(Some(still(act_of(plain)))),
            Err(error) => Err(error),
        }
    }

    // What it does by itself is done.
    fn come(&mut self, alloc: Global, plain: Plain, now: u64) -> Result<(), NoMemory>
        requires { CanServe self.old }
        ensures { OnOk result (self.new ≡ left_plain now plain self.old) }
    {
        match plain {
            Plain::Crashed => {
                drop(mem::replace(&mut self.flight, None));
                Ok(())
            }
            Plain::Back(back) => self.come_back(alloc, back.kept, now),
            Plain::Lost | Plain::Armed | Plain::Rests => Ok(()),
        }
    }

    // It is opened again: all that it goes by starts at this moment.
    fn come_back(&mut self, alloc: Global, kept: Option<Durable>, now: u64) -> Result<(), NoMemory>
        requires { CanServe self.old }
        ensures { OnOk result (self.new ≡ opened now (landed kept self.old)) }
    {
        self.land(alloc, kept)?;
        let moments = started(alloc, &self.memory, now)?;
        drop(mem::replace(&mut self.moments, moments));
        Ok(())
    }

    // What was in flight is known where it was kept.
    fn land(&mut self, alloc: Global, kept: Option<Durable>) -> Result<(), NoMemory>
        requires { CanServe self.old }
        ensures { OnOk result (self.new ≡ landed kept self.old) }
    {
        let flight = mem::replace(&mut self.flight, None);
        if kept.is_some() {
            return add(alloc, &mut self.memory, flight);
        }
        drop(flight);
        Ok(())
    }
}

// A record that may come is known, if there is one.
fn add(alloc: Global, memory: &mut Memory, asked: Option<SessionRecord>) -> Result<(), NoMemory>
    requires room { memory.old.acts + 1 < 2 ^ 32 }
    requires comes { IfSome asked (λ item. may_come memory.old item ≡ true) }
    ensures { OnOk result (memory.new ≡ known_after asked memory.old) }
{
    match asked {
        Some(item) => {
            let left = apply(alloc, memory, &item);
            drop(item);
            left
        }
        None => Ok(()),
    }
}
