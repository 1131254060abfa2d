//! A resource, as its own entries left it.
ghost use Rattle.std.specs.Prelude.{◌≡◌, ◌+◌, ◌<◌, ◌^◌, true, OnOk, IfSome};
ghost use Rattle.resource_memory.specs.Changes.{may_come};
ghost use Rattle.resource_rules.specs.Laws.{known_after};

use durable_records::ResourceRecord;
use judged_devices::{Back, Device, Event, Plain, Shown, act_of, given_in, still};
use local_txn::LocalTxns;
use resource_memory::Memory;
use resource_rules::{Answer, Change, Setup, follow};
use seata_types::{Act, Durable, Input, NoMemory, Step};
use std::alloc::Global;
use std::mem;

/// A resource, as its own entries left it: what it is and knows, the local transactions that it has open while it is up, and the
/// record in flight while it is down.
#[derive(Drop)]
pub struct Resource {
    pub setup: Setup,
    pub memory: Memory,
    pub txns: LocalTxns,
    pub flight: Option<ResourceRecord>,
}

impl Resource {
    ghost use Rattle.std.specs.Prelude.{◌≡◌, ◌+◌, ◌<◌, ◌^◌, true, IfOk, OnOk, IfSome, Some, None};
    ghost use Rattle.seata_types.specs.declared.acts.Act.TheVariants as act;
    ghost use Rattle.history_rules.specs.Own as own;
    ghost use Rattle.judged_devices.specs.Showing.{IsPlain};
    ghost use Rattle.judged_devices.specs.Taking.{event_of};
    ghost use Rattle.resource_memory.specs.Changes.{may_come};
    ghost use Rattle.resource_rules.specs.Laws.{MayFollow, known_after, tickets_after};
    ghost use Rattle.resource_rules.specs.Serving.{Serves};
    ghost use Rattle.judged_bench.specs.Leaving.{Answered, CanAnswer, CanRestart, CanServe, IsTakenIn, ServesEvent, Stayed, Took, boot_fallen, booted, fallen, landed, left_back, left_plain, stands};

    /// Takes an entry as its act shows it: the step that is done with it, or none where none is. After an error, or none, nothing
    /// more is asked of it.
    pub(crate) fn take(
        &mut self,
        alloc: Global,
        device: &Device,
        event: &Event,
        done: &Act,
    ) -> Result<Option<Step>, NoMemory>
        requires ready { CanServe device.now.down self.old }
        requires served { ServesEvent event.now }
        ensures { IfOk result (Took device.now (event_of event.now) done.now self.old self.new) }
    {
        match given_in(device.down, event) {
            Some(given) => self.answer(alloc, device, given, done),
            None => self.stay(alloc, device, event, done),
        }
    }

    // Answers what it is given while it is up.
    fn answer(
        &mut self,
        alloc: Global,
        device: &Device,
        given: &Input,
        done: &Act,
    ) -> Result<Option<Step>, NoMemory>
        requires ready { CanAnswer self.old }
        requires served { Serves given.now }
        ensures { IfOk result (Answered device.now.left given.now done.now self.old self.new) }
    {
        let memory = self.memory.kept();
        let answer = resource_rules::answer(alloc, memory, &self.setup, &self.txns, given)?;
        match device.shows(&answer.step.act, done) {
            Some(Shown::Done) => self.stand(alloc, answer),
            Some(Shown::Cut { flight }) => Ok(Some(self.fall(answer, flight))),
            None => {
                drop(answer);
                Ok(None)
            }
        }
    }

    // What an answer asks for is done.
    fn stand(&mut self, alloc: Global, answer: Answer) -> Result<Option<Step>, NoMemory>
        requires room { self.old.memory.acts + 1 < 2 ^ 32 }
        requires taken { IsTakenIn self.old answer }
        ensures step { IfOk result (λ step. step ≡ Some answer.step) }
        ensures left { OnOk result (self.new ≡ stands answer self.old) }
    {
        let Answer {
            step,
            asked,
            change,
        } = answer;
        match self.follow(alloc, asked, change) {
            Ok(()) => Ok(Some(step)),
            Err(error) => {
                drop(step);
                Err(error)
            }
        }
    }

    // The record that is asked for is known, and the open tickets change.
    fn follow(
        &mut self,
        alloc: Global,
        asked: Option<ResourceRecord>,
        change: Change,
    ) -> Result<(), NoMemory>
        requires room { self.old.memory.acts + 1 < 2 ^ 32 }
        requires comes { IfSome asked (λ item. may_come self.old.memory item ≡ true) }
        requires follows { MayFollow self.old.txns change }
        ensures { OnOk result (self.new ≡
            record self.old {
              memory = known_after asked self.old.memory;
              txns = tickets_after change self.old.txns;
            }) }
    {
        match add(alloc, &mut self.memory, asked) {
            Ok(()) => follow(alloc, &mut self.txns, change),
            Err(error) => {
                drop(change);
                Err(error)
            }
        }
    }

    // It went down with what an answer asks for in flight.
    fn fall(&mut self, answer: Answer, flight: Durable) -> Step
        ensures step { result ≡ own.still (act.Down None (Some flight)) }
        ensures left { self.new ≡ fallen answer self.old }
    {
        let Answer {
            step,
            asked,
            change,
        } = answer;
        drop(step);
        drop(change);
        drop(mem::replace(&mut self.flight, asked));
        still(Act::Down {
            kept: None,
            at: Some(flight),
        })
    }

    // Does by itself what the act of an entry shows.
    fn stay(
        &mut self,
        alloc: Global,
        device: &Device,
        event: &Event,
        done: &Act,
    ) -> Result<Option<Step>, NoMemory>
        requires plain { IsPlain device.now (event_of event.now) }
        requires ready { CanRestart self.old }
        ensures { IfOk result (Stayed device.now (event_of event.now) done.now self.old self.new) }
    {
        let Some(plain) = device.does(true, event, done) else {
            return Ok(None);
        };
        match self.come(alloc, plain) {
            Ok(()) => Ok(Some(still(act_of(plain)))),
            Err(error) => Err(error),
        }
    }

    // What it does by itself is done.
    fn come(&mut self, alloc: Global, plain: Plain) -> Result<(), NoMemory>
        requires { CanRestart self.old }
        ensures { OnOk result (self.new ≡ left_plain plain self.old) }
    {
        match plain {
            Plain::Crashed => {
                drop(mem::replace(&mut self.flight, None));
                Ok(())
            }
            Plain::Back(back) => self.come_back(alloc, back),
            Plain::Lost | Plain::Armed | Plain::Rests => Ok(()),
        }
    }

    // It is opened again, or its boot fails.
    fn come_back(&mut self, alloc: Global, back: Back) -> Result<(), NoMemory>
        requires { CanRestart self.old }
        ensures { OnOk result (self.new ≡ left_back back self.old) }
    {
        self.land(alloc, back.kept)?;
        if back.cut {
            self.fail_boot();
            return Ok(());
        }
        self.boot(alloc)
    }

    // What was in flight is known where it was kept.
    fn land(&mut self, alloc: Global, kept: Option<Durable>) -> Result<(), NoMemory>
        requires { CanRestart self.old }
        ensures { OnOk result (self.new ≡ landed kept self.old) }
    {
        let flight = mem::replace(&mut self.flight, None);
        if kept.is_some() {
            return add(alloc, &mut self.memory, flight);
        }
        drop(flight);
        Ok(())
    }

    // One boot more.
    fn boot(&mut self, alloc: Global) -> Result<(), NoMemory>
        requires { self.old.memory.acts + 1 < 2 ^ 32 }
        ensures { OnOk result (self.new ≡ booted self.old) }
    {
        let number = next_boot(&self.memory);
        self.memory.take(alloc, ResourceRecord::Boot { number })?;
        self.txns = LocalTxns::new(alloc, number);
        Ok(())
    }

    // The boot is in flight.
    fn fail_boot(&mut self)
        requires { self.old.memory.acts + 1 < 2 ^ 32 }
        ensures { self.new ≡ boot_fallen self.old }
    {
        let number = next_boot(&self.memory);
        let item = ResourceRecord::Boot { number };
        drop(mem::replace(&mut self.flight, Some(item)));
    }
}

// A record that may come is known, if there is one.
fn add(alloc: Global, memory: &mut Memory, asked: Option<ResourceRecord>) -> Result<(), NoMemory>
    requires room { memory.old.acts + 1 < 2 ^ 32 }
    requires comes { IfSome asked (λ item. may_come memory.old item ≡ true) }
    ensures { OnOk result (memory.new ≡ known_after asked memory.old) }
{
    match asked {
        Some(item) => memory.take(alloc, item),
        None => Ok(()),
    }
}

// The number of the next boot.
fn next_boot(memory: &Memory) -> u32
    requires { memory.now.acts + 1 < 2 ^ 32 }
    ensures { result ≡ memory.now.boots + 1 }
{
    memory.kept().boots() + 1
}
