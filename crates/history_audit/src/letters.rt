//! The messages that the entries of a history sent.
ghost use Rattle.std.specs.Prelude.{◌≡◌, Some, IfOk, OnOk, option_map};
ghost use Rattle.history_rules.specs.Histories.{delivered};
ghost use Rattle.judged_devices.specs.Taking.{event_of};
ghost use Rattle.history_audit.specs.Letters.{Notes, with_letter};

use crate::kept::Letters;
use history_text::{Cause, Origin, origin_of};
use judged_devices::Event;
use seata_types::{Boxed, Duplicate, Input, NoMemory, Outgoing, Place};
use std::alloc::Global;
use std::collections::{BTreeMap, BTreeSet};

// Puts a message at its entry.
fn put(sent: &mut BTreeMap<Origin, Outgoing>, at: Origin, out: Outgoing) -> Result<(), NoMemory>
    ensures { OnOk result (sent.new.entries ≡ with_letter sent.old.entries at out) }
{
    let replaced = sent.insert(at, out)?;
    drop(replaced);
    Ok(())
}

// Notes the number of an entry.
fn note(numbers: &mut BTreeSet<u32>, stamp: u32) -> Result<(), NoMemory>
    ensures { OnOk result (Notes stamp numbers.old.keys numbers.new.keys) }
{
    numbers.insert(stamp)?;
    Ok(())
}

impl Letters {
    ghost use Rattle.std.specs.Prelude.{◌≡◌, [], List, IfOk, OnOk, option_map};
    ghost use Rattle.std.specs.Bool.{Decides};
    ghost use Rattle.history_rules.specs.Histories.{Moment, ComesToNone, brings};
    ghost use Rattle.judged_devices.specs.Taking.{event_of};
    ghost use Rattle.verdict_law.specs.Verdicts.{reason_of};
    ghost use Rattle.history_audit.specs.Letters.{AddsLetter, AreLetters, message_by};

    /// Nothing was sent.
    pub(crate) fn new(alloc: Global) -> Letters
        ensures { AreLetters result [] }
    {
        Letters {
            sent: BTreeMap::new(alloc),
            numbers: BTreeSet::new(alloc),
        }
    }

    // The event that a message brings to a place, if it comes there.
    fn message(
        &self,
        alloc: Global,
        stamp: u32,
        from: Place,
        to: Place,
    ) -> Result<Option<Event>, NoMemory>
        ensures { IfOk result (λ event. option_map event_of event ≡
            message_by self.now stamp from to) }
    {
        match self.sent.get(&origin_of(stamp, from)) {
            Some(out) => deliver(alloc, from, to, out),
            None => Ok(None),
        }
    }

    /// The event that a cause brings to a place, if it brings one, with a copy of its message.
    pub(crate) fn event(
        &self,
        alloc: Global,
        to: Place,
        cause: &Cause,
    ) -> Result<Option<Event>, NoMemory>
        ensures { IfOk result (λ event. (ms : List Moment) → AreLetters self.now ms →
            option_map event_of event ≡ brings ms to (reason_of cause.now)) }
    {
        match cause {
            Cause::Turn => Ok(Some(Event::Given { input: Input::Turn })),
            Cause::Deliver { stamp, from } => self.message(alloc, *stamp, *from, to),
            Cause::Missing { .. } | Cause::Wait { .. } => Ok(None),
            Cause::Stop { calls } => Ok(Some(Event::Stopped { calls: *calls })),
            Cause::Crash => Ok(Some(Event::Crashed)),
            Cause::Restart { pick, calls } => Ok(Some(Event::Restarted {
                pick: *pick,
                calls: *calls,
            })),
            Cause::Local { number } => Ok(Some(Event::Given {
                input: Input::Local { number: *number },
            })),
            Cause::Outside { number } => Ok(Some(Event::Given {
                input: Input::Outside { number: *number },
            })),
        }
    }

    /// Whether a cause comes to a place though it brings nothing: ticks that pass, and a message that no entry sent.
    pub(crate) fn come_to_none(&self, to: Place, cause: &Cause) -> bool
        ensures { (ms : List Moment) → AreLetters self.now ms →
            Decides result (ComesToNone ms to (reason_of cause.now)) }
    {
        match (to, cause) {
            (Place::Net, Cause::Wait { .. }) => true,
            (Place::Net, Cause::Missing { stamp }) => !self.numbers.contains(stamp),
            _ => false,
        }
    }

    /// Adds what the next entry sent, if it sent something.
    pub(crate) fn add(
        &mut self,
        stamp: u32,
        from: Place,
        sent: Option<Outgoing>,
    ) -> Result<(), NoMemory>
        ensures { OnOk result (AddsLetter self.old self.new stamp from sent) }
    {
        let Some(out) = sent else {
            return Ok(());
        };
        put(&mut self.sent, origin_of(stamp, from), out)?;
        note(&mut self.numbers, stamp)?;
        Ok(())
    }
}

// A message comes to its receiver alone.
fn deliver(alloc: Global, from: Place, to: Place, out: &Outgoing) -> Result<Option<Event>, NoMemory>
    ensures { IfOk result (λ event. option_map event_of event ≡
        delivered to (Some (from, out.now))) }
{
    if out.to != to {
        return Ok(None);
    }
    let message = Boxed::new(alloc, out.message.copy(alloc)?)?;
    Ok(Some(Event::Given {
        input: Input::Message { from, message },
    }))
}
