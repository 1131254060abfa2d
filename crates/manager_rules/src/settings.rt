//! A manager's settings, and the messages that follow from them.
ghost use Rattle.std.specs.Prelude.{◌≡◌};
ghost use Rattle.history_rules.specs.ManagerRules as rules;
ghost use Rattle.history_rules.specs.ManagerRules.{Settings as Rules};
ghost use Rattle.manager_rules.specs.Calls.{IsSaid};

use crate::phases::Phase;
use seata_types::{Duplicate, Ending, List, Message, NoMemory, Work, Xid};
use std::alloc::Global;
use std::marker::Model;

/// A manager's settings, whose calls are counted by 16 bits. Contracts see the settings of a manager's rules.
#[derive(Drop)]
pub struct Settings {
    number: u16,
    timeout: u64,
    tries: u32,
    calls: List<(u16, Work)>,
    ending: Ending,
    silent: Option<u32>,
    poll: bool,
}

impl Model for Settings {
    ghost use Rattle.std.specs.Coded.{codes};
    ghost use Rattle.seata_types.specs.contracts.statements.Work as work_type;
    ghost use Rattle.history_rules.specs.ManagerRules.{Settings as Rules};
    ghost use Rattle.manager_rules.specs.Within.{HasFewCalls, settings_with};

    ghost Value = { Rules };

    ghost coded = { Prim.hlevel (codes, work_type.the_row.coded) };

    ghost view = { λ s. settings_with s.number s.timeout s.tries s.calls s.ending s.silent s.poll };

    ghost invariant = { λ s. HasFewCalls (settings_with s.number s.timeout s.tries s.calls s.ending s.silent s.poll) };
}

impl Settings {
    ghost use Rattle.std.specs.Prelude.{◌≡◌, ◌+◌, ◌<◌, ◌^◌, nat_le, false, IfOk};
    ghost use Rattle.seata_types.specs.declared.messages.Message.TheVariants as message;
    ghost use Rattle.history_rules.specs.ManagerRules as rules;
    ghost use Rattle.manager_rules.specs.Calls.{IsSaid, next_message, next_phase};
    ghost use Rattle.manager_rules.specs.Within.{HasFewCalls, settings_with};

    /// These settings; takes no memory.
    pub fn new(
        number: u16,
        timeout: u64,
        tries: u32,
        calls: List<(u16, Work)>,
        ending: Ending,
        silent: Option<u32>,
        poll: bool,
    ) -> Settings
        requires { HasFewCalls (settings_with number timeout tries calls ending silent poll) }
        ensures { result ≡ settings_with number timeout tries calls ending silent poll }
    {
        Settings {
            number,
            timeout,
            tries,
            calls,
            ending,
            silent,
            poll,
        }
    }

    /// The manager's number.
    pub fn number(&self) -> u16
        ensures { result ≡ self.now.number }
    {
        self.number
    }

    /// Whether it asks for the status at the end.
    pub fn polls(&self) -> bool
        ensures { result ≡ self.now.poll }
    {
        self.poll
    }

    /// Whether so many messages are all that it sends.
    pub fn is_silent(&self, sent: u32) -> bool
        ensures { result ≡ rules.is_silent self.now.silent sent }
    {
        match self.silent {
            Some(most) => most <= sent,
            None => false,
        }
    }

    /// Whether a call that was busy so often before is now busy for the last time.
    pub fn is_last_try(&self, busy: u32) -> bool
        ensures last { result ≡ nat_le self.now.tries (busy + 1) }
        ensures room { result ≡ false → busy + 1 < 2 ^ 32 }
    {
        self.tries.saturating_sub(busy) <= 1
    }

    /// The message that begins the transaction.
    pub fn begin(&self) -> Message
        ensures begin { result ≡ message.Begin self.now.number self.now.timeout }
        ensures said { IsSaid self.now result }
    {
        Message::Begin {
            manager: self.number,
            timeout: self.timeout,
        }
    }

    /// The message after so many calls are done: the next call, after the last one the end.
    pub fn next(&self, alloc: Global, xid: Xid, done: u16) -> Result<Message, NoMemory>
        ensures next { IfOk result (λ next. next ≡ next_message self.now xid done) }
        ensures said { IfOk result (IsSaid self.now) }
    {
        match self.calls.as_slice().get(done as usize) {
            Some((resource, work)) => Ok(Message::Call {
                xid,
                manager: self.number,
                resource: *resource,
                call: done + 1,
                work: work.copy(alloc)?,
            }),
            None => Ok(end_message(self.ending, xid)),
        }
    }

    /// What is waited for after that message.
    pub fn next_phase(&self, xid: Xid, done: u16) -> Phase
        ensures { result ≡ next_phase self.now xid done }
    {
        match self.calls.as_slice().get(done as usize) {
            Some(_) => Phase::Calling { xid, done, busy: 0 },
            None => Phase::Closing {
                xid,
                how: self.ending,
            },
        }
    }
}

/// The message that asks for this end of a transaction.
pub fn end_message(how: Ending, xid: Xid) -> Message
    ensures end { result ≡ rules.end_message how xid }
    ensures said { (m : Rules) → IsSaid m result }
{
    match how {
        Ending::Commit => Message::GlobalCommit { xid },
        Ending::Rollback => Message::GlobalRollback { xid },
    }
}
