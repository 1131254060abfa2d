//! What a manager says and answers.
ghost use Rattle.std.specs.Prelude.{◌≡◌, ◌+◌, ◌==◌, ◌&&◌};
ghost use Rattle.history_rules.specs.ManagerRules as rules;

use crate::phases::Phase;
use crate::settings::{Settings, end_message};
use crate::steps::{sends, still};
use seata_types::{
    Act, CallAnswer, Ending, GlobalStatus, Input, Message, NoMemory, Place, Step, Xid,
};
use std::alloc::Global;

/// A manager's settings, how many messages it sent, and what it waits for.
#[derive(Drop)]
pub struct Talk {
    pub settings: Settings,
    pub sent: u32,
    pub phase: Phase,
}

impl Talk {
    ghost use Rattle.std.specs.Prelude.{◌≡◌, ◌≤◌, ◌<◌, ◌+◌, ◌==◌, ◌^◌, true, false, List, Ok};
    ghost use Rattle.seata_types.specs.declared.acts.Act.TheVariants as acts;
    ghost use Rattle.seata_types.specs.declared.ids.Ticket.{Ticket as TheTicket};
    ghost use Rattle.seata_types.specs.declared.messages.CallAnswer.TheVariants as called;
    ghost use Rattle.seata_types.specs.declared.messages.Input.TheVariants as input;
    ghost use Rattle.seata_types.specs.declared.messages.Message.TheVariants as message;
    ghost use Rattle.seata_types.specs.declared.rows.RowKey.{RowKey as TheKey};
    ghost use Rattle.seata_types.specs.declared.statuses.Ending.TheVariants as ending;
    ghost use Rattle.history_rules.specs.Own.{Own};
    ghost use Rattle.history_rules.specs.Own as own;
    ghost use Rattle.history_rules.specs.ManagerRules as rules;
    ghost use Rattle.manager_rules.specs.Answers.{Answers, Hears, IsAnswered, IsUndurable, Says, Speaks};
    ghost use Rattle.manager_rules.specs.Calls.{IsSaid, SendsSaid, next_message, next_phase};
    ghost use Rattle.manager_rules.specs.Tracks.{Tracks};
    ghost use Rattle.manager_rules.specs.declared.phases.Phase.TheVariants as phases;

    /// Whether the end of its transaction was answered.
    pub fn is_closed(&self) -> bool
        ensures { (owns : List Own) → Tracks self.now owns → result ≡ rules.is_closed owns }
    {
        matches!(self.phase, Phase::Closed { .. })
    }

    /// Whether it has sent all that it may.
    pub fn is_silent(&self) -> bool
        ensures { result ≡ rules.is_silent self.now.settings.silent self.now.sent }
    {
        self.settings.is_silent(self.sent)
    }

    /// Sends a message and waits for its answer, unless it has gone silent.
    fn say(&mut self, act: Act, message: Message, phase: Phase) -> Step
        requires room { self.old.sent + 1 < 2 ^ 32 }
        requires said { IsSaid self.old.settings message }
        ensures { Says self.old self.new act message phase result }
    {
        if self.is_silent() {
            drop(act);
            drop(message);
            return still(Act::Silent);
        }
        self.sent += 1;
        self.phase = phase;
        let to = receiver(&message);
        sends(act, to, message)
    }

    /// Sends the message after so many calls are done.
    fn say_next(
        &mut self,
        alloc: Global,
        act: Act,
        xid: Xid,
        done: u16,
        phase: Phase,
    ) -> Result<Step, NoMemory>
        requires room { self.old.sent + 1 < 2 ^ 32 }
        ensures { Speaks self.old self.new act (next_message self.old.settings xid done) phase result }
    {
        match self.settings.next(alloc, xid, done) {
            Ok(message) => Ok(self.say(act, message, phase)),
            Err(NoMemory) => {
                drop(act);
                Err(NoMemory)
            }
        }
    }

    /// Goes on after so many calls are done.
    fn go_on(&mut self, alloc: Global, xid: Xid, done: u16) -> Result<Step, NoMemory>
        requires room { self.old.sent + 1 < 2 ^ 32 }
        ensures { Speaks self.old self.new acts.GoesOn (next_message self.old.settings xid done) (next_phase self.old.settings xid done) result }
    {
        let phase = self.settings.next_phase(xid, done);
        self.say_next(alloc, Act::GoesOn, xid, done, phase)
    }

    /// Asks for the rollback.
    fn give_up(&mut self, xid: Xid) -> Step
        requires room { self.old.sent + 1 < 2 ^ 32 }
        ensures { Says self.old self.new acts.GivesUp (message.GlobalRollback xid) (phases.Closing xid ending.Rollback) result }
    {
        let how = Ending::Rollback;
        self.say(
            Act::GivesUp,
            Message::GlobalRollback { xid },
            Phase::Closing { xid, how },
        )
    }

    /// Takes a turn.
    fn turn(&mut self, alloc: Global) -> Result<Step, NoMemory>
        requires room { self.old.sent + 1 < 2 ^ 32 }
        ensures { Answers self.old self.new input.Turn result }
    {
        let phase = self.phase;
        match phase {
            Phase::Unstarted => Ok(self.begin(Act::Starts)),
            Phase::Beginning => Ok(self.begin(Act::Repeats)),
            Phase::Calling { xid, done, busy: _ } => {
                self.say_next(alloc, Act::Repeats, xid, done, phase)
            }
            Phase::Closing { xid, how } => Ok(self.say(Act::Repeats, end_message(how, xid), phase)),
            Phase::Closed { xid } => Ok(self.poll(xid)),
        }
    }

    /// Begins its transaction, or asks for it again.
    fn begin(&mut self, act: Act) -> Step
        requires room { self.old.sent + 1 < 2 ^ 32 }
        ensures { Says self.old self.new act (message.Begin self.old.settings.number self.old.settings.timeout) phases.Beginning result }
    {
        let message = self.settings.begin();
        self.say(act, message, Phase::Beginning)
    }

    /// Takes a turn after the end.
    fn poll(&mut self, xid: Xid) -> Step
        requires room { self.old.sent + 1 < 2 ^ 32 }
        requires closed { self.old.phase ≡ phases.Closed xid }
        ensures { IsAnswered self.old self.new input.Turn result }
    {
        if !self.settings.polls() {
            return still(Act::Nothing);
        }
        self.say(
            Act::Polls,
            Message::GlobalStatus { xid },
            Phase::Closed { xid },
        )
    }

    /// Answers a message.
    fn hear(&mut self, alloc: Global, heard: &Message) -> Result<Step, NoMemory>
        requires room { self.old.sent + 1 < 2 ^ 32 }
        ensures { Hears self.old self.new heard.now result }
    {
        match self.phase {
            Phase::Unstarted => Ok(still(Act::Ignored)),
            Phase::Beginning => self.hear_begun(alloc, heard),
            Phase::Calling { xid, done, busy } => self.hear_answer(alloc, xid, done, busy, heard),
            Phase::Closing { xid, how } => Ok(self.hear_end(xid, how, heard)),
            Phase::Closed { xid } => Ok(self.hear_status(xid, heard)),
        }
    }

    /// Answers a message while it waits for the number of its transaction.
    fn hear_begun(&mut self, alloc: Global, heard: &Message) -> Result<Step, NoMemory>
        requires room { self.old.sent + 1 < 2 ^ 32 }
        requires beginning { self.old.phase ≡ phases.Beginning }
        ensures { Hears self.old self.new heard.now result }
    {
        match heard {
            Message::Begun { xid } => self.go_on(alloc, *xid, 0),
            _ => Ok(still(Act::Ignored)),
        }
    }

    /// Answers a message while it waits for the answer of its present call.
    fn hear_answer(
        &mut self,
        alloc: Global,
        xid: Xid,
        done: u16,
        busy: u32,
        heard: &Message,
    ) -> Result<Step, NoMemory>
        requires room { self.old.sent + 1 < 2 ^ 32 }
        requires calling { self.old.phase ≡ phases.Calling xid done busy }
        ensures { Hears self.old self.new heard.now result }
    {
        match heard {
            Message::Answer {
                xid: told,
                call,
                answer,
            } => {
                if is_present(xid, done, *told, *call) {
                    return self.take_answer(alloc, xid, done, busy, answer);
                }
                Ok(still(Act::Ignored))
            }
            _ => Ok(still(Act::Ignored)),
        }
    }

    /// Takes the answer of its present call.
    fn take_answer(
        &mut self,
        alloc: Global,
        xid: Xid,
        done: u16,
        busy: u32,
        answer: &CallAnswer,
    ) -> Result<Step, NoMemory>
        requires room { self.old.sent + 1 < 2 ^ 32 }
        requires counted { done + 1 < 2 ^ 16 }
        requires calling { self.old.phase ≡ phases.Calling xid done busy }
        ensures { Hears self.old self.new (message.Answer xid (done + 1) answer.now) result }
    {
        match answer {
            CallAnswer::Done { branch: _ } => self.go_on(alloc, xid, done + 1),
            CallAnswer::Busy { key: _, by: _ } => Ok(self.count_busy(xid, done, busy)),
            CallAnswer::Failed { why: _ } => Ok(self.give_up(xid)),
        }
    }

    /// Counts that its present call is busy, and gives up at the last time.
    fn count_busy(&mut self, xid: Xid, done: u16, busy: u32) -> Step
        requires room { self.old.sent + 1 < 2 ^ 32 }
        requires calling { self.old.phase ≡ phases.Calling xid done busy }
        ensures { (key : TheKey) (by : TheTicket) → Hears self.old self.new (message.Answer xid (done + 1) (called.Busy key by)) (Ok result) }
    {
        if self.settings.is_last_try(busy) {
            return self.give_up(xid);
        }
        let count = busy + 1;
        self.phase = Phase::Calling {
            xid,
            done,
            busy: count,
        };
        still(Act::CallBusy { count })
    }

    /// Answers a message while it waits for the status of the end that it asked for.
    fn hear_end(&mut self, xid: Xid, how: Ending, heard: &Message) -> Step
        requires closing { self.old.phase ≡ phases.Closing xid how }
        ensures { Hears self.old self.new heard.now (Ok result) }
    {
        match (how, heard) {
            (Ending::Commit, Message::CommitStatus { xid: told, status }) => {
                self.close(xid, *told, *status)
            }
            (Ending::Rollback, Message::RollbackStatus { xid: told, status }) => {
                self.close(xid, *told, *status)
            }
            _ => still(Act::Ignored),
        }
    }

    /// Closes on the status of its transaction.
    fn close(&mut self, xid: Xid, told: Xid, status: GlobalStatus) -> Step
        ensures closed { (xid.0 == told.0) ≡ true → (result ≡ own.still (acts.Closes status)) × (self.new ≡ record self.old { phase = phases.Closed xid }) }
        ensures ignored { (xid.0 == told.0) ≡ false → (result ≡ own.still acts.Ignored) × (self.new ≡ self.old) }
        ensures undurable { IsUndurable result.act }
        ensures sent { SendsSaid self.old.settings result }
    {
        if xid.0 != told.0 {
            return still(Act::Ignored);
        }
        self.phase = Phase::Closed { xid };
        still(Act::Closes { status })
    }

    /// Answers a message after the end.
    fn hear_status(&mut self, xid: Xid, heard: &Message) -> Step
        requires closed { self.old.phase ≡ phases.Closed xid }
        ensures { Hears self.old self.new heard.now (Ok result) }
    {
        match heard {
            Message::StatusAnswer { xid: told, status } => {
                if xid.0 != told.0 {
                    return still(Act::Ignored);
                }
                still(Act::Learns { status: *status })
            }
            _ => still(Act::Ignored),
        }
    }

    /// Answers an input.
    pub fn answer(&mut self, alloc: Global, given: &Input) -> Result<Step, NoMemory>
        requires room { self.old.sent + 1 < 2 ^ 32 }
        ensures { Answers self.old self.new given.now result }
    {
        match given {
            Input::Turn => self.turn(alloc),
            Input::Message { from: _, message } => self.hear(alloc, message.get()),
            Input::Local { .. } | Input::Outside { .. } => Ok(still(Act::Ignored)),
        }
    }
}

/// Where a message goes.
fn receiver(message: &Message) -> Place
    ensures { result ≡ rules.receiver message.now }
{
    match message {
        Message::Call { resource, .. } => Place::Res(*resource),
        _ => Place::Tc,
    }
}

/// Whether a call of a transaction is the present one, after so many that are done.
fn is_present(xid: Xid, done: u16, told: Xid, call: u16) -> bool
    ensures { result ≡ ((xid.0 == told.0) && ((done + 1) == call)) }
{
    xid.0 == told.0 && call > done && call - done == 1
}
