//! The moments that a coordinator goes by.
use durable_records::SessionRecord;
use retry_turns::Turns;
use seata_types::{NoMemory, Xid};
use std::alloc::Global;

/// The transactions in their second phase, each planned for the moment at which it is due, and the finished ones, each with the
/// moment since which it rests.
#[derive(Drop)]
pub struct Moments {
    pub turns: Turns,
    pub rests: Turns,
}

impl Moments {
    ghost use Rattle.std.specs.Prelude.{◌≡◌, ◌+◌, [], OnOk, OnErr};
    ghost use Rattle.retry_turns.specs.Plans.{with_plan};
    ghost use Rattle.coordinator_rules.specs.Changes.{prepared, withdrawn, settled, GivesUp, IsPlannedFor, Replans};

    /// Nothing is planned, and nothing rests; takes no memory.
    pub fn new(alloc: Global) -> Moments
        ensures turns { result.turns ≡ [] }
        ensures rests { result.rests ≡ [] }
    {
        Moments {
            turns: Turns::new(alloc),
            rests: Turns::new(alloc),
        }
    }

    /// Before a record: what needs memory. After an error all is as before.
    pub fn prepare(&mut self, item: &SessionRecord, now: u64) -> Result<(), NoMemory>
        ensures ok { OnOk result (self.new ≡ prepared item.now now self.old) }
        ensures err { OnErr result (self.new ≡ self.old) }
    {
        match item {
            SessionRecord::Decided { xid, .. } => self.turns.plan(*xid, now),
            SessionRecord::Finished { xid } => self.rests.plan(*xid, now),
            _ => Ok(()),
        }
    }

    /// In place of a record that was prepared.
    pub fn withdraw(&mut self, item: &SessionRecord)
        ensures { self.new ≡ withdrawn item.now self.old }
    {
        match item {
            SessionRecord::Decided { xid, .. } => self.turns.forget(*xid),
            SessionRecord::Finished { xid } => self.rests.forget(*xid),
            _ => {}
        }
    }

    /// After a record that was prepared.
    pub fn settle(&mut self, item: &SessionRecord, now: u64, retry: u64)
        ensures { IsPlannedFor item.now self.old.turns →
            self.new ≡ settled retry now item.now self.old }
    {
        match item {
            SessionRecord::Ended { xid, .. } => self.replan(*xid, now),
            SessionRecord::Retrying { xid } => self.replan_after(*xid, now, retry),
            SessionRecord::Failed { xid, .. } => self.turns.forget(*xid),
            SessionRecord::Finished { xid } => self.turns.forget(*xid),
            SessionRecord::Forgot { xid } => self.rests.forget(*xid),
            _ => {}
        }
    }

    /// After a record that was prepared isn't made; where the disks failed, it is known.
    pub fn give_up(&mut self, item: &SessionRecord, now: u64, retry: u64, failed: bool)
        ensures { GivesUp failed retry now item.now self.old self.new }
    {
        if failed {
            self.settle(item, now, retry);
        } else {
            self.withdraw(item);
        }
    }

    /// A transaction is due again `retry` ticks later. After an error all is as before.
    pub fn plan_again(&mut self, xid: Xid, now: u64, retry: u64) -> Result<(), NoMemory>
        ensures ok { OnOk result (self.new.turns ≡ with_plan self.old.turns xid.0 (now + retry)) }
        ensures rests { self.new.rests ≡ self.old.rests }
        ensures err { OnErr result (self.new ≡ self.old) }
    {
        self.turns.plan_after(xid, now, retry)
    }

    // A transaction that is planned is planned for another moment, which takes no memory.
    fn replan(&mut self, xid: Xid, at: u64)
        ensures planned { Replans xid.0 at self.old.turns self.new.turns }
        ensures rests { self.new.rests ≡ self.old.rests }
    {
        drop(self.turns.plan(xid, at));
    }

    // The same for the moment so many ticks after another one.
    fn replan_after(&mut self, xid: Xid, moment: u64, ticks: u64)
        ensures planned { Replans xid.0 (moment + ticks) self.old.turns self.new.turns }
        ensures rests { self.new.rests ≡ self.old.rests }
    {
        drop(self.turns.plan_after(xid, moment, ticks));
    }
}
