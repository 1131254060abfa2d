//! What an answer asks for is made durable, and then its step is given.
ghost use Rattle.std.specs.Prelude.{◌≡◌};
ghost use Rattle.coordinator_core.specs.Plain.{error_at, node_error};

use crate::table::Table;
use coordinator_rules::Answer;
use disk_model::Disk;
use durable_records::SessionRecord;
use lock_table::Steps;
use seata_types::{Act, Durable, NoMemory, NodeError, Step, StoreError, Xid};
use std::alloc::Global;
use std::sync::ledger::Ledger;

impl<D: Disk> Table<D> {
    ghost use Rattle.std.specs.Prelude.{◌≡◌, false, None, IfSome};
    ghost use Rattle.session_store.specs.Keeping.{is_down};
    ghost use Rattle.coordinator_core.specs.Taking.{GoesLater, IsMadeOn, KeepsOn, TakesAnswer, TakingCosts};

    /// Makes durable what an answer asks for, or has a transaction due again, and gives the answer's step.
    pub(crate) fn take<L: Ledger>(
        &mut self,
        alloc: Global,
        answer: Answer,
        now: u64,
        steps: &mut Steps<L>,
    ) -> Result<Step, NodeError>
        requires up { is_down self.old.sessions ≡ false }
        requires asked { IfSome answer.asked (IsMadeOn self.old) }
        ensures taken { TakesAnswer D.state answer self.old self.new now result }
        ensures cost { TakingCosts answer.asked self.old steps.old steps.new }
    {
        let Answer { step, asked, again } = answer;
        match self.keep(alloc, asked, again, now, steps) {
            Ok(()) => Ok(step),
            Err(error) => Err(not_taken(error, step)),
        }
    }

    // Makes the record that is asked for, if one is.
    #[tactic(auto, using(crate::proofs::Counted::no_step))]
    fn keep<L: Ledger>(
        &mut self,
        alloc: Global,
        asked: Option<SessionRecord>,
        again: Option<Xid>,
        now: u64,
        steps: &mut Steps<L>,
    ) -> Result<(), StoreError>
        requires up { is_down self.old.sessions ≡ false }
        requires asked { IfSome asked (IsMadeOn self.old) }
        ensures kept { KeepsOn D.state asked again self.old self.new now result }
        ensures cost { TakingCosts asked self.old steps.old steps.new }
    {
        match asked {
            Some(item) => self.make(alloc, item, now, steps),
            None => self.go_later(again, now),
        }
    }

    // A transaction is due again, if one is.
    fn go_later(&mut self, again: Option<Xid>, now: u64) -> Result<(), StoreError>
        ensures { GoesLater again self.old self.new now result }
    {
        let Some(xid) = again else {
            return Ok(());
        };
        match self.moments.plan_again(xid, now, self.retry) {
            Ok(()) => Ok(()),
            Err(NoMemory) => Err(StoreError::NoMemory),
        }
    }
}

// The node's error where a step isn't taken.
fn not_taken(error: StoreError, step: Step) -> NodeError
    ensures { result ≡ error_at error step.act }
{
    let error = error_at(error, &step.act);
    drop(step);
    error
}

// Without a record only memory can be missing.
fn error_at(error: StoreError, act: &Act) -> NodeError
    ensures { result ≡ error_at error act.now }
{
    match act {
        Act::Durable(done) => node_error(error, *done),
        _ => NodeError::NoMemory,
    }
}

// The node's error where this act isn't done.
fn node_error(error: StoreError, at: Durable) -> NodeError
    ensures { result ≡ node_error error at }
{
    match error {
        StoreError::Failed => NodeError::Failed { at },
        StoreError::Full(full) => NodeError::Full(full),
        StoreError::NoMemory => NodeError::NoMemory,
    }
}
