//! The branches of a resource, and what it answers.
ghost use Rattle.std.specs.Prelude.{◌≡◌};
ghost use Rattle.resource_core.specs.Stepping.{node_error};

use disk_model::Disk;
use local_txn::LocalTxns;
use node_steps::still;
use resource_rules::{Answer, Setup, durable_of, follow};
use resource_store::Store;
use seata_types::{Act, Durable, Input, NoMemory, NodeError, Step, StoreError};
use std::alloc::Global;

/// What a resource works with: what it is beside its tables, its store, and the local transactions that it has open.
#[derive(Drop)]
pub struct Branches<D> {
    pub setup: Setup,
    pub store: Store<D>,
    pub txns: LocalTxns,
}

impl<D: Disk> Branches<D> {
    ghost use Rattle.std.specs.Prelude.{◌≡◌, IfSome};
    ghost use Rattle.seata_types.specs.declared.messages.Input.{Input as TheInput};
    ghost use Rattle.resource_store.specs.Keeping.{known, IsTaken};
    ghost use Rattle.resource_rules.specs.Answers.{Answers as AreRules, OpensNext};
    ghost use Rattle.resource_core.specs.Stepping.{Answers};
    ghost use Rattle.resource_core.specs.Ready.{IsReady, Serves};

    /// Answers an input by the rules.
    pub fn answer(&mut self, alloc: Global, given: &Input) -> Result<Step, NodeError>
        requires ready { IsReady self.old }
        requires served { Serves given.now }
        ensures { Answers D.state self.old self.new given.now result }
    {
        // A turn with no ticket open, which is what most turns are, is answered at once. To move a whole answer, with room for a
        // record and a ticket, takes longer than to find that one.
        match given {
            Input::Turn if self.txns.next_to_send().is_none() => Ok(still(Act::Nothing)),
            _ => self.by_rules(alloc, given),
        }
    }

    // Answers any input by the rules.
    fn by_rules(&mut self, alloc: Global, given: &Input) -> Result<Step, NodeError>
        requires ready { IsReady self.old }
        requires served { Serves given.now }
        ensures { Answers D.state self.old self.new given.now result }
    {
        match resource_rules::answer(alloc, self.store.memory(), &self.setup, &self.txns, given) {
            Ok(answer) => self.make(alloc, answer),
            Err(NoMemory) => Err(NodeError::NoMemory),
        }
    }

    // Makes the record that an answer asks for, and then the open tickets change. After a failure of the disks its act is in
    // flight.
    fn make(&mut self, alloc: Global, answer: Answer) -> Result<Step, NodeError>
        requires ready { IsReady self.old }
        requires taken { IfSome answer.asked (λ r. IsTaken r self.old.store) }
        requires opens { OpensNext self.old.txns answer.asked answer.change }
        ensures { (given : TheInput) → AreRules self.old.setup (known self.old.store) self.old.txns given answer →
            Answers D.state self.old self.new given result }
    {
        let at = durable_of(&answer.step.act);
        let Answer {
            step,
            asked,
            change,
        } = answer;
        match self.store.settle(alloc, asked) {
            Ok(()) => match follow(alloc, &mut self.txns, change) {
                Ok(()) => Ok(step),
                Err(NoMemory) => {
                    drop(step);
                    Err(NodeError::NoMemory)
                }
            },
            Err(error) => {
                drop(step);
                drop(change);
                Err(node_error(error, at))
            }
        }
    }
}

// What a store's error is at an act: where that is durable, it is in flight after a failure. A store fails only at a record, and
// the act of an answer that asks for one is durable, so no call meets a failure without an act.
fn node_error(error: StoreError, at: Option<Durable>) -> NodeError
    ensures { result ≡ node_error error at }
{
    match (error, at) {
        (StoreError::Failed, Some(at)) => NodeError::Failed { at },
        (StoreError::Failed, None) => NodeError::NoMemory,
        (StoreError::Full(full), _) => NodeError::Full(full),
        (StoreError::NoMemory, _) => NodeError::NoMemory,
    }
}
