//! The record of an answer is made, and then its act is given.
ghost use Rattle.std.specs.Prelude.{◌≡◌, false, IfSome};
ghost use Rattle.resource_store.specs.Keeping.{is_down, IsTaken};
ghost use Rattle.resource_store.specs.Answers.{Gives, Leaves};
ghost use Rattle.rule_calls.specs.Calls.{act_of};

use disk_model::Disk;
use resource_rules::Answer;
use resource_store::Store;
use seata_types::{Act, Step, StoreError};
use std::alloc::Global;

/// Gives the act of an answer, once the record that it asks for is made. Without a record nothing changes.
pub fn carry_out<D: Disk>(
    alloc: Global,
    store: &mut Store<D>,
    answer: Answer,
) -> Result<Act, StoreError>
    requires up { is_down store.old ≡ false }
    requires taken { IfSome answer.asked (λ r. IsTaken r store.old) }
    ensures gives { Gives D.state (act_of answer) result store.old store.new }
    ensures leaves { Leaves D.state result store.old store.new }
{
    let Answer {
        step,
        asked,
        change,
    } = answer;
    let Step { act, sent } = step;
    drop(change);
    drop(sent);
    match store.settle(alloc, asked) {
        Ok(()) => Ok(act),
        Err(error) => {
            drop(act);
            Err(error)
        }
    }
}
