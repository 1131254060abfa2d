//! The second phase of TCC branches.
ghost use Rattle.std.specs.Prelude.{◌≡◌, ◌≤◌, false, length, IfOk};
ghost use Rattle.seata_types.specs.declared.limits.TheConstants.{FIELD_ITEMS};
ghost use Rattle.resource_store.specs.Answers.{Leaves};
ghost use Rattle.resource_store.specs.Keeping.{known, is_down};
ghost use Rattle.tcc_branch.specs.SecondPhase.{Confirms, Cancels, confirmed_on, cancelled_on, ended_by};
ghost use Rattle.tcc_branch.specs.SecondPhase.{HasConfirmPlaces, HasCancelPlaces};

use crate::answers::TccAnswer;
use disk_model::Disk;
use resource_rules::{cancel_for, confirm_for};
use resource_store::Store;
use rule_calls::carry_out;
use seata_types::{Act, Action, Durable, Leg, NoMemory, StoreError};
use std::alloc::Global;

/// Runs the Confirm of a branch, where its fence lets it and each statement has a meaning; they need not touch a row.
pub fn confirm<D: Disk>(
    alloc: Global,
    store: &mut Store<D>,
    leg: Leg,
    action: &Action,
) -> Result<TccAnswer, StoreError>
    requires up { is_down store.old ≡ false }
    requires statements { length action.now.confirms ≤ FIELD_ITEMS }
    requires places { HasConfirmPlaces (known store.old).tables leg action.now }
    ensures answer { Confirms D.state leg action.now result store.old store.new }
    ensures told { IfOk result (λ a. a ≡ confirmed_on (known store.old) leg action.now.confirms) }
    ensures leaves { Leaves D.state result store.old store.new }
{
    match confirm_for(alloc, store.memory(), leg, action.confirms.as_slice()) {
        Ok(answer) => match carry_out(alloc, store, answer) {
            Ok(act) => Ok(ended_by(act)),
            Err(error) => Err(error),
        },
        Err(NoMemory) => Err(StoreError::NoMemory),
    }
}

/// Runs the Cancel of a branch, where its fence lets it and each statement has a meaning; they need not touch a row. A branch
/// without a fence is suspended: its Try never runs.
pub fn cancel<D: Disk>(
    alloc: Global,
    store: &mut Store<D>,
    leg: Leg,
    action: &Action,
) -> Result<TccAnswer, StoreError>
    requires up { is_down store.old ≡ false }
    requires statements { length action.now.cancels ≤ FIELD_ITEMS }
    requires places { HasCancelPlaces (known store.old).tables leg action.now }
    ensures answer { Cancels D.state leg action.now result store.old store.new }
    ensures told { IfOk result (λ a. a ≡ cancelled_on (known store.old) leg action.now.cancels) }
    ensures leaves { Leaves D.state result store.old store.new }
{
    match cancel_for(alloc, store.memory(), leg, action.cancels.as_slice()) {
        Ok(answer) => match carry_out(alloc, store, answer) {
            Ok(act) => Ok(ended_by(act)),
            Err(error) => Err(error),
        },
        Err(NoMemory) => Err(StoreError::NoMemory),
    }
}

// What the act of a Confirm or a Cancel tells.
fn ended_by(act: Act) -> TccAnswer
    ensures { result ≡ ended_by act }
{
    match act {
        Act::Durable(Durable::Suspended { .. }) => TccAnswer::Suspended,
        Act::Durable(_) => TccAnswer::Ran,
        Act::Already { .. } => TccAnswer::Already,
        Act::Unable { index, why, .. } => TccAnswer::ActionFailed { index, why },
        _ => TccAnswer::Refused,
    }
}
