//! Outside writes.
ghost use Rattle.std.specs.Prelude.{◌≡◌, ◌≤◌, false, length, Ok};
ghost use Rattle.seata_types.specs.declared.limits.TheConstants.{FIELD_ITEMS};
ghost use Rattle.durable_records.specs.declared.resources.ResourceRecord.TheVariants as log;
ghost use Rattle.resource_store.specs.Keeping.{known, is_down};
ghost use Rattle.resource_store.specs.Answers.{HasPlaces, Leaves};
ghost use Rattle.local_guard.specs.Outside.{Writes, WritesOn, failure, told, written_by};

use crate::answers::OutsideError;
use disk_model::Disk;
use local_txn::LocalTxns;
use resource_rules::outside_for;
use resource_store::Store;
use rule_calls::carry_out;
use seata_types::{Act, NoMemory, Stmt, StoreError, Why};
use std::alloc::Global;

/// Runs the statements of an outside write by its number, on the tables as they are now, where they have a meaning and no open
/// ticket has a row of theirs. No transaction is asked.
pub fn outside<D: Disk>(
    alloc: Global,
    store: &mut Store<D>,
    txns: &LocalTxns,
    number: u16,
    stmts: &[Stmt],
) -> Result<(), OutsideError>
    requires up { is_down store.old ≡ false }
    requires statements { length stmts.now ≤ FIELD_ITEMS }
    requires places { HasPlaces (known store.old).tables stmts.now (log.Outside number) }
    ensures writes { Writes D.state number stmts.now txns.now.opens result store.old store.new }
    ensures known { WritesOn D.state number stmts.now txns.now.opens result store.old store.new }
    ensures leaves { Leaves D.state (told result) store.old store.new }
{
    match outside_for(alloc, store.memory(), txns, number, stmts) {
        Ok(answer) => match carry_out(alloc, store, answer) {
            Ok(act) => written_by(act),
            Err(error) => Err(failed(error)),
        },
        Err(NoMemory) => Err(OutsideError::NoMemory),
    }
}

// What the act of an outside write tells.
fn written_by(act: Act) -> Result<(), OutsideError>
    ensures { told result ≡ Ok (written_by act) }
{
    match act {
        Act::RefusedLocal {
            why: Why::Stmt { index, why },
            ..
        } => Err(OutsideError::Stmt { index, why }),
        Act::BusyLocal { key, by, .. } => Err(OutsideError::Busy { key, by }),
        _ => Ok(()),
    }
}

// The answer where the record isn't made.
fn failed(error: StoreError) -> OutsideError
    ensures { result ≡ failure error }
{
    match error {
        StoreError::Failed => OutsideError::Failed,
        StoreError::Full(full) => OutsideError::Full(full),
        StoreError::NoMemory => OutsideError::NoMemory,
    }
}
