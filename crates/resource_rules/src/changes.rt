//! What an answer asks of the open tickets is done.
ghost use Rattle.std.specs.Prelude.{◌≡◌, OnOk, OnErr};
ghost use Rattle.resource_rules.specs.Laws.{tickets_after, IsOpening, MayFollow};

use crate::answers::Change;
use local_txn::LocalTxns;
use seata_types::NoMemory;
use std::alloc::Global;

/// Changes the open tickets as an answer says. Only a ticket that is opened takes memory; without it all is as before.
pub fn follow(alloc: Global, txns: &mut LocalTxns, change: Change) -> Result<(), NoMemory>
    requires { MayFollow txns.old change }
    ensures ok { OnOk result (txns.new ≡ tickets_after change txns.old) }
    ensures err { OnErr result (txns.new ≡ txns.old) }
    ensures opening { OnErr result (IsOpening change) }
{
    match change {
        Change::Stays => Ok(()),
        Change::Opens(txn) => match txns.open(alloc, txn) {
            Ok(_) => Ok(()),
            Err(error) => Err(error),
        },
        Change::Sends(ticket) => {
            txns.sent(ticket);
            Ok(())
        }
        Change::Counts(ticket) => {
            let _count = txns.conflicted(ticket);
            Ok(())
        }
        Change::Closes(ticket) => {
            drop(txns.take(ticket));
            Ok(())
        }
    }
}
