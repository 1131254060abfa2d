//! The parts of a plan: what is kept of a call, and the answer where nothing is opened.
ghost use Rattle.std.specs.Prelude.{◌≡◌, IfOk};
ghost use Rattle.seata_types.specs.declared.statements.Work.TheVariants as work;
ghost use Rattle.local_txn.specs.OpenTickets.{no_effect};
ghost use Rattle.local_txn.specs.Answers.{at_opening, refusal, TellsBusy};

use crate::transactions::{ExecError, OpenTxn};
use local_tables::{Effect, EffectError};
use seata_types::{Action, Duplicate, List, NoMemory, RowKey, Shared, Stmt, Ticket, Work, Xid};
use std::alloc::Global;

/// The answer where statements have no effect.
pub(crate) fn refused(error: EffectError) -> ExecError
    ensures { result ≡ refusal error }
{
    match error {
        EffectError::At { index, why } => ExecError::Stmt { index, why },
        EffectError::NoMemory => ExecError::NoMemory,
    }
}

/// The answer where a row is open.
pub(crate) fn busy(alloc: Global, key: &RowKey, by: Ticket) -> ExecError
    ensures { TellsBusy key.now by result }
{
    match key.copy(alloc) {
        Ok(key) => ExecError::Busy { key, by },
        Err(NoMemory) => ExecError::NoMemory,
    }
}

/// A call of statements with their effect, at its opening.
pub(crate) fn at_call(
    alloc: Global,
    ticket: Ticket,
    xid: Xid,
    call: u16,
    manager: u16,
    stmts: &Shared<List<Stmt>>,
    effect: Effect,
) -> Result<OpenTxn, NoMemory>
    ensures { IfOk result (λ txn. txn ≡ at_opening ticket xid call manager (work.At stmts.now) effect) }
{
    let work = Work::At(stmts.copy(alloc)?);
    let Effect { images, reads, .. } = effect;
    Ok(OpenTxn {
        ticket,
        xid,
        call,
        manager,
        work,
        images,
        reads,
        conflicts: 0,
    })
}

/// A Try at its opening.
pub(crate) fn tcc_call(
    alloc: Global,
    ticket: Ticket,
    xid: Xid,
    call: u16,
    manager: u16,
    action: &Shared<Action>,
) -> Result<OpenTxn, NoMemory>
    ensures { IfOk result (λ txn. txn ≡ at_opening ticket xid call manager (work.Tcc action.now) no_effect) }
{
    Ok(OpenTxn {
        ticket,
        xid,
        call,
        manager,
        work: Work::Tcc(action.copy(alloc)?),
        images: List::of(Vec::new(alloc)),
        reads: List::of(Vec::new(alloc)),
        conflicts: 0,
    })
}
