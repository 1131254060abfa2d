//! The second phase of AT branches.
ghost use Rattle.std.specs.Prelude.{◌≡◌, ℕ, IfOk};
ghost use Rattle.seata_types.specs.declared.acts.Act.TheVariants as act;
ghost use Rattle.seata_types.specs.declared.messages.Message.TheVariants as message;
ghost use Rattle.seata_types.specs.declared.statuses.BranchKind.TheVariants as kind;
ghost use Rattle.local_tables.specs.Rows.{row_at};
ghost use Rattle.durable_records.specs.ResourceOrder.{image_keys};
ghost use Rattle.local_txn.specs.OpenTickets.{busy_in};
ghost use Rattle.local_txn.specs.Answers.{Tickets};
ghost use Rattle.resource_rules.specs.Answers.{Hears};
ghost use Rattle.resource_rules.specs.Apart.{RollsBack};
ghost use Rattle.resource_rules.specs.Ends.{empty, undoing};
ghost use Rattle.resource_rules.specs.declared.setups.Setup.{Setup as TheSetup};

use crate::answers::Answer;
use crate::lookups::entry;
use crate::rows;
use crate::telling::{committed, in_range, rollbacked};
use durable_records::ResourceRecord;
use local_tables::Tables;
use local_txn::LocalTxns;
use resource_memory::Memory;
use seata_types::{Act, Boxed, BranchStatus, Duplicate, Durable, Image, Leg, NoMemory};
use std::alloc::Global;
use undo_log::UndoEntry;

/// A branch is to commit: its undo record is cleared, if it has one. Takes no memory.
pub fn at_commit(memory: &Memory, leg: Leg) -> Answer
    ensures { (is : TheSetup) (ts : Tickets) (manager call : ℕ) →
        Hears is memory.now ts (message.BranchCommit leg.xid leg.branch kind.At manager call) result }
{
    let Leg { xid, branch } = leg;
    in_range(xid.0, branch.0);
    match entry(memory, leg) {
        Some(UndoEntry::Normal(_)) => committed(
            leg,
            BranchStatus::PhaseTwoCommitted,
            0,
            Act::Durable(Durable::Cleared { xid, branch }),
            Some(ResourceRecord::Cleared { xid, branch }),
        ),
        Some(UndoEntry::Finished) => empty(leg),
        None => empty(leg),
    }
}

// The branch has no undo record.
fn empty(leg: Leg) -> Answer
    ensures { result ≡ empty leg }
{
    let Leg { xid, branch } = leg;
    let act = Act::Empty { xid, branch };
    committed(leg, BranchStatus::PhaseTwoCommitted, 0, act, None)
}

/// A branch is to roll back: the rows of its undo record are put back, where no open local transaction has one of them and each
/// is as the branch left it. A branch without an undo record is marked, so that it never commits. What is compared with a
/// present row is what the branch left there alone, where Seata looks at the row before too.
pub fn at_rollback(
    alloc: Global,
    memory: &Memory,
    txns: &LocalTxns,
    leg: Leg,
) -> Result<Answer, NoMemory>
    ensures { IfOk result (RollsBack memory.now txns.now.opens leg) }
{
    let Leg { xid, branch } = leg;
    in_range(xid.0, branch.0);
    match entry(memory, leg) {
        Some(UndoEntry::Normal(record)) => undo(
            alloc,
            memory.tables(),
            txns,
            leg,
            record.images.as_slice(),
        ),
        Some(UndoEntry::Finished) => Ok(rollbacked(
            leg,
            BranchStatus::PhaseTwoRollbacked,
            0,
            Act::Remarked { xid, branch },
            None,
        )),
        None => Ok(rollbacked(
            leg,
            BranchStatus::PhaseTwoRollbacked,
            0,
            Act::Durable(Durable::Marked { xid, branch }),
            Some(ResourceRecord::Marked { xid, branch }),
        )),
    }
}

// The rows of an undo record are to be put back.
fn undo(
    alloc: Global,
    tables: &Tables,
    txns: &LocalTxns,
    leg: Leg,
    images: &[Image],
) -> Result<Answer, NoMemory>
    ensures { IfOk result (λ a. a ≡ undoing tables.now leg images.now (busy_in txns.now.opens (image_keys images.now))) }
{
    let Leg { xid, branch } = leg;
    if let Some((key, by)) = rows::first_open(txns, images) {
        let key = key.copy(alloc)?;
        let act = Act::Blocked {
            xid,
            branch,
            key,
            by,
        };
        let status = BranchStatus::PhaseTwoRollbackFailedRetryable;
        return Ok(rollbacked(leg, status, 0, act, None));
    }
    match rows::first_dirty(tables, images) {
        Some(image) => {
            let act = dirty(alloc, tables, leg, image)?;
            let status = BranchStatus::PhaseTwoRollbackFailedUnretryable;
            Ok(rollbacked(leg, status, 0, act, None))
        }
        None => Ok(rollbacked(
            leg,
            BranchStatus::PhaseTwoRollbacked,
            0,
            Act::Durable(Durable::Undone { xid, branch }),
            Some(ResourceRecord::Undone { xid, branch }),
        )),
    }
}

// The row of this image isn't its after.
fn dirty(alloc: Global, tables: &Tables, leg: Leg, image: &Image) -> Result<Act, NoMemory>
    ensures { IfOk result (λ a. a ≡ act.Dirty leg.xid leg.branch image.now.key image.now.after (row_at tables.now.rows image.now.key)) }
{
    Ok(Act::Dirty {
        xid: leg.xid,
        branch: leg.branch,
        key: Boxed::new(alloc, image.key.copy(alloc)?)?,
        after: Boxed::new(alloc, image.after.copy(alloc)?)?,
        now: Boxed::new(alloc, rows::present(alloc, tables, &image.key)?)?,
    })
}
