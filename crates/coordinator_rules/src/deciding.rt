//! Transactions begin, and are decided.
ghost use Rattle.std.specs.Prelude.{◌≡◌, ℕ, true, if◌then◌else◌};
ghost use Rattle.seata_types.specs.declared.ids.Place.TheVariants as place;
ghost use Rattle.seata_types.specs.declared.messages.Message.TheVariants as message;
ghost use Rattle.seata_types.specs.declared.statuses.Decision.TheVariants as decision;
ghost use Rattle.durable_records.specs.SessionOrder.{is_counted};
ghost use Rattle.history_rules.specs.Own as own;
ghost use Rattle.coordinator_rules.specs.Answers.{Hears, HearsFrom, answer};
ghost use Rattle.coordinator_rules.specs.Framing.{SendsFramable};
ghost use Rattle.coordinator_rules.specs.Naming.{ActNames, IsNamed};

use crate::answers::Answer;
use crate::telling::sends;
use crate::{choosing, kinds, statuses};
use durable_records::SessionRecord;
use seata_types::{Act, Decision, Durable, Message, Place, Xid};
use session_memory::Memory;

/// Begins a transaction for a manager, or tells the one that it has.
pub(crate) fn begin(memory: &Memory, manager: u16, timeout: u64, now: u64) -> Answer
    ensures { Hears memory.now (message.Begin manager timeout) now result }
{
    if let Some(xid) = memory.manager_xid(manager) {
        return begun(Act::Known { xid }, manager, xid, None);
    }
    let xid = memory.next_xid();
    let item = SessionRecord::Begun {
        xid,
        manager,
        begun: now,
        timeout,
    };
    begun(
        Act::Durable(Durable::Begun { xid }),
        manager,
        xid,
        Some(item),
    )
}

// Tells a manager its transaction.
fn begun(act: Act, manager: u16, xid: Xid, asked: Option<SessionRecord>) -> Answer
    ensures value { result ≡ answer asked (own.sends act (place.Man manager) (message.Begun xid)) }
    ensures framable { SendsFramable result.step }
    ensures named { (managers resources : ℕ) → ActNames resources act →
        is_counted managers manager ≡ true → IsNamed managers resources result.step }
{
    sends(act, Place::Man(manager), Message::Begun { xid }, asked)
}

/// Answers a GlobalCommit: past its timeout a transaction is rolled back.
pub(crate) fn commit(memory: &Memory, from: Place, xid: Xid, now: u64) -> Answer
    ensures { HearsFrom memory.now from (message.GlobalCommit xid) now result }
{
    let status = memory.status(xid);
    if !kinds::is_begin(status) {
        let message = Message::CommitStatus { xid, status };
        return sends(Act::Told { xid, status }, from, message, None);
    }
    let how = commit_or_timeout(choosing::has_passed_in(memory.find(xid), now));
    let status = statuses::decided(memory, xid, how);
    let message = Message::CommitStatus { xid, status };
    let item = SessionRecord::Decided { xid, how };
    sends(
        Act::Durable(Durable::Decided { xid, how }),
        from,
        message,
        Some(item),
    )
}

// What a GlobalCommit decides.
fn commit_or_timeout(past: bool) -> Decision
    ensures { result ≡ (if past then decision.Timeout else decision.Commit) }
{
    if past {
        Decision::Timeout
    } else {
        Decision::Commit
    }
}

/// Answers a GlobalRollback.
pub(crate) fn roll_back(memory: &Memory, from: Place, xid: Xid, now: u64) -> Answer
    ensures { HearsFrom memory.now from (message.GlobalRollback xid) now result }
{
    let status = memory.status(xid);
    if !kinds::is_begin(status) {
        let message = Message::RollbackStatus { xid, status };
        return sends(Act::Told { xid, status }, from, message, None);
    }
    let how = Decision::Rollback;
    let status = statuses::decided(memory, xid, how);
    let message = Message::RollbackStatus { xid, status };
    let item = SessionRecord::Decided { xid, how };
    sends(
        Act::Durable(Durable::Decided { xid, how }),
        from,
        message,
        Some(item),
    )
}

/// Answers a question for a status.
pub(crate) fn tell(memory: &Memory, from: Place, xid: Xid, now: u64) -> Answer
    ensures { HearsFrom memory.now from (message.GlobalStatus xid) now result }
{
    let status = memory.status(xid);
    let message = Message::StatusAnswer { xid, status };
    sends(Act::Told { xid, status }, from, message, None)
}
