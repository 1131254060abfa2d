//! The turns of a coordinator.
ghost use Rattle.std.specs.Prelude.{◌≡◌, ℕ, true};
ghost use Rattle.frame_codec.specs.Limits.{IsFramable};
ghost use Rattle.seata_types.specs.declared.messages.Input.TheVariants as input;
ghost use Rattle.session_memory.specs.Lookups.{session_in};
ghost use Rattle.coordinator_rules.specs.Answers.{AnswersBy, IsSentBy, later};
ghost use Rattle.coordinator_rules.specs.Choices.{names_nodes, is_sendable, question_in, question_to};
ghost use Rattle.coordinator_rules.specs.Framing.{SendsFramable};
ghost use Rattle.coordinator_rules.specs.Looked as looked;
ghost use Rattle.coordinator_rules.specs.Naming.{IsNamed};
ghost use Rattle.coordinator_rules.specs.Steps.{asked_step, asks_by};

use crate::answers::Answer;
use crate::moments::Moments;
use crate::questions::Question;
use crate::telling::rests;
use crate::{choosing, kinds, statuses};
use durable_records::SessionRecord;
use seata_types::{Act, Decision, Durable, Message, Outgoing, Place, Step, Xid};
use session_log::{Branch, Session};
use session_memory::Memory;
use session_memory::uncounted::allows;

/// Takes a turn: a transaction past its timeout is rolled back, one that is due goes on, one that rests for `forget` ticks is
/// forgotten, or none where that is 0. Takes no memory.
pub fn turn(memory: &Memory, moments: &Moments, forget: u64, now: u64) -> Answer
    ensures { AnswersBy forget memory.now moments.now input.Turn now result }
{
    let sessions = memory.snapshot().sessions.as_slice();
    let late = choosing::least_late(sessions, now);
    let due = moments.turns.next_due(now);
    let old = choosing::least_old(sessions, &moments.rests, forget, now);
    taken(memory, late, due, old)
}

// The timeout of a late transaction comes before one that is due, and this before an old one.
fn taken(memory: &Memory, late: Option<Xid>, due: Option<Xid>, old: Option<Xid>) -> Answer
    ensures value { result ≡ looked.turn memory.now late due old }
    ensures sent { IsSentBy input.Turn result.step }
{
    if let Some(xid) = late {
        return timed_out(memory, xid);
    }
    if let Some(xid) = due {
        return go_on(memory, xid);
    }
    match old {
        Some(xid) => forgotten(memory, xid),
        None => rests(Act::Nothing, None),
    }
}

// The timeout of a transaction is decided.
fn timed_out(memory: &Memory, xid: Xid) -> Answer
    ensures { result ≡ looked.timed_out memory.now xid }
{
    let how = Decision::Timeout;
    let item = SessionRecord::Decided { xid, how };
    if allows(memory, &item) {
        return rests(Act::Durable(Durable::Decided { xid, how }), Some(item));
    }
    drop(item);
    rests(Act::Nothing, None)
}

// A transaction that rested long enough is forgotten.
fn forgotten(memory: &Memory, xid: Xid) -> Answer
    ensures { result ≡ looked.forgotten memory.now xid }
{
    let item = SessionRecord::Forgot { xid };
    if allows(memory, &item) {
        return rests(Act::Durable(Durable::Forgot { xid }), Some(item));
    }
    drop(item);
    rests(Act::Nothing, None)
}

// A due transaction is finished where all its branches are ended, and else the next branch is asked.
fn go_on(memory: &Memory, xid: Xid) -> Answer
    ensures value { result ≡ looked.due memory.now xid }
    ensures sent { IsSentBy input.Turn result.step }
{
    let item = SessionRecord::Finished { xid };
    if allows(memory, &item) {
        let status = statuses::finished(memory, xid);
        return rests(Act::Durable(Durable::Finished { xid, status }), Some(item));
    }
    drop(item);
    ask(memory, xid)
}

// The next branch of a transaction that goes on is asked.
fn ask(memory: &Memory, xid: Xid) -> Answer
    ensures value { result ≡ looked.asked xid (question_in (session_in memory.now xid.0)) }
    ensures sent { IsSentBy input.Turn result.step }
{
    match question(memory, xid) {
        Some(question) => asked(xid, question),
        None => rests(Act::Nothing, None),
    }
}

// What the next branch of a transaction is asked.
fn question(memory: &Memory, xid: Xid) -> Option<Question>
    ensures { result ≡ question_in (session_in memory.now xid.0) }
{
    let session = memory.find(xid)?;
    let branch = memory.next_open(xid, kinds::is_committing(session.status))?;
    Some(question_to(session, branch))
}

fn question_to(session: &Session, branch: &Branch) -> Question
    ensures { result ≡ question_to session.now branch.now }
{
    Question {
        commit: kinds::is_committing(session.status),
        branch: branch.id,
        kind: branch.place.kind,
        manager: session.manager,
        call: branch.place.call,
        resource: branch.place.resource,
    }
}

// A branch is asked, and its transaction is due again later.
fn asked(xid: Xid, question: Question) -> Answer
    ensures value { result ≡ later xid (asked_step xid question) }
    ensures framable { is_sendable question ≡ true → SendsFramable result.step }
    ensures named { (managers resources : ℕ) →
        names_nodes managers resources question ≡ true → IsNamed managers resources result.step }
{
    let act = Act::Asked {
        xid,
        branch: question.branch,
    };
    let to = Place::Res(question.resource);
    let message = asks(xid, question);
    Answer {
        step: Step {
            act,
            sent: Some(Outgoing { to, message }),
        },
        asked: None,
        again: Some(xid),
    }
}

// What it is asked.
fn asks(xid: Xid, question: Question) -> Message
    ensures value { result ≡ asks_by question.commit xid question }
    ensures framable { is_sendable question ≡ true → IsFramable result }
{
    let Question {
        commit,
        branch,
        kind,
        manager,
        call,
        resource: _,
    } = question;
    if commit {
        Message::BranchCommit {
            xid,
            branch,
            kind,
            manager,
            call,
        }
    } else {
        Message::BranchRollback {
            xid,
            branch,
            kind,
            manager,
            call,
        }
    }
}
