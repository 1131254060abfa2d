//! Messages, as a line shows them.
ghost use Rattle.std.specs.Prelude.{◌≡◌, IfOk};
ghost use Rattle.entry_reader.specs.Notes as spec;

use crate::cutting::{further, last_piece, piece};
use crate::parts::{
    branch, branch_status, call, kind, number, number_16, rolling, status, ticket, word, xid,
};
use crate::places::{number_in, place};
use crate::reasons::why;
use crate::values::{key, locks};
use history_text::{Names, Note, Sent};
use seata_types::{Boxed, CallAnswer, List, NoMemory, Registered};
use std::alloc::Global;

#[tactic(auto, unfolding(crate::specs::Notes::reply_of))]
fn reply(alloc: Global, names: &Names, pieces: &[List<u8>]) -> Result<CallAnswer, NoMemory>
    ensures { IfOk result (λ found. found ≡ spec.reply_of names.now pieces.now) }
{
    match word(piece(pieces, 0)) {
        "done" => Ok(CallAnswer::Done {
            branch: branch(piece(pieces, 1)),
        }),
        "busy" => Ok(CallAnswer::Busy {
            key: key(alloc, names, piece(pieces, 1))?,
            by: ticket(piece(pieces, 2)),
        }),
        _ => Ok(CallAnswer::Failed {
            why: why(alloc, names, further(pieces, 1))?,
        }),
    }
}

/// A registration. Lock texts are of the sender's resource.
#[tactic(auto, unfolding(crate::specs::Notes::register_of))]
fn register(alloc: Global, resource: u16, pieces: &[List<u8>]) -> Result<Note, NoMemory>
    ensures { IfOk result (λ found. found ≡ spec.register_of resource pieces.now) }
{
    Ok(Note::Register {
        xid: xid(piece(pieces, 1)),
        call: call(piece(pieces, 2)),
        ticket: ticket(piece(pieces, 3)),
        kind: kind(piece(pieces, 4)),
        hold: locks(alloc, resource, piece(pieces, 6))?,
        check: locks(alloc, resource, piece(pieces, 8))?,
    })
}

/// A message: first those of managers and resources.
#[tactic(auto, unfolding(crate::specs::Notes::note_of, crate::specs::Notes::asking_notes))]
pub fn note(
    alloc: Global,
    names: &Names,
    resource: u16,
    pieces: &[List<u8>],
) -> Result<Note, NoMemory>
    ensures { IfOk result (λ found. found ≡ spec.note_of names.now resource pieces.now) }
{
    let second = piece(pieces, 1);
    let (xid, branch) = (xid(second), branch(piece(pieces, 2)));
    match word(piece(pieces, 0)) {
        "begin" => Ok(Note::Begin {
            manager: number_in(names.managers.as_slice(), second),
            timeout: number(piece(pieces, 2)),
        }),
        "commit" => Ok(Note::GlobalCommit { xid }),
        "rollback" => Ok(Note::GlobalRollback { xid }),
        "status-ask" => Ok(Note::GlobalStatus { xid }),
        "call" => Ok(Note::Call {
            xid,
            call: call(piece(pieces, 2)),
        }),
        "branch-committed" => Ok(Note::BranchCommitted {
            xid,
            branch,
            status: branch_status(piece(pieces, 3)),
            stmt: number_16(piece(pieces, 4)),
        }),
        "branch-rollbacked" => Ok(Note::BranchRollbacked {
            xid,
            branch,
            status: branch_status(piece(pieces, 3)),
            stmt: number_16(piece(pieces, 4)),
        }),
        "register" => register(alloc, resource, pieces),
        "lock-query" => Ok(Note::LockQuery {
            ticket: ticket(second),
            check: locks(alloc, resource, piece(pieces, 3))?,
        }),
        _ => answering_note(alloc, names, pieces),
    }
}

/// The answer to a registration.
#[tactic(auto, unfolding(crate::specs::Notes::conflict_of))]
fn conflict(alloc: Global, names: &Names, pieces: &[List<u8>]) -> Result<Registered, NoMemory>
    ensures { IfOk result (λ found. found ≡ spec.conflict_of names.now pieces.now) }
{
    Ok(Registered::Conflict {
        key: key(alloc, names, piece(pieces, 3))?,
        holder: xid(piece(pieces, 4)),
        rolling: rolling(piece(pieces, 5)),
    })
}

/// A message that is none of those before: the coordinator's, or the answer to a call.
#[tactic(auto, unfolding(crate::specs::Notes::answering_note, crate::specs::Notes::answering_notes))]
fn answering_note(alloc: Global, names: &Names, pieces: &[List<u8>]) -> Result<Note, NoMemory>
    ensures { IfOk result (λ found. found ≡ spec.answering_note names.now pieces.now) }
{
    let (second, third, fourth) = (piece(pieces, 1), piece(pieces, 2), piece(pieces, 3));
    let (xid_second, ticket, xid_third) = (xid(second), ticket(second), xid(third));
    match word(piece(pieces, 0)) {
        "begun" => Ok(Note::Begun { xid: xid_second }),
        "branch-commit" => Ok(Note::BranchCommit {
            xid: xid_second,
            branch: branch(third),
            kind: kind(fourth),
        }),
        "branch-rollback" => Ok(Note::BranchRollback {
            xid: xid_second,
            branch: branch(third),
            kind: kind(fourth),
        }),
        "commit-status" => Ok(Note::CommitStatus {
            xid: xid_second,
            status: status(third),
        }),
        "rollback-status" => Ok(Note::RollbackStatus {
            xid: xid_second,
            status: status(third),
        }),
        "status" => Ok(Note::StatusAnswer {
            xid: xid_second,
            status: status(third),
        }),
        "granted" => Ok(Note::RegisterAnswer {
            ticket,
            xid: xid_third,
            answer: Registered::Granted {
                branch: branch(fourth),
            },
        }),
        "conflict" => Ok(Note::RegisterAnswer {
            ticket,
            xid: xid_third,
            answer: conflict(alloc, names, pieces)?,
        }),
        "closed" => Ok(Note::RegisterAnswer {
            ticket,
            xid: xid_third,
            answer: Registered::Closed {
                status: status(fourth),
            },
        }),
        "late" => Ok(Note::RegisterAnswer {
            ticket,
            xid: xid_third,
            answer: Registered::Late,
        }),
        "lock-free" => Ok(Note::LockAnswer { ticket, held: None }),
        "lock-held" => Ok(Note::LockAnswer {
            ticket,
            held: Some((key(alloc, names, third)?, xid(fourth))),
        }),
        _ => Ok(Note::Answer {
            xid: xid_second,
            call: call(third),
            answer: reply(alloc, names, further(pieces, 3))?,
        }),
    }
}

/// What was sent from a resource, or from elsewhere, and to whom.
#[tactic(auto, unfolding(crate::specs::Notes::sent_of))]
pub fn sent(
    alloc: Global,
    names: &Names,
    resource: u16,
    pieces: &[List<u8>],
) -> Result<Option<Sent>, NoMemory>
    ensures { IfOk result (λ found. found ≡ spec.sent_of names.now resource pieces.now) }
{
    match word(piece(pieces, 0)) {
        "-" => Ok(None),
        _ => Ok(Some(Sent {
            to: place(names, last_piece(pieces)),
            note: Boxed::new(alloc, note(alloc, names, resource, pieces)?)?,
        })),
    }
}
