//! The text of a message on its line.
ghost use Rattle.std.specs.Prelude.{◌≡◌, ◌++◌, codes, OnOk, string_bytes};
ghost use Rattle.history_text.specs.Lines as lines;

use crate::entries::Names;
use crate::locks::{add_held, add_lock, add_opener};
use crate::notes::Note;
use crate::parts::{add_keys, add_place};
use crate::reasons::add_why;
use crate::words::{
    add_after_space, add_numbered, add_word_call, add_word_leg, add_word_status, add_word_xid,
};
use seata_types::{BranchKind, CallAnswer, Place, Registered, RowKey, Ticket, Xid};
use std::alloc::AllocError;

/// Appends a note; where memory ends a part of it may stand. `put_note` appends all of it or nothing.
pub fn add_note(out: &mut String, note: &Note, names: &Names) -> Result<(), AllocError>
    ensures { OnOk result (string_bytes out.new ≡ string_bytes out.old ++
        lines.note_text names.now note.now) }
{
    match note {
        Note::Begin { manager, timeout } => {
            out.push_str("begin ")?;
            add_place(out, Place::Man(*manager), names)?;
            write!(out, " {timeout}")
        }
        Note::Begun { xid } => add_word_xid(out, "begun ", *xid),
        Note::BranchCommit { xid, branch, kind } => {
            add_word_leg(out, "branch-commit ", *xid, *branch)?;
            out.push_str(kind_word(*kind))
        }
        Note::BranchCommitted {
            xid,
            branch,
            status,
            stmt,
        } => {
            add_word_leg(out, "branch-committed ", *xid, *branch)?;
            write!(out, " {} {stmt}", status.code())
        }
        Note::BranchRollback { xid, branch, kind } => {
            add_word_leg(out, "branch-rollback ", *xid, *branch)?;
            out.push_str(kind_word(*kind))
        }
        Note::BranchRollbacked {
            xid,
            branch,
            status,
            stmt,
        } => {
            add_word_leg(out, "branch-rollbacked ", *xid, *branch)?;
            write!(out, " {} {stmt}", status.code())
        }
        Note::GlobalCommit { xid } => add_word_xid(out, "commit ", *xid),
        Note::CommitStatus { xid, status } => {
            add_word_status(out, "commit-status ", *xid, *status)
        }
        Note::GlobalRollback { xid } => add_word_xid(out, "rollback ", *xid),
        Note::RollbackStatus { xid, status } => {
            add_word_status(out, "rollback-status ", *xid, *status)
        }
        Note::Register {
            xid,
            call,
            ticket,
            kind,
            hold,
            check,
        } => {
            add_word_call(out, "register ", *xid, *call)?;
            add_after_space(out, *ticket)?;
            out.push_str(kind_word(*kind))?;
            add_locks(out, hold.as_slice(), check.as_slice())
        }
        Note::RegisterAnswer {
            ticket,
            xid,
            answer,
        } => { add_registered(out, *ticket, *xid, answer, names) }
        Note::GlobalStatus { xid } => add_word_xid(out, "status-ask ", *xid),
        Note::StatusAnswer { xid, status } => add_word_status(out, "status ", *xid, *status),
        Note::LockQuery { ticket, check } => {
            out.push_str("lock-query")?;
            add_after_space(out, *ticket)?;
            out.push_str(" check ")?;
            add_keys(out, check.as_slice())
        }
        Note::LockAnswer { ticket, held } => add_lock_answer(out, *ticket, held, names),
        Note::Call { xid, call } => add_word_call(out, "call ", *xid, *call),
        Note::Answer { xid, call, answer } => {
            add_word_call(out, "answer ", *xid, *call)?;
            out.push_str(" ")?;
            add_reply(out, answer, names)
        }
    }
}

/// A space and the mode of a branch.
fn kind_word(kind: BranchKind) -> &'static str
    ensures { result.now ≡ codes " " ++ lines.kind_text kind }
{
    match kind {
        BranchKind::At => " AT",
        BranchKind::Tcc => " TCC",
    }
}

/// The coordinator's answer to a registration.
fn add_registered(
    out: &mut String,
    ticket: Ticket,
    xid: Xid,
    answer: &Registered,
    names: &Names,
) -> Result<(), AllocError>
    ensures { OnOk result (string_bytes out.new ≡ string_bytes out.old ++
        lines.registered_text names.now ticket xid answer.now) }
{
    match answer {
        Registered::Granted { branch } => {
            out.push_str("granted")?;
            add_after_space(out, ticket)?;
            add_word_leg(out, " ", xid, *branch)
        }
        Registered::Conflict {
            key,
            holder,
            rolling,
        } => {
            out.push_str("conflict")?;
            add_after_space(out, ticket)?;
            add_word_xid(out, " ", xid)?;
            add_held(out, key, *holder, *rolling, names)
        }
        Registered::Closed { status } => {
            out.push_str("closed")?;
            add_after_space(out, ticket)?;
            add_word_status(out, " ", xid, *status)
        }
        Registered::Late => {
            out.push_str("late")?;
            add_after_space(out, ticket)?;
            add_word_xid(out, " ", xid)
        }
    }
}

/// A resource's answer to a call.
fn add_reply(out: &mut String, answer: &CallAnswer, names: &Names) -> Result<(), AllocError>
    ensures { OnOk result (string_bytes out.new ≡ string_bytes out.old ++
        lines.reply_text names.now answer.now) }
{
    match answer {
        CallAnswer::Done { branch } => add_numbered(out, "done b", branch.0),
        CallAnswer::Busy { key, by } => {
            out.push_str("busy")?;
            add_opener(out, key, *by, names)
        }
        CallAnswer::Failed { why } => {
            out.push_str("failed ")?;
            add_why(out, why, names)
        }
    }
}

/// The coordinator's answer to a lock query: the first key that another transaction holds, if any.
fn add_lock_answer(
    out: &mut String,
    ticket: Ticket,
    held: &Option<(RowKey, Xid)>,
    names: &Names,
) -> Result<(), AllocError>
    ensures { OnOk result (string_bytes out.new ≡ string_bytes out.old ++
        lines.lock_answer_text names.now ticket held.now) }
{
    match held {
        None => {
            out.push_str("lock-free")?;
            add_after_space(out, ticket)
        }
        Some((key, holder)) => {
            out.push_str("lock-held")?;
            add_after_space(out, ticket)?;
            add_lock(out, key, *holder, names)
        }
    }
}

/// The rows that a registration holds and those that it checks.
fn add_locks(out: &mut String, hold: &[RowKey], check: &[RowKey]) -> Result<(), AllocError>
    ensures { OnOk result (string_bytes out.new ≡ string_bytes out.old ++
        lines.locks_text hold.now check.now) }
{
    out.push_str(" hold ")?;
    add_keys(out, hold)?;
    out.push_str(" check ")?;
    add_keys(out, check)
}
