//! A message as a line shows it: without the fields that the rest of the history tells.
ghost use Rattle.std.specs.Prelude.{◌≡◌};
ghost use Rattle.history_text.specs.Notes.{note_of_message};

use seata_types::{
    BranchId, BranchKind, BranchStatus, CallAnswer, GlobalStatus, List, Message, Registered,
    RowKey, Ticket, Xid,
};

/// A message without what its printed line leaves out.
#[derive(Drop, PartialEq, Eq)]
pub enum Note {
    Begin {
        manager: u16,
        timeout: u64,
    },
    Begun {
        xid: Xid,
    },
    BranchCommit {
        xid: Xid,
        branch: BranchId,
        kind: BranchKind,
    },
    BranchCommitted {
        xid: Xid,
        branch: BranchId,
        status: BranchStatus,
        stmt: u16,
    },
    BranchRollback {
        xid: Xid,
        branch: BranchId,
        kind: BranchKind,
    },
    BranchRollbacked {
        xid: Xid,
        branch: BranchId,
        status: BranchStatus,
        stmt: u16,
    },
    GlobalCommit {
        xid: Xid,
    },
    CommitStatus {
        xid: Xid,
        status: GlobalStatus,
    },
    GlobalRollback {
        xid: Xid,
    },
    RollbackStatus {
        xid: Xid,
        status: GlobalStatus,
    },
    Register {
        xid: Xid,
        call: u16,
        ticket: Ticket,
        kind: BranchKind,
        hold: List<RowKey>,
        check: List<RowKey>,
    },
    RegisterAnswer {
        ticket: Ticket,
        xid: Xid,
        answer: Registered,
    },
    GlobalStatus {
        xid: Xid,
    },
    StatusAnswer {
        xid: Xid,
        status: GlobalStatus,
    },
    LockQuery {
        ticket: Ticket,
        check: List<RowKey>,
    },
    LockAnswer {
        ticket: Ticket,
        held: Option<(RowKey, Xid)>,
    },
    Call {
        xid: Xid,
        call: u16,
    },
    Answer {
        xid: Xid,
        call: u16,
        answer: CallAnswer,
    },
}

/// The note of a message. It moves the message's parts and takes no memory.
pub fn note_of(message: Message) -> Note
    ensures { result ≡ note_of_message message }
{
    match message {
        Message::Begin { manager, timeout } => Note::Begin { manager, timeout },
        Message::Begun { xid } => Note::Begun { xid },
        Message::BranchCommit {
            xid,
            branch,
            kind,
            manager: _,
            call: _,
        } => { Note::BranchCommit { xid, branch, kind } }
        Message::BranchCommitted {
            xid,
            branch,
            status,
            stmt,
        } => {
            Note::BranchCommitted {
                xid,
                branch,
                status,
                stmt,
            }
        }
        Message::BranchRollback {
            xid,
            branch,
            kind,
            manager: _,
            call: _,
        } => { Note::BranchRollback { xid, branch, kind } }
        Message::BranchRollbacked {
            xid,
            branch,
            status,
            stmt,
        } => {
            Note::BranchRollbacked {
                xid,
                branch,
                status,
                stmt,
            }
        }
        Message::GlobalCommit { xid } => Note::GlobalCommit { xid },
        Message::CommitStatus { xid, status } => Note::CommitStatus { xid, status },
        Message::GlobalRollback { xid } => Note::GlobalRollback { xid },
        Message::RollbackStatus { xid, status } => Note::RollbackStatus { xid, status },
        Message::Register {
            xid,
            resource: _,
            call,
            ticket,
            kind,
            hold,
            check,
        } => {
            Note::Register {
                xid,
                call,
                ticket,
                kind,
                hold,
                check,
            }
        }
        Message::RegisterAnswer {
            ticket,
            xid,
            answer,
        } => {
            Note::RegisterAnswer {
                ticket,
                xid,
                answer,
            }
        }
        Message::GlobalStatus { xid } => Note::GlobalStatus { xid },
        Message::StatusAnswer { xid, status } => Note::StatusAnswer { xid, status },
        Message::LockQuery {
            resource: _,
            ticket,
            check,
        } => { Note::LockQuery { ticket, check } }
        Message::LockAnswer { ticket, held } => Note::LockAnswer { ticket, held },
        Message::Call {
            xid,
            manager: _,
            resource: _,
            call,
            work,
        } => {
            drop(work);
            Note::Call { xid, call }
        }
        Message::Answer { xid, call, answer } => Note::Answer { xid, call, answer },
    }
}
