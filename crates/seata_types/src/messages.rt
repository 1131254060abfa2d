//! The messages between managers, coordinator and resources, and what a step takes and gives.
use crate::acts::Act;
use crate::boxes::Boxed;
use crate::copies::{Duplicate, NoMemory};
use crate::errors::Why;
use crate::ids::{BranchId, Place, Ticket, Xid};
use crate::lists::List;
use crate::rows::RowKey;
use crate::statements::Work;
use crate::statuses::{BranchKind, BranchStatus, GlobalStatus};
use std::alloc::Global;

/// The coordinator's answer to a registration.
#[derive(Drop, PartialEq, Eq)]
pub enum Registered {
    Granted {
        branch: BranchId,
    },
    Conflict {
        key: RowKey,
        holder: Xid,
        rolling: bool,
    },
    Closed {
        status: GlobalStatus,
    },
    Late,
}

impl Duplicate for Registered {
    fn copy(&self, alloc: Global) -> Result<Self, NoMemory> {
        match self {
            Registered::Granted { branch } => Ok(Registered::Granted { branch: *branch }),
            Registered::Conflict {
                key,
                holder,
                rolling,
            } => Ok(Registered::Conflict {
                key: key.copy(alloc)?,
                holder: *holder,
                rolling: *rolling,
            }),
            Registered::Closed { status } => Ok(Registered::Closed { status: *status }),
            Registered::Late => Ok(Registered::Late),
        }
    }
}

/// A resource's answer to a call.
#[derive(Drop, PartialEq, Eq)]
pub enum CallAnswer {
    Done { branch: BranchId },
    Busy { key: RowKey, by: Ticket },
    Failed { why: Why },
}

impl Duplicate for CallAnswer {
    fn copy(&self, alloc: Global) -> Result<Self, NoMemory> {
        match self {
            CallAnswer::Done { branch } => Ok(CallAnswer::Done { branch: *branch }),
            CallAnswer::Busy { key, by } => Ok(CallAnswer::Busy {
                key: key.copy(alloc)?,
                by: *by,
            }),
            CallAnswer::Failed { why } => Ok(CallAnswer::Failed {
                why: why.copy(alloc)?,
            }),
        }
    }
}

/// A message. `Begin` to `StatusAnswer` are named after Seata's protocol, which has a lock query
/// too; calls and their answers are this project's own. Timeouts are in ticks; managers, resources,
/// calls and statements are counted from 1. An answer to a lock query names the first key that
/// another transaction holds, if any, and the transaction.
#[derive(Drop)]
pub enum Message {
    Begin {
        manager: u16,
        timeout: u64,
    },
    Begun {
        xid: Xid,
    },
    BranchCommit {
        xid: Xid,
        branch: BranchId,
        kind: BranchKind,
        manager: u16,
        call: u16,
    },
    BranchCommitted {
        xid: Xid,
        branch: BranchId,
        status: BranchStatus,
        stmt: u16,
    },
    BranchRollback {
        xid: Xid,
        branch: BranchId,
        kind: BranchKind,
        manager: u16,
        call: u16,
    },
    BranchRollbacked {
        xid: Xid,
        branch: BranchId,
        status: BranchStatus,
        stmt: u16,
    },
    GlobalCommit {
        xid: Xid,
    },
    CommitStatus {
        xid: Xid,
        status: GlobalStatus,
    },
    GlobalRollback {
        xid: Xid,
    },
    RollbackStatus {
        xid: Xid,
        status: GlobalStatus,
    },
    Register {
        xid: Xid,
        resource: u16,
        call: u16,
        ticket: Ticket,
        kind: BranchKind,
        hold: List<RowKey>,
        check: List<RowKey>,
    },
    RegisterAnswer {
        ticket: Ticket,
        xid: Xid,
        answer: Registered,
    },
    GlobalStatus {
        xid: Xid,
    },
    StatusAnswer {
        xid: Xid,
        status: GlobalStatus,
    },
    LockQuery {
        resource: u16,
        ticket: Ticket,
        check: List<RowKey>,
    },
    LockAnswer {
        ticket: Ticket,
        held: Option<(RowKey, Xid)>,
    },
    Call {
        xid: Xid,
        manager: u16,
        resource: u16,
        call: u16,
        work: Work,
    },
    Answer {
        xid: Xid,
        call: u16,
        answer: CallAnswer,
    },
}

impl Duplicate for Message {
    fn copy(&self, alloc: Global) -> Result<Self, NoMemory> {
        match self {
            Message::Begin { manager, timeout } => Ok(Message::Begin {
                manager: *manager,
                timeout: *timeout,
            }),
            Message::Begun { xid } => Ok(Message::Begun { xid: *xid }),
            Message::BranchCommit {
                xid,
                branch,
                kind,
                manager,
                call,
            } => {
                Ok(Message::BranchCommit {
                    xid: *xid,
                    branch: *branch,
                    kind: *kind,
                    manager: *manager,
                    call: *call,
                })
            }
            Message::BranchCommitted {
                xid,
                branch,
                status,
                stmt,
            } => {
                Ok(Message::BranchCommitted {
                    xid: *xid,
                    branch: *branch,
                    status: *status,
                    stmt: *stmt,
                })
            }
            Message::BranchRollback {
                xid,
                branch,
                kind,
                manager,
                call,
            } => {
                Ok(Message::BranchRollback {
                    xid: *xid,
                    branch: *branch,
                    kind: *kind,
                    manager: *manager,
                    call: *call,
                })
            }
            Message::BranchRollbacked {
                xid,
                branch,
                status,
                stmt,
            } => {
                Ok(Message::BranchRollbacked {
                    xid: *xid,
                    branch: *branch,
                    status: *status,
                    stmt: *stmt,
                })
            }
            Message::GlobalCommit { xid } => Ok(Message::GlobalCommit { xid: *xid }),
            Message::CommitStatus { xid, status } => Ok(Message::CommitStatus {
                xid: *xid,
                status: *status,
            }),
            Message::GlobalRollback { xid } => Ok(Message::GlobalRollback { xid: *xid }),
            Message::RollbackStatus { xid, status } => Ok(Message::RollbackStatus {
                xid: *xid,
                status: *status,
            }),
            Message::Register {
                xid,
                resource,
                call,
                ticket,
                kind,
                hold,
                check,
            } => {
                Ok(Message::Register {
                    xid: *xid,
                    resource: *resource,
                    call: *call,
                    ticket: *ticket,
                    kind: *kind,
                    hold: hold.copy(alloc)?,
                    check: check.copy(alloc)?,
                })
            }
            Message::RegisterAnswer {
                ticket,
                xid,
                answer,
            } => Ok(Message::RegisterAnswer {
                ticket: *ticket,
                xid: *xid,
                answer: answer.copy(alloc)?,
            }),
            Message::GlobalStatus { xid } => Ok(Message::GlobalStatus { xid: *xid }),
            Message::StatusAnswer { xid, status } => Ok(Message::StatusAnswer {
                xid: *xid,
                status: *status,
            }),
            Message::LockQuery {
                resource,
                ticket,
                check,
            } => Ok(Message::LockQuery {
                resource: *resource,
                ticket: *ticket,
                check: check.copy(alloc)?,
            }),
            Message::LockAnswer { ticket, held } => Ok(Message::LockAnswer {
                ticket: *ticket,
                held: held.copy(alloc)?,
            }),
            Message::Call {
                xid,
                manager,
                resource,
                call,
                work,
            } => Ok(Message::Call {
                xid: *xid,
                manager: *manager,
                resource: *resource,
                call: *call,
                work: work.copy(alloc)?,
            }),
            Message::Answer { xid, call, answer } => Ok(Message::Answer {
                xid: *xid,
                call: *call,
                answer: answer.copy(alloc)?,
            }),
        }
    }
}

/// What a node is given: a turn, a message with the place that sent it, or the number of a local
/// transaction of the scenario, counted from 1, to run guarded by the global lock or outside it.
#[derive(Drop)]
pub enum Input {
    Turn,
    Message {
        from: Place,
        message: Boxed<Message>,
    },
    Local {
        number: u16,
    },
    Outside {
        number: u16,
    },
}

impl Duplicate for Input {
    fn copy(&self, alloc: Global) -> Result<Self, NoMemory> {
        match self {
            Input::Turn => Ok(Input::Turn),
            Input::Message { from, message } => Ok(Input::Message {
                from: *from,
                message: message.copy(alloc)?,
            }),
            Input::Local { number } => Ok(Input::Local { number: *number }),
            Input::Outside { number } => Ok(Input::Outside { number: *number }),
        }
    }
}

/// A message on its way out.
#[derive(Drop)]
pub struct Outgoing {
    pub to: Place,
    pub message: Message,
}

impl Duplicate for Outgoing {
    fn copy(&self, alloc: Global) -> Result<Self, NoMemory> {
        Ok(Outgoing {
            to: self.to,
            message: self.message.copy(alloc)?,
        })
    }
}

/// What a step did, and the one message that it sent, if any.
#[derive(Drop)]
pub struct Step {
    pub act: Act,
    pub sent: Option<Outgoing>,
}

impl Duplicate for Step {
    fn copy(&self, alloc: Global) -> Result<Self, NoMemory> {
        let act = self.act.copy(alloc)?;
        match self.sent.copy(alloc) {
            Ok(sent) => Ok(Step { act, sent }),
            Err(NoMemory) => {
                drop(act);
                Err(NoMemory)
            }
        }
    }
}
