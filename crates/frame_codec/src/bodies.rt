//! The fields of each message, taken from a body.
ghost use Rattle.std.specs.Prelude.{◌≡◌};
ghost use Rattle.byte_fields.specs.Taking.{Reads};
ghost use Rattle.frame_codec.specs.Messages.{kind_of, is_known, fields_at, begin_at, begun_at, branch_commit_at, branch_committed_at, branch_rollback_at, branch_rollbacked_at, global_commit_at, commit_status_at, global_rollback_at, rollback_status_at, register_at, register_answer_at, global_status_at, status_answer_at, lock_query_at, lock_answer_at, call_at, call_answer_at};

use crate::codes::*;
use crate::{parts, works};
use byte_fields::{FieldError, Fields};
use seata_types::Message;
use std::alloc::Global;

#[tactic(auto, unfolding(crate::specs::Messages::begin_at))]
fn begin(fields: &mut Fields) -> Result<Message, FieldError>
    ensures { Reads begin_at fields.old fields.new result }
{
    let manager = fields.take_u16()?;
    let timeout = fields.take_u64()?;
    Ok(Message::Begin { manager, timeout })
}

#[tactic(auto, unfolding(crate::specs::Messages::begun_at))]
fn begun(fields: &mut Fields) -> Result<Message, FieldError>
    ensures { Reads begun_at fields.old fields.new result }
{
    let xid = fields.take_xid()?;
    Ok(Message::Begun { xid })
}

#[tactic(auto, unfolding(crate::specs::Messages::branch_commit_at))]
fn branch_commit(fields: &mut Fields) -> Result<Message, FieldError>
    ensures { Reads branch_commit_at fields.old fields.new result }
{
    let xid = fields.take_xid()?;
    let branch = fields.take_branch()?;
    let kind = fields.take_kind()?;
    let manager = fields.take_u16()?;
    let call = fields.take_u16()?;
    Ok(Message::BranchCommit {
        xid,
        branch,
        kind,
        manager,
        call,
    })
}

#[tactic(auto, unfolding(crate::specs::Messages::branch_committed_at))]
fn branch_committed(fields: &mut Fields) -> Result<Message, FieldError>
    ensures { Reads branch_committed_at fields.old fields.new result }
{
    let xid = fields.take_xid()?;
    let branch = fields.take_branch()?;
    let status = fields.take_branch_status()?;
    let stmt = fields.take_u16()?;
    Ok(Message::BranchCommitted {
        xid,
        branch,
        status,
        stmt,
    })
}

#[tactic(auto, unfolding(crate::specs::Messages::branch_rollback_at))]
fn branch_rollback(fields: &mut Fields) -> Result<Message, FieldError>
    ensures { Reads branch_rollback_at fields.old fields.new result }
{
    let xid = fields.take_xid()?;
    let branch = fields.take_branch()?;
    let kind = fields.take_kind()?;
    let manager = fields.take_u16()?;
    let call = fields.take_u16()?;
    Ok(Message::BranchRollback {
        xid,
        branch,
        kind,
        manager,
        call,
    })
}

#[tactic(auto, unfolding(crate::specs::Messages::branch_rollbacked_at))]
fn branch_rollbacked(fields: &mut Fields) -> Result<Message, FieldError>
    ensures { Reads branch_rollbacked_at fields.old fields.new result }
{
    let xid = fields.take_xid()?;
    let branch = fields.take_branch()?;
    let status = fields.take_branch_status()?;
    let stmt = fields.take_u16()?;
    Ok(Message::BranchRollbacked {
        xid,
        branch,
        status,
        stmt,
    })
}

#[tactic(auto, unfolding(crate::specs::Messages::global_commit_at))]
fn global_commit(fields: &mut Fields) -> Result<Message, FieldError>
    ensures { Reads global_commit_at fields.old fields.new result }
{
    let xid = fields.take_xid()?;
    Ok(Message::GlobalCommit { xid })
}

#[tactic(auto, unfolding(crate::specs::Messages::commit_status_at))]
fn commit_status(fields: &mut Fields) -> Result<Message, FieldError>
    ensures { Reads commit_status_at fields.old fields.new result }
{
    let xid = fields.take_xid()?;
    let status = fields.take_status()?;
    Ok(Message::CommitStatus { xid, status })
}

#[tactic(auto, unfolding(crate::specs::Messages::global_rollback_at))]
fn global_rollback(fields: &mut Fields) -> Result<Message, FieldError>
    ensures { Reads global_rollback_at fields.old fields.new result }
{
    let xid = fields.take_xid()?;
    Ok(Message::GlobalRollback { xid })
}

#[tactic(auto, unfolding(crate::specs::Messages::rollback_status_at))]
fn rollback_status(fields: &mut Fields) -> Result<Message, FieldError>
    ensures { Reads rollback_status_at fields.old fields.new result }
{
    let xid = fields.take_xid()?;
    let status = fields.take_status()?;
    Ok(Message::RollbackStatus { xid, status })
}

#[tactic(auto, unfolding(crate::specs::Messages::register_at))]
fn register(alloc: Global, fields: &mut Fields) -> Result<Message, FieldError>
    ensures { Reads register_at fields.old fields.new result }
{
    let xid = fields.take_xid()?;
    let resource = fields.take_u16()?;
    let call = fields.take_u16()?;
    let ticket = fields.take_ticket()?;
    let kind = fields.take_kind()?;
    let hold = fields.take_keys(alloc)?;
    let check = fields.take_keys(alloc)?;
    Ok(Message::Register {
        xid,
        resource,
        call,
        ticket,
        kind,
        hold,
        check,
    })
}

#[tactic(auto, unfolding(crate::specs::Messages::register_answer_at))]
fn register_answer(alloc: Global, fields: &mut Fields) -> Result<Message, FieldError>
    ensures { Reads register_answer_at fields.old fields.new result }
{
    let ticket = fields.take_ticket()?;
    let xid = fields.take_xid()?;
    let answer = parts::registered(alloc, fields)?;
    Ok(Message::RegisterAnswer {
        ticket,
        xid,
        answer,
    })
}

#[tactic(auto, unfolding(crate::specs::Messages::global_status_at))]
fn global_status(fields: &mut Fields) -> Result<Message, FieldError>
    ensures { Reads global_status_at fields.old fields.new result }
{
    let xid = fields.take_xid()?;
    Ok(Message::GlobalStatus { xid })
}

#[tactic(auto, unfolding(crate::specs::Messages::status_answer_at))]
fn status_answer(fields: &mut Fields) -> Result<Message, FieldError>
    ensures { Reads status_answer_at fields.old fields.new result }
{
    let xid = fields.take_xid()?;
    let status = fields.take_status()?;
    Ok(Message::StatusAnswer { xid, status })
}

#[tactic(auto, unfolding(crate::specs::Messages::lock_query_at))]
fn lock_query(alloc: Global, fields: &mut Fields) -> Result<Message, FieldError>
    ensures { Reads lock_query_at fields.old fields.new result }
{
    let resource = fields.take_u16()?;
    let ticket = fields.take_ticket()?;
    let check = fields.take_keys(alloc)?;
    Ok(Message::LockQuery {
        resource,
        ticket,
        check,
    })
}

#[tactic(auto, unfolding(crate::specs::Messages::lock_answer_at))]
fn lock_answer(alloc: Global, fields: &mut Fields) -> Result<Message, FieldError>
    ensures { Reads lock_answer_at fields.old fields.new result }
{
    let ticket = fields.take_ticket()?;
    let held = parts::held(alloc, fields)?;
    Ok(Message::LockAnswer { ticket, held })
}

#[tactic(auto, unfolding(crate::specs::Messages::call_at))]
fn call(alloc: Global, fields: &mut Fields) -> Result<Message, FieldError>
    ensures { Reads call_at fields.old fields.new result }
{
    let xid = fields.take_xid()?;
    let manager = fields.take_u16()?;
    let resource = fields.take_u16()?;
    let call = fields.take_u16()?;
    let work = works::work(alloc, fields)?;
    Ok(Message::Call {
        xid,
        manager,
        resource,
        call,
        work,
    })
}

#[tactic(auto, unfolding(crate::specs::Messages::call_answer_at))]
fn call_answer(alloc: Global, fields: &mut Fields) -> Result<Message, FieldError>
    ensures { Reads call_answer_at fields.old fields.new result }
{
    let xid = fields.take_xid()?;
    let call = fields.take_u16()?;
    let answer = parts::answer(alloc, fields)?;
    Ok(Message::Answer { xid, call, answer })
}

/// Whether the fields behind this type code can be read.
#[tactic(auto, unfolding(crate::specs::Messages::is_known))]
pub(crate) fn is_known(code: u16) -> bool
    ensures { result ≡ is_known code }
{
    matches!(
        code,
        BEGIN..=REGISTER_ANSWER
            | GLOBAL_STATUS
            | STATUS_ANSWER
            | LOCK_QUERY
            | LOCK_ANSWER
            | CALL
            | ANSWER
    )
}

/// The kind of a message with this type code: 0 asks, 1 answers.
pub(crate) fn kind_of(code: u16) -> u8
    ensures { result ≡ kind_of code }
{
    if code % 2 == 0 { 1 } else { 0 }
}

/// The message of this type code.
#[tactic(auto, unfolding(crate::specs::Messages::fields_at))]
pub(crate) fn message(alloc: Global, code: u16, fields: &mut Fields) -> Result<Message, FieldError>
    ensures { Reads (fields_at code) fields.old fields.new result }
{
    match code {
        BEGIN => begin(fields),
        BEGUN => begun(fields),
        BRANCH_COMMIT => branch_commit(fields),
        BRANCH_COMMITTED => branch_committed(fields),
        BRANCH_ROLLBACK => branch_rollback(fields),
        BRANCH_ROLLBACKED => branch_rollbacked(fields),
        GLOBAL_COMMIT => global_commit(fields),
        COMMIT_STATUS => commit_status(fields),
        GLOBAL_ROLLBACK => global_rollback(fields),
        ROLLBACK_STATUS => rollback_status(fields),
        REGISTER => register(alloc, fields),
        REGISTER_ANSWER => register_answer(alloc, fields),
        GLOBAL_STATUS => global_status(fields),
        STATUS_ANSWER => status_answer(fields),
        LOCK_QUERY => lock_query(alloc, fields),
        LOCK_ANSWER => lock_answer(alloc, fields),
        CALL => call(alloc, fields),
        ANSWER => call_answer(alloc, fields),
        _ => Err(FieldError::BadTag { at: fields.at() }),
    }
}
