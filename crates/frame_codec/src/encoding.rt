//! The frame of a message.
ghost use Rattle.std.specs.Prelude.{◌≡◌, ◌<◌, ◌∷◌, ◌++◌, [], OnOk, IfOk};
ghost use Rattle.std.specs.Int.{w16, to_be_bytes};
ghost use Rattle.seata_types.specs.Statuses.{code_of, branch_code_of};
ghost use Rattle.byte_fields.specs.Layout.{FitsKeys, keys_bytes, ticket_bytes};
ghost use Rattle.byte_fields.specs.Parts.{kind_code, xid_bytes, branch_bytes, joined};
ghost use Rattle.frame_codec.specs.Parts.{FitsRegistered, FitsHeld, FitsAnswer, registered_bytes, held_bytes, answer_bytes};
ghost use Rattle.frame_codec.specs.Works.{FitsWork, work_bytes};
ghost use Rattle.frame_codec.specs.Messages.{FitsMessage, IsOfSecondPhase, IsOfLocks, type_code, fields_bytes};
ghost use Rattle.frame_codec.specs.Heads.{head_bytes};
ghost use Rattle.frame_codec.specs.Frames.{HasFrame, body_bytes, frame_bytes};

use crate::codes::*;
use crate::head::{CODEC, HEAD_BYTES, Head, MAGIC, VERSION};
use crate::{bodies, putting, works};
use byte_fields::{put_keys, put_kind, put_ticket, put_u8, put_u16, put_u32, put_u64};
use seata_types::{
    BranchId, BranchKind, BranchStatus, CallAnswer, GlobalStatus, Message, NoMemory, Registered,
    RowKey, Ticket, Work, Xid,
};
use std::alloc::Global;

fn type_code(message: &Message) -> u16
    ensures { result ≡ type_code message.now }
{
    match message {
        Message::Begin { .. } => BEGIN,
        Message::Begun { .. } => BEGUN,
        Message::BranchCommit { .. } => BRANCH_COMMIT,
        Message::BranchCommitted { .. } => BRANCH_COMMITTED,
        Message::BranchRollback { .. } => BRANCH_ROLLBACK,
        Message::BranchRollbacked { .. } => BRANCH_ROLLBACKED,
        Message::GlobalCommit { .. } => GLOBAL_COMMIT,
        Message::CommitStatus { .. } => COMMIT_STATUS,
        Message::GlobalRollback { .. } => GLOBAL_ROLLBACK,
        Message::RollbackStatus { .. } => ROLLBACK_STATUS,
        Message::Register { .. } => REGISTER,
        Message::RegisterAnswer { .. } => REGISTER_ANSWER,
        Message::GlobalStatus { .. } => GLOBAL_STATUS,
        Message::StatusAnswer { .. } => STATUS_ANSWER,
        Message::LockQuery { .. } => LOCK_QUERY,
        Message::LockAnswer { .. } => LOCK_ANSWER,
        Message::Call { .. } => CALL,
        Message::Answer { .. } => ANSWER,
    }
}

fn put_branch(out: &mut Vec<u8>, xid: Xid, branch: BranchId) -> Result<(), NoMemory>
    ensures { OnOk result (out.new.items ≡ out.old.items ++ (xid_bytes xid ++ branch_bytes branch)) }
{
    put_u64(out, xid.0)?;
    put_u64(out, branch.0)
}

// The fields of the messages that tell a resource how a branch ends.
fn put_ending(
    out: &mut Vec<u8>,
    xid: Xid,
    branch: BranchId,
    kind: BranchKind,
    manager: u16,
    call: u16,
) -> Result<(), NoMemory>
    ensures { OnOk result (out.new.items ≡ out.old.items ++ joined (
        xid_bytes xid ∷ branch_bytes branch ∷ (kind_code kind ∷ []) ∷ to_be_bytes w16 manager ∷ to_be_bytes w16 call ∷ [])) }
{
    put_branch(out, xid, branch)?;
    put_kind(out, kind)?;
    put_u16(out, manager)?;
    put_u16(out, call)
}

// The fields of a resource's answers to those.
fn put_ended(
    out: &mut Vec<u8>,
    xid: Xid,
    branch: BranchId,
    status: BranchStatus,
    stmt: u16,
) -> Result<(), NoMemory>
    ensures { OnOk result (out.new.items ≡ out.old.items ++ joined (
        xid_bytes xid ∷ branch_bytes branch ∷ (branch_code_of status ∷ []) ∷ to_be_bytes w16 stmt ∷ [])) }
{
    put_branch(out, xid, branch)?;
    put_u8(out, status.code())?;
    put_u16(out, stmt)
}

fn put_status(out: &mut Vec<u8>, xid: Xid, status: GlobalStatus) -> Result<(), NoMemory>
    ensures { OnOk result (out.new.items ≡ out.old.items ++ joined (
        xid_bytes xid ∷ (code_of status ∷ []) ∷ [])) }
{
    put_u64(out, xid.0)?;
    put_u8(out, status.code())
}

fn put_place(
    out: &mut Vec<u8>,
    xid: Xid,
    resource: u16,
    call: u16,
    ticket: Ticket,
    kind: BranchKind,
) -> Result<(), NoMemory>
    ensures { OnOk result (out.new.items ≡ out.old.items ++ joined (
        xid_bytes xid ∷ to_be_bytes w16 resource ∷ to_be_bytes w16 call ∷ ticket_bytes ticket ∷ (kind_code kind ∷ []) ∷ [])) }
{
    put_u64(out, xid.0)?;
    put_u16(out, resource)?;
    put_u16(out, call)?;
    put_ticket(out, ticket)?;
    put_kind(out, kind)?;
    Ok(())
}

fn put_registered(
    out: &mut Vec<u8>,
    ticket: Ticket,
    xid: Xid,
    answer: &Registered,
) -> Result<(), NoMemory>
    requires { FitsRegistered answer.now }
    ensures { OnOk result (out.new.items ≡ out.old.items ++ joined (
        ticket_bytes ticket ∷ xid_bytes xid ∷ registered_bytes answer.now ∷ [])) }
{
    put_ticket(out, ticket)?;
    put_u64(out, xid.0)?;
    putting::put_registered(out, answer)?;
    Ok(())
}

fn put_answered(out: &mut Vec<u8>, xid: Xid, call: u16, answer: &CallAnswer) -> Result<(), NoMemory>
    requires { FitsAnswer answer.now }
    ensures { OnOk result (out.new.items ≡ out.old.items ++ joined (
        xid_bytes xid ∷ to_be_bytes w16 call ∷ answer_bytes answer.now ∷ [])) }
{
    put_u64(out, xid.0)?;
    put_u16(out, call)?;
    putting::put_answer(out, answer)?;
    Ok(())
}

fn put_query(
    out: &mut Vec<u8>,
    resource: u16,
    ticket: Ticket,
    check: &[RowKey],
) -> Result<(), NoMemory>
    requires { FitsKeys check.now }
    ensures { OnOk result (out.new.items ≡ out.old.items ++ joined (
        to_be_bytes w16 resource ∷ ticket_bytes ticket ∷ keys_bytes check.now ∷ [])) }
{
    put_u16(out, resource)?;
    put_ticket(out, ticket)?;
    put_keys(out, check)
}

fn put_lock(out: &mut Vec<u8>, ticket: Ticket, held: &Option<(RowKey, Xid)>) -> Result<(), NoMemory>
    requires { FitsHeld held.now }
    ensures { OnOk result (out.new.items ≡ out.old.items ++ joined (ticket_bytes ticket ∷ held_bytes held.now ∷ [])) }
{
    put_ticket(out, ticket)?;
    putting::put_held(out, held)
}

// Where a call goes and which it is.
fn put_aim(
    out: &mut Vec<u8>,
    xid: Xid,
    manager: u16,
    resource: u16,
    call: u16,
) -> Result<(), NoMemory>
    ensures { OnOk result (out.new.items ≡ out.old.items ++ joined (
        xid_bytes xid ∷ to_be_bytes w16 manager ∷ to_be_bytes w16 resource ∷ to_be_bytes w16 call ∷ [])) }
{
    put_u64(out, xid.0)?;
    put_u16(out, manager)?;
    put_u16(out, resource)?;
    put_u16(out, call)
}

fn put_call(
    alloc: Global,
    out: &mut Vec<u8>,
    xid: Xid,
    manager: u16,
    resource: u16,
    call: u16,
    work: &Work,
) -> Result<(), NoMemory>
    requires { FitsWork work.now }
    ensures { OnOk result (out.new.items ≡ out.old.items ++ joined (
        xid_bytes xid ∷ to_be_bytes w16 manager ∷ to_be_bytes w16 resource ∷ to_be_bytes w16 call ∷ work_bytes work.now ∷ [])) }
{
    put_aim(out, xid, manager, resource, call)?;
    works::put_work(alloc, out, work)?;
    Ok(())
}

// The fields of a message that tells a resource how a branch ends, or of its answer.
#[tactic(auto, unfolding(crate::specs::Messages::fields_bytes))]
fn put_second_phase(out: &mut Vec<u8>, message: &Message) -> Result<(), NoMemory>
    requires fits { FitsMessage message.now }
    requires kind { IsOfSecondPhase message.now }
    ensures { OnOk result (out.new.items ≡ out.old.items ++ fields_bytes message.now) }
{
    match message {
        Message::BranchCommit {
            xid,
            branch,
            kind,
            manager,
            call,
        } => put_ending(out, *xid, *branch, *kind, *manager, *call),
        Message::BranchRollback {
            xid,
            branch,
            kind,
            manager,
            call,
        } => put_ending(out, *xid, *branch, *kind, *manager, *call),
        Message::BranchCommitted {
            xid,
            branch,
            status,
            stmt,
        } => put_ended(out, *xid, *branch, *status, *stmt),
        Message::BranchRollbacked {
            xid,
            branch,
            status,
            stmt,
        } => put_ended(out, *xid, *branch, *status, *stmt),
        _ => unreachable!(),
    }
}

// The fields of a registration, of a lock query, or of the answer to one of these.
#[tactic(auto, unfolding(crate::specs::Messages::fields_bytes))]
fn put_locking(out: &mut Vec<u8>, message: &Message) -> Result<(), NoMemory>
    requires fits { FitsMessage message.now }
    requires kind { IsOfLocks message.now }
    ensures { OnOk result (out.new.items ≡ out.old.items ++ fields_bytes message.now) }
{
    match message {
        Message::Register {
            xid,
            resource,
            call,
            ticket,
            kind,
            hold,
            check,
        } => {
            put_place(out, *xid, *resource, *call, *ticket, *kind)?;
            put_keys(out, hold.as_slice())?;
            put_keys(out, check.as_slice())
        }
        Message::RegisterAnswer {
            ticket,
            xid,
            answer,
        } => put_registered(out, *ticket, *xid, answer),
        Message::LockQuery {
            resource,
            ticket,
            check,
        } => put_query(out, *resource, *ticket, check.as_slice()),
        Message::LockAnswer { ticket, held } => put_lock(out, *ticket, held),
        _ => unreachable!(),
    }
}

#[tactic(auto, unfolding(crate::specs::Messages::fields_bytes))]
fn put_fields(alloc: Global, out: &mut Vec<u8>, message: &Message) -> Result<(), NoMemory>
    requires { FitsMessage message.now }
    ensures { OnOk result (out.new.items ≡ out.old.items ++ fields_bytes message.now) }
{
    match message {
        Message::Begin { manager, timeout } => {
            put_u16(out, *manager)?;
            put_u64(out, *timeout)
        }
        Message::Begun { xid }
        | Message::GlobalCommit { xid }
        | Message::GlobalRollback { xid }
        | Message::GlobalStatus { xid } => put_u64(out, xid.0),
        Message::CommitStatus { xid, status } => put_status(out, *xid, *status),
        Message::RollbackStatus { xid, status } => put_status(out, *xid, *status),
        Message::StatusAnswer { xid, status } => put_status(out, *xid, *status),
        Message::BranchCommit { .. }
        | Message::BranchRollback { .. }
        | Message::BranchCommitted { .. }
        | Message::BranchRollbacked { .. } => put_second_phase(out, message),
        Message::Register { .. }
        | Message::RegisterAnswer { .. }
        | Message::LockQuery { .. }
        | Message::LockAnswer { .. } => put_locking(out, message),
        Message::Call {
            xid,
            manager,
            resource,
            call,
            work,
        } => put_call(alloc, out, *xid, *manager, *resource, *call, work),
        Message::Answer { xid, call, answer } => put_answered(out, *xid, *call, answer),
    }
}

fn put_body(alloc: Global, out: &mut Vec<u8>, message: &Message) -> Result<(), NoMemory>
    requires { FitsMessage message.now }
    ensures { OnOk result (out.new.items ≡ out.old.items ++ body_bytes message.now) }
{
    put_u16(out, type_code(message))?;
    put_fields(alloc, out, message)
}

#[tactic(auto, unfolding(crate::specs::Heads::head_bytes))]
fn put_head(out: &mut Vec<u8>, head: Head) -> Result<(), NoMemory>
    ensures { OnOk result (out.new.items ≡ out.old.items ++ head_bytes head) }
{
    put_u16(out, head.magic)?;
    put_u8(out, head.version)?;
    put_u32(out, head.full)?;
    put_u16(out, head.size)?;
    put_u8(out, head.kind)?;
    put_u8(out, head.codec)?;
    put_u8(out, head.compressor)?;
    put_u32(out, head.stamp)?;
    Ok(())
}

/// Room for the fields of most messages.
const SHORT_BODY: usize = 64;

/// The one frame of the message with this stamp.
#[tactic(auto, unfolding(crate::specs::Frames::frame_bytes))]
pub(crate) fn frame(alloc: Global, message: &Message, stamp: u32) -> Result<Vec<u8>, NoMemory>
    requires { HasFrame message.now stamp }
    ensures { IfOk result (λ bytes. bytes.items ≡ frame_bytes message.now stamp) }
{
    let mut body = Vec::with_capacity(alloc, SHORT_BODY)?;
    put_body(alloc, &mut body, message)?;
    let head = Head {
        magic: MAGIC,
        version: VERSION,
        full: (HEAD_BYTES + body.len()) as u32,
        size: HEAD_BYTES as u16,
        kind: bodies::kind_of(type_code(message)),
        codec: CODEC,
        compressor: 0,
        stamp,
    };
    let mut bytes = Vec::with_capacity(alloc, HEAD_BYTES + body.len())?;
    put_head(&mut bytes, head)?;
    bytes.extend_from_slice(&body)?;
    Ok(bytes)
}
