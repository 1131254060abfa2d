//! Messages as frames, both ways.
ghost use Rattle.std.specs.Prelude.{IfOk};
ghost use Rattle.byte_fields.specs.Layout.{FitsKey, FitsKeys};
ghost use Rattle.frame_codec.specs.Limits.{IsKeyWithin, AreKeysWithin, IsFramable};

use crate::samples::{Fail, copied, so};
use frame_codec::{Packet, encode};
use seata_types::{
    Boxed, BranchId, BranchKind, BranchStatus, CallAnswer, GlobalStatus, List, Message, NoMemory,
    Registered, RowKey, Shared, StmtError, Text, Ticket, Value, Why, Work, Xid,
};
use std::alloc::Global;

// Commit of transaction 7, request number 5.
const COMMIT: [u8; 26] = [
    0xda, 0xda, 2, 0, 0, 0, 0x1a, 0, 0x10, 0, 1, 0, 0, 0, 0, 5, 0, 7, 0, 0, 0, 0, 0, 0, 0, 7,
];

// Begin by manager 1 with timeout 60000, request number 1.
const BEGIN: [u8; 28] = [
    0xda, 0xda, 2, 0, 0, 0, 0x1c, 0, 0x10, 0, 1, 0, 0, 0, 0, 1, 0, 1, 0, 1, 0, 0, 0, 0, 0, 0, 0xea,
    0x60,
];

fn key(alloc: Global) -> Result<RowKey, Fail>
    ensures layout { IfOk result FitsKey }
    ensures limits { IfOk result IsKeyWithin }
{
    let table = Text::of(String::from_str(alloc, "acc")?);
    Ok(RowKey {
        resource: 2,
        table,
        pk: List::of(Vec::from_array(alloc, [Value::Int(1), Value::Int(-1)])?),
    })
}

fn keys(alloc: Global) -> Result<List<RowKey>, Fail>
    ensures layout { IfOk result FitsKeys }
    ensures limits { IfOk result AreKeysWithin }
{
    let key = key(alloc)?;
    let keys = Vec::from_array(alloc, [key])?;
    Ok(List::of(keys))
}

fn packet(alloc: Global, message: Message, stamp: u32) -> Result<Packet, NoMemory>
    requires { IsFramable message }
{
    encode(alloc, &message, stamp)
}

// The packet of a copy of the opened message.
fn packet_again(alloc: Global, packed: &Packet) -> Result<Packet, NoMemory> {
    let (message, stamp) = packed.open(alloc)?;
    let copy = copied(alloc, message)?;
    packet(alloc, copy, stamp)
}

// The packet of a message, once it has the bytes of the packet of a copy of the opened message too.
fn sent(alloc: Global, message: Message, stamp: u32) -> Result<Packet, Fail>
    requires { IsFramable message }
{
    let first = packet(alloc, message, stamp)?;
    let again = packet_again(alloc, &first)?;
    let is_same = again.bytes() == first.bytes();
    drop(again);
    if !is_same {
        drop(first);
        return Err(Fail::Differs("opened otherwise"));
    }
    Ok(first)
}

// Whether a message is framed in these bytes.
fn is_framed_as(alloc: Global, message: Message, stamp: u32, bytes: &[u8]) -> Result<bool, Fail>
    requires { IsFramable message }
{
    let packet = sent(alloc, message, stamp)?;
    Ok(packet.bytes() == bytes)
}

fn have_known_bytes(alloc: Global) -> Result<(), Fail> {
    let commit = Message::GlobalCommit { xid: Xid(7) };
    let is_commit = is_framed_as(alloc, commit, 5, &COMMIT)?;
    let begin = Message::Begin {
        manager: 1,
        timeout: 60_000,
    };
    let is_begin = is_framed_as(alloc, begin, 1, &BEGIN)?;
    so(is_commit && is_begin, "known bytes")
}

#[test]
fn known_bytes(rt: HostRuntime) -> Result<(), Fail> {
    have_known_bytes(rt.alloc())
}

const BRANCH: BranchId = BranchId(3);

const TICKET: Ticket = Ticket { boot: 1, seq: 2 };

// Frames and opens a message under the stamp of its type code, which has to stand in the frame as its code too.
fn typed(alloc: Global, message: Message, code: u16) -> Result<(), Fail>
    requires { IsFramable message }
{
    let packet = sent(alloc, message, code as u32)?;
    let wanted = code.to_be_bytes();
    let is_coded = match packet.bytes().get(16..18) {
        Some(found) => found == wanted.as_slice(),
        None => false,
    };
    drop(packet);
    so(is_coded, "a type code")
}

// One message of each type code that holds no list and no answer.
fn plain_messages(alloc: Global) -> Result<(), Fail> {
    let xid = Xid(7);
    let kind = BranchKind::Tcc;
    let (manager, call, stmt) = (1, 2, 0);
    typed(alloc, Message::Begun { xid }, 2)?;
    let commit = Message::BranchCommit {
        xid,
        branch: BRANCH,
        kind,
        manager,
        call,
    };
    typed(alloc, commit, 3)?;
    let committed = Message::BranchCommitted {
        xid,
        branch: BRANCH,
        status: BranchStatus::PhaseTwoCommitted,
        stmt,
    };
    typed(alloc, committed, 4)?;
    let rollback = Message::BranchRollback {
        xid,
        branch: BRANCH,
        kind,
        manager,
        call,
    };
    typed(alloc, rollback, 5)?;
    let rollbacked = Message::BranchRollbacked {
        xid,
        branch: BRANCH,
        status: BranchStatus::PhaseTwoRollbacked,
        stmt,
    };
    typed(alloc, rollbacked, 6)?;
    let status = GlobalStatus::Finished;
    typed(alloc, Message::CommitStatus { xid, status }, 8)?;
    typed(alloc, Message::GlobalRollback { xid }, 9)?;
    typed(alloc, Message::RollbackStatus { xid, status }, 10)?;
    Ok(())
}

fn registrations(alloc: Global) -> Result<(), Fail> {
    let xid = Xid(7);
    let hold = keys(alloc)?;
    let check = keys(alloc)?;
    let register = Message::Register {
        xid,
        resource: 2,
        call: 2,
        ticket: TICKET,
        kind: BranchKind::At,
        hold,
        check,
    };
    typed(alloc, register, 11)?;
    let key = key(alloc)?;
    let answer = Registered::Conflict {
        key,
        holder: xid,
        rolling: true,
    };
    let conflict = Message::RegisterAnswer {
        ticket: TICKET,
        xid,
        answer,
    };
    typed(alloc, conflict, 12)?;
    Ok(())
}

fn answers(alloc: Global) -> Result<(), Fail> {
    let xid = Xid(7);
    let key = Boxed::new(alloc, key(alloc)?)?;
    let why = Why::Stmt {
        index: 1,
        why: StmtError::Overflow { key },
    };
    let answer = CallAnswer::Failed { why };
    typed(
        alloc,
        Message::Answer {
            xid,
            call: 2,
            answer,
        },
        202,
    )?;
    Ok(())
}

// The questions of a status and of locks, their answers, and a call without statements.
fn questions(alloc: Global) -> Result<(), Fail> {
    let xid = Xid(7);
    let status = GlobalStatus::Committed;
    typed(alloc, Message::GlobalStatus { xid }, 15)?;
    typed(alloc, Message::StatusAnswer { xid, status }, 16)?;
    let query = Message::LockQuery {
        resource: 2,
        ticket: TICKET,
        check: keys(alloc)?,
    };
    typed(alloc, query, 21)?;
    let held = Message::LockAnswer {
        ticket: TICKET,
        held: Some((key(alloc)?, xid)),
    };
    typed(alloc, held, 22)?;
    let stmts = Shared::new(alloc, List::of(Vec::new(alloc)))?;
    let call = Message::Call {
        xid,
        manager: 1,
        resource: 2,
        call: 3,
        work: Work::At(stmts),
    };
    typed(alloc, call, 201)?;
    Ok(())
}

fn each_has_its_code(alloc: Global) -> Result<(), Fail> {
    plain_messages(alloc)?;
    registrations(alloc)?;
    answers(alloc)?;
    questions(alloc)
}

#[test]
fn each_type(rt: HostRuntime) -> Result<(), Fail> {
    each_has_its_code(rt.alloc())
}
