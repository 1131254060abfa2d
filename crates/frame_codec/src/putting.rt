//! The body of a message, appended to bytes.
ghost use Rattle.std.specs.Prelude.{◌≡◌, ◌<◌, ◌++◌, OnOk};
ghost use Rattle.frame_codec.specs.Parts.{FitsRegistered, FitsHeld, FitsStmtError, FitsWhy, FitsAnswer, registered_bytes, held_bytes, stmt_error_bytes, why_bytes, answer_bytes};

use byte_fields::{put_key, put_keys, put_ticket, put_u8, put_u16, put_u64};
use seata_types::{
    BranchId, BranchKind, BranchStatus, CallAnswer, GlobalStatus, Message, NoMemory, Registered,
    RowKey, StmtError, Ticket, Why, Xid,
};

pub(crate) fn put_registered(out: &mut Vec<u8>, answer: &Registered) -> Result<(), NoMemory>
    requires { FitsRegistered answer.now }
    ensures { OnOk result (out.new.items ≡ out.old.items ++ registered_bytes answer.now) }
{
    match answer {
        Registered::Granted { branch } => {
            put_u8(out, 0)?;
            put_u64(out, branch.0)
        }
        Registered::Conflict {
            key,
            holder,
            rolling,
        } => {
            put_u8(out, 1)?;
            put_key(out, key)?;
            put_u64(out, holder.0)?;
            put_u8(out, *rolling as u8)
        }
        Registered::Closed { status } => {
            put_u8(out, 2)?;
            put_u8(out, status.code())
        }
        Registered::Late => put_u8(out, 3),
    }
}

pub(crate) fn put_held(out: &mut Vec<u8>, held: &Option<(RowKey, Xid)>) -> Result<(), NoMemory>
    requires { FitsHeld held.now }
    ensures { OnOk result (out.new.items ≡ out.old.items ++ held_bytes held.now) }
{
    match held {
        None => put_u8(out, 0),
        Some((key, holder)) => {
            put_u8(out, 1)?;
            put_key(out, key)?;
            put_u64(out, holder.0)
        }
    }
}

fn put_stmt_error(out: &mut Vec<u8>, error: &StmtError) -> Result<(), NoMemory>
    requires { FitsStmtError error.now }
    ensures { OnOk result (out.new.items ≡ out.old.items ++ stmt_error_bytes error.now) }
{
    match error {
        StmtError::NoTable => put_u8(out, 0),
        StmtError::NoColumn => put_u8(out, 1),
        StmtError::Columns => put_u8(out, 2),
        StmtError::KeyChanged => put_u8(out, 3),
        StmtError::TypeMismatch => put_u8(out, 4),
        StmtError::TooManyRows => put_u8(out, 5),
        StmtError::Overflow { key } => {
            put_u8(out, 6)?;
            put_key(out, key.get())
        }
        StmtError::Duplicate { key } => {
            put_u8(out, 7)?;
            put_key(out, key.get())
        }
        StmtError::TableFull => put_u8(out, 8),
    }
}

fn put_why(out: &mut Vec<u8>, why: &Why) -> Result<(), NoMemory>
    requires { FitsWhy why.now }
    ensures { OnOk result (out.new.items ≡ out.old.items ++ why_bytes why.now) }
{
    match why {
        Why::Stmt { index, why } => {
            put_u8(out, 0)?;
            put_u16(out, *index)?;
            put_stmt_error(out, why)
        }
        Why::Tries => put_u8(out, 1),
        Why::Rolling { holder } => {
            put_u8(out, 2)?;
            put_u64(out, holder.0)
        }
        Why::Closed { status } => {
            put_u8(out, 3)?;
            put_u8(out, status.code())
        }
        Why::Late => put_u8(out, 4),
        Why::Marker => put_u8(out, 5),
        Why::NoRow { index } => {
            put_u8(out, 6)?;
            put_u16(out, *index)
        }
        Why::Fence => put_u8(out, 7),
    }
}

pub(crate) fn put_answer(out: &mut Vec<u8>, answer: &CallAnswer) -> Result<(), NoMemory>
    requires { FitsAnswer answer.now }
    ensures { OnOk result (out.new.items ≡ out.old.items ++ answer_bytes answer.now) }
{
    match answer {
        CallAnswer::Done { branch } => {
            put_u8(out, 0)?;
            put_u64(out, branch.0)
        }
        CallAnswer::Busy { key, by } => {
            put_u8(out, 1)?;
            put_key(out, key)?;
            put_ticket(out, *by)
        }
        CallAnswer::Failed { why } => {
            put_u8(out, 2)?;
            put_why(out, why)
        }
    }
}
