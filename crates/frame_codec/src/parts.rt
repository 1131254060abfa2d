//! The parts that messages alone have, taken from fields.
ghost use Rattle.byte_fields.specs.Reading.{key_at};
ghost use Rattle.byte_fields.specs.Taking.{Reads};
ghost use Rattle.frame_codec.specs.Parts.{registered_at, conflict_at, held_at, held_key_at, stmt_error_at, why_at, why_stmt_at, answer_at, busy_at};

use byte_fields::{FieldError, Fields};
use seata_types::{Boxed, CallAnswer, NoMemory, Registered, RowKey, StmtError, Why, Xid};
use std::alloc::Global;

fn boxed_key(alloc: Global, fields: &mut Fields) -> Result<Boxed<RowKey>, FieldError>
    ensures { Reads key_at fields.old fields.new result }
{
    let key = fields.take_key(alloc)?;
    match Boxed::new(alloc, key) {
        Ok(key) => Ok(key),
        Err(NoMemory) => Err(FieldError::NoMemory),
    }
}

#[tactic(auto, unfolding(crate::specs::Parts::conflict_at))]
fn conflict(alloc: Global, fields: &mut Fields) -> Result<Registered, FieldError>
    ensures { Reads conflict_at fields.old fields.new result }
{
    let key = fields.take_key(alloc)?;
    let holder = fields.take_xid()?;
    let rolling = fields.take_truth()?;
    Ok(Registered::Conflict {
        key,
        holder,
        rolling,
    })
}

#[tactic(auto, unfolding(crate::specs::Parts::registered_at, byte_fields::specs::Tags::tagged))]
pub(crate) fn registered(alloc: Global, fields: &mut Fields) -> Result<Registered, FieldError>
    ensures { Reads registered_at fields.old fields.new result }
{
    let place = fields.at();
    match fields.take_u8()? {
        0 => {
            let branch = fields.take_branch()?;
            Ok(Registered::Granted { branch })
        }
        1 => conflict(alloc, fields),
        2 => {
            let status = fields.take_status()?;
            Ok(Registered::Closed { status })
        }
        3 => Ok(Registered::Late),
        _ => Err(FieldError::BadTag { at: place }),
    }
}

#[tactic(auto, unfolding(crate::specs::Parts::held_key_at))]
fn held_key(alloc: Global, fields: &mut Fields) -> Result<Option<(RowKey, Xid)>, FieldError>
    ensures { Reads held_key_at fields.old fields.new result }
{
    let key = fields.take_key(alloc)?;
    let holder = fields.take_xid()?;
    Ok(Some((key, holder)))
}

#[tactic(auto, unfolding(crate::specs::Parts::held_at, byte_fields::specs::Tags::tagged))]
pub(crate) fn held(alloc: Global, fields: &mut Fields) -> Result<Option<(RowKey, Xid)>, FieldError>
    ensures { Reads held_at fields.old fields.new result }
{
    let place = fields.at();
    match fields.take_u8()? {
        0 => Ok(None),
        1 => held_key(alloc, fields),
        _ => Err(FieldError::BadTag { at: place }),
    }
}

#[tactic(auto, unfolding(crate::specs::Parts::stmt_error_at, byte_fields::specs::Tags::tagged))]
fn stmt_error(alloc: Global, fields: &mut Fields) -> Result<StmtError, FieldError>
    ensures { Reads stmt_error_at fields.old fields.new result }
{
    let place = fields.at();
    match fields.take_u8()? {
        0 => Ok(StmtError::NoTable),
        1 => Ok(StmtError::NoColumn),
        2 => Ok(StmtError::Columns),
        3 => Ok(StmtError::KeyChanged),
        4 => Ok(StmtError::TypeMismatch),
        5 => Ok(StmtError::TooManyRows),
        6 => {
            let key = boxed_key(alloc, fields)?;
            Ok(StmtError::Overflow { key })
        }
        7 => {
            let key = boxed_key(alloc, fields)?;
            Ok(StmtError::Duplicate { key })
        }
        8 => Ok(StmtError::TableFull),
        _ => Err(FieldError::BadTag { at: place }),
    }
}

#[tactic(auto, unfolding(crate::specs::Parts::why_stmt_at))]
fn why_stmt(alloc: Global, fields: &mut Fields) -> Result<Why, FieldError>
    ensures { Reads why_stmt_at fields.old fields.new result }
{
    let index = fields.take_u16()?;
    let why = stmt_error(alloc, fields)?;
    Ok(Why::Stmt { index, why })
}

#[tactic(auto, unfolding(crate::specs::Parts::why_at, byte_fields::specs::Tags::tagged))]
fn why(alloc: Global, fields: &mut Fields) -> Result<Why, FieldError>
    ensures { Reads why_at fields.old fields.new result }
{
    let place = fields.at();
    match fields.take_u8()? {
        0 => why_stmt(alloc, fields),
        1 => Ok(Why::Tries),
        2 => {
            let holder = fields.take_xid()?;
            Ok(Why::Rolling { holder })
        }
        3 => {
            let status = fields.take_status()?;
            Ok(Why::Closed { status })
        }
        4 => Ok(Why::Late),
        5 => Ok(Why::Marker),
        6 => {
            let index = fields.take_u16()?;
            Ok(Why::NoRow { index })
        }
        7 => Ok(Why::Fence),
        _ => Err(FieldError::BadTag { at: place }),
    }
}

#[tactic(auto, unfolding(crate::specs::Parts::busy_at))]
fn busy(alloc: Global, fields: &mut Fields) -> Result<CallAnswer, FieldError>
    ensures { Reads busy_at fields.old fields.new result }
{
    let key = fields.take_key(alloc)?;
    let by = fields.take_ticket()?;
    Ok(CallAnswer::Busy { key, by })
}

#[tactic(auto, unfolding(crate::specs::Parts::answer_at, byte_fields::specs::Tags::tagged))]
pub(crate) fn answer(alloc: Global, fields: &mut Fields) -> Result<CallAnswer, FieldError>
    ensures { Reads answer_at fields.old fields.new result }
{
    let place = fields.at();
    match fields.take_u8()? {
        0 => {
            let branch = fields.take_branch()?;
            Ok(CallAnswer::Done { branch })
        }
        1 => busy(alloc, fields),
        2 => {
            let why = why(alloc, fields)?;
            Ok(CallAnswer::Failed { why })
        }
        _ => Err(FieldError::BadTag { at: place }),
    }
}
