//! Identities and codes of one byte, read at a cursor.
ghost use Rattle.std.specs.Prelude.{◌≡◌};
ghost use Rattle.byte_fields.specs.Cursors.{Reads};
ghost use Rattle.byte_fields.specs.Parts.{xid_at, branch_at, leg_at, kind_at, truth_at, status_at, branch_status_at};

use crate::cursor::Cursor;
use crate::errors::FieldError;
use crate::reading;
use seata_types::{BranchId, BranchKind, BranchStatus, GlobalStatus, Leg, Xid};

#[tactic(auto, unfolding(crate::specs::Parts::xid_at))]
pub(crate) fn xid(from: Cursor) -> Result<(Xid, Cursor), FieldError>
    ensures { Reads xid_at from.entry result }
{
    let (number, after) = reading::eight_bytes(from)?;
    Ok((Xid(number), after))
}

#[tactic(auto, unfolding(crate::specs::Parts::branch_at))]
pub(crate) fn branch(from: Cursor) -> Result<(BranchId, Cursor), FieldError>
    ensures { Reads branch_at from.entry result }
{
    let (number, after) = reading::eight_bytes(from)?;
    Ok((BranchId(number), after))
}

#[tactic(auto, unfolding(crate::specs::Parts::leg_at))]
pub(crate) fn leg(from: Cursor) -> Result<(Leg, Cursor), FieldError>
    ensures { Reads leg_at from.entry result }
{
    let (xid, after) = xid(from)?;
    let (branch, after) = branch(after)?;
    Ok((Leg { xid, branch }, after))
}

#[tactic(auto, unfolding(crate::specs::Parts::kind_at, crate::specs::Tags::tagged))]
pub(crate) fn kind(from: Cursor) -> Result<(BranchKind, Cursor), FieldError>
    ensures { Reads kind_at from.entry result }
{
    let (code, after) = reading::byte(from)?;
    match code {
        0 => Ok((BranchKind::At, after)),
        1 => Ok((BranchKind::Tcc, after)),
        _ => Err(FieldError::BadTag { at: from.at }),
    }
}

#[tactic(auto, unfolding(crate::specs::Parts::truth_at, crate::specs::Tags::tagged))]
pub(crate) fn truth(from: Cursor) -> Result<(bool, Cursor), FieldError>
    ensures { Reads truth_at from.entry result }
{
    let (code, after) = reading::byte(from)?;
    match code {
        0 => Ok((false, after)),
        1 => Ok((true, after)),
        _ => Err(FieldError::BadTag { at: from.at }),
    }
}

#[tactic(auto, unfolding(crate::specs::Parts::status_at, crate::specs::Tags::tagged))]
pub(crate) fn status(from: Cursor) -> Result<(GlobalStatus, Cursor), FieldError>
    ensures { Reads status_at from.entry result }
{
    let (code, after) = reading::byte(from)?;
    match GlobalStatus::from_code(code) {
        Some(status) => Ok((status, after)),
        None => Err(FieldError::BadTag { at: from.at }),
    }
}

#[tactic(auto, unfolding(crate::specs::Parts::branch_status_at, crate::specs::Tags::tagged))]
pub(crate) fn branch_status(from: Cursor) -> Result<(BranchStatus, Cursor), FieldError>
    ensures { Reads branch_status_at from.entry result }
{
    let (code, after) = reading::byte(from)?;
    match BranchStatus::from_code(code) {
        Some(status) => Ok((status, after)),
        None => Err(FieldError::BadTag { at: from.at }),
    }
}
