//! Which disk is active.
ghost use Rattle.std.specs.Prelude.{◌≡◌, ℕ, List, Some, Ok, Err, IfOk, OnErr};
ghost use Rattle.disk_model.specs.Disk.{HasCause, present};
ghost use Rattle.disk_journal.specs.Keeping.{OnlyReads};
ghost use Rattle.journal_checkpoint.specs.Pairs.{head_of, open_head, is_active, active_of, chosen};
ghost use Rattle.journal_checkpoint.specs.Images.{FindsActive, FitsHead, FitsSnapshot, IsOnSide};

use crate::layout::{AROUND, OPEN};
use crate::types::{Active, Head, TwinError};
use disk_journal::read;
use disk_model::{Disk, Failed};

/// Which disk is active, by their heads.
pub fn read_active<D: Disk>(first: &mut D, second: &mut D) -> Result<Active, TwinError>
    ensures { FindsActive (D.state first.old) (D.state second.old) (D.state first.new) (D.state second.new) result }
{
    let one = match read_head(first) {
        Ok(head) => head,
        Err(Failed) => return Err(TwinError::Failed),
    };
    let two = match read_head(second) {
        Ok(head) => head,
        Err(Failed) => return Err(TwinError::Failed),
    };
    match find_active(one, two) {
        Ok(active) => Ok(active),
        Err(error) => Err(error),
    }
}

// The head of a disk.
fn read_head<D: Disk>(disk: &mut D) -> Result<Head, Failed>
    ensures head { IfOk result (λ found. (c : List ℕ) → present (D.state disk.old) ≡ Some c → head_of c ≡ found) }
    ensures fits { IfOk result (FitsHead (D.state disk.old).size) }
    ensures only_reads { OnlyReads (D.state disk.old) (D.state disk.new) }
    ensures cause { OnErr result (HasCause (D.state disk.old).counts (D.state disk.new).counts) }
{
    let size = disk.size();
    if size == 0 {
        return Ok(Head::Shut);
    }
    let mut switch = [0];
    read(disk, 0, &mut switch)?;
    if switch[0] != OPEN {
        return Ok(Head::Shut);
    }
    if size < AROUND {
        return Ok(Head::Broken);
    }
    let mut generation = [0; 4];
    read(disk, 1, &mut generation)?;
    let mut length = [0; 4];
    read(disk, 5, &mut length)?;
    Ok(open_head(
        size,
        u32::from_be_bytes(generation),
        u32::from_be_bytes(length),
    ))
}

// The head behind an open switch, on a disk of this size.
fn open_head(size: u64, generation: u32, length: u32) -> Head
    ensures head { result ≡ open_head size generation length }
    ensures fits { FitsHead size result }
{
    if generation == 0 {
        return Head::Broken;
    }
    if length as u64 + AROUND > size {
        return Head::Broken;
    }
    Head::Open { generation, length }
}

// Which disk is active, by the two heads.
fn find_active(first: Head, second: Head) -> Result<Active, TwinError>
    ensures active { result ≡ active_of first second }
    ensures fits { (p q : ℕ) → FitsHead p first → FitsHead q second → IfOk result (λ active. FitsSnapshot (chosen active.second p q) active.snapshot) }
    ensures side { (p q : ℕ) → FitsHead p first → FitsHead q second → IfOk result IsOnSide }
{
    match first {
        Head::Broken => Err(TwinError::Damaged {
            second: false,
            at: 0,
        }),
        Head::Shut => match second {
            Head::Broken => Err(TwinError::Damaged {
                second: true,
                at: 0,
            }),
            Head::Shut => Ok(is_active(false, 0, None, false)),
            Head::Open { generation, length } => {
                Ok(is_active(true, generation, Some(length), false))
            }
        },
        Head::Open { generation, length } => match second {
            Head::Broken => Err(TwinError::Damaged {
                second: true,
                at: 0,
            }),
            Head::Shut => Ok(is_active(false, generation, Some(length), false)),
            Head::Open {
                generation: other,
                length: other_length,
            } => {
                if generation == other {
                    return Err(TwinError::Damaged {
                        second: true,
                        at: 0,
                    });
                }
                if generation < other {
                    return Ok(is_active(true, other, Some(other_length), true));
                }
                Ok(is_active(false, generation, Some(length), true))
            }
        },
    }
}

fn is_active(second: bool, generation: u32, snapshot: Option<u32>, other_open: bool) -> Active
    ensures { result ≡ is_active second generation snapshot other_open }
{
    Active {
        second,
        generation,
        snapshot,
        other_open,
    }
}
