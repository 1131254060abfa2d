//! A text on a disk: the records that stand there are compared with its own, and those that are missing are added.
ghost use Rattle.std.specs.Prelude.{◌≡◌, ◌≤◌, ◌++◌, false, length, None, IfSome};
ghost use Rattle.disk_model.specs.Disk.{IsSettled};
ghost use Rattle.seata_types.specs.declared.limits.TheConstants.{BODY_BYTES};
ghost use Rattle.disk_journal.specs.Journals.{is_down};
ghost use Rattle.base_records.specs.Pieces.{IsFront, records_of};
ghost use Rattle.base_disk.specs.Keeping.{Adds, AddsAll, KeepsText, opening_error};
ghost use Rattle.base_disk.specs.Marks.{left_of};

use crate::errors::BaseError;
use crate::marks::{Mark, after, piece};
use disk_journal::{AppendError, Journal, JournalError};
use disk_model::Disk;
use seata_types::List;
use std::alloc::Global;

/// Why a disk is no journal.
fn opening_error(error: JournalError) -> BaseError
    ensures { result ≡ opening_error error }
{
    match error {
        JournalError::Failed => BaseError::Failed,
        JournalError::Damaged { at } => BaseError::Damaged { at },
        JournalError::NoMemory => BaseError::NoMemory,
    }
}

/// Where the records of a text go on behind these, if they are its first ones.
fn behind(records: &[List<u8>], text: &[u8]) -> Option<Mark>
    ensures front { IfSome result (λ mark.
        records_of BODY_BYTES text.now ≡ records.now ++ left_of text.now mark) }
    ensures within { IfSome result (λ mark. mark.at ≤ length text.now) }
    ensures other { result ≡ None → IsFront BODY_BYTES records.now text.now → ⊥ }
{
    let mut mark = Mark {
        at: 0,
        ended: false,
    };
    for record in records {
        if mark.ended || record.as_slice() != piece(text, mark.at) {
            return None;
        }
        mark = after(text, mark.at);
    }
    Some(mark)
}

/// Adds one record.
fn add<D: Disk>(journal: &mut Journal<D>, body: &[u8]) -> Result<(), BaseError>
    requires up { is_down journal.old ≡ false }
    requires small { length body.now ≤ BODY_BYTES }
    ensures { Adds D.state body.now journal.old journal.new result }
{
    match journal.append(body) {
        Ok(()) => Ok(()),
        Err(AppendError::Full(full)) => Err(BaseError::Full(full)),
        Err(AppendError::Failed) => Err(BaseError::Failed),
    }
}

/// Adds the records of a text from a mark on.
fn add_all<D: Disk>(journal: &mut Journal<D>, text: &[u8], mark: Mark) -> Result<(), BaseError>
    requires up { is_down journal.old ≡ false }
    requires within { mark.at ≤ length text.now }
    ensures { AddsAll D.state text.now mark journal.old journal.new result }
{
    let mut mark = mark;
    'records: while !mark.ended {
        if let Err(error) = add(journal, piece(text, mark.at)) {
            return Err(error);
        }
        mark = after(text, mark.at);
    }
    Ok(())
}

/// Keeps a text on a disk, from its first byte on: as records of 1,048,576 bytes, of which the last has what is left, and an
/// empty one behind them. Where those that stand there are its first ones, the missing ones are added; where they aren't, it is
/// `Other`, and nothing is written. The disk comes back.
pub fn keep<D: Disk>(alloc: Global, disk: D, text: &[u8]) -> (Result<(), BaseError>, D)
    requires { IsSettled (D.state disk) }
    ensures { KeepsText text.now (D.state disk) (D.state result.1) result.0 }
{
    let (mut journal, records) = match Journal::open(alloc, disk, 0) {
        Ok(opened) => opened,
        Err((error, disk)) => return (Err(opening_error(error)), disk),
    };
    let Some(mark) = behind(records.as_slice(), text) else {
        return (Err(BaseError::Other), journal.into_disk());
    };
    let kept = add_all(&mut journal, text, mark);
    (kept, journal.into_disk())
}
