//! The text that the disk `net` of a shelf keeps.
ghost use Rattle.std.specs.Prelude.{◌≡◌, IfErr, IfOk};
ghost use Rattle.disk_model.specs.Disk.{IsSettled};
ghost use Rattle.store_shown.specs.Bases.{ReadsBase, ReadsText, fault_of};
ghost use Rattle.store_shown.specs.Texts.{IsKeptIn};

use crate::texts::kept_text;
use base_shelf::{NET_DISK, not_had};
use disk_journal::{Journal, JournalError};
use disk_model::{Disk, Shelf};
use node_seat::RunFault;
use seata_types::limits::SCENARIO_DISK;
use seata_types::{List, NoMemory, Place};
use std::alloc::Global;

/// The fault of a disk that is no journal, or can't be read.
fn journal_fault(error: JournalError) -> RunFault
    ensures { result ≡ fault_of error }
{
    let place = Place::Net;
    match error {
        JournalError::Failed => RunFault::Store { place },
        JournalError::Damaged { at } => RunFault::Damaged {
            place,
            second: false,
            at,
        },
        JournalError::NoMemory => RunFault::NoMemory,
    }
}

/// The text that records keep; none where the last one isn't an empty one.
fn text_in(alloc: Global, records: &[List<u8>]) -> Result<Option<List<u8>>, RunFault>
    ensures kept { IfOk result (IsKeptIn records.now) }
    ensures refused { IfErr result (λ fault. fault ≡ RunFault.NoMemory) }
{
    match kept_text(alloc, records) {
        Ok(text) => Ok(text),
        Err(NoMemory) => Err(RunFault::NoMemory),
    }
}

/// Reads the text that a disk keeps, which comes back; none where its last record isn't an empty one.
fn read_text<D: Disk>(alloc: Global, disk: D) -> (Result<Option<List<u8>>, RunFault>, D)
    requires { IsSettled (D.state disk) }
    ensures { ReadsText (D.state disk) (D.state result.1) result.0 }
{
    let (journal, records) = match Journal::open(alloc, disk, 0) {
        Ok(opened) => opened,
        Err((error, disk)) => return (Err(journal_fault(error)), disk),
    };
    let read = text_in(alloc, records.as_slice());
    (read, journal.into_disk())
}

/// Reads the text that the disk `net` of a shelf keeps; none where its last record isn't an empty one. The disk is given back,
/// and no byte is changed. `Store` and `Damaged` are of the place `Net`: the shelf or the disk counted a fault, or the disk's
/// bytes are no journal.
pub fn read_base<H: Shelf>(alloc: Global, shelf: &mut H) -> Result<Option<List<u8>>, RunFault>
    ensures { ReadsBase H.D.state (H.state shelf.old) (H.state shelf.new) result }
{
    let disk = match shelf.take(alloc, NET_DISK, SCENARIO_DISK) {
        Ok(disk) => disk,
        Err(error) => return Err(not_had(error)),
    };
    let (read, disk) = read_text(alloc, disk);
    shelf.give(NET_DISK, disk);
    read
}
