//! The text of a scenario on the disk `net` of a shelf.
ghost use Rattle.std.specs.Prelude.{◌≡◌};
ghost use Rattle.disk_model.specs.Disk.{IsSettled};
ghost use Rattle.seata_types.specs.declared.ids.Place.TheVariants as place;
ghost use Rattle.scenario_form.specs.Runnable.{IsRunnable};
ghost use Rattle.scenario_nodes.specs.Reading.{HoldStill};
ghost use Rattle.base_shelf.specs.Keeping.{KeepsBase, KeepsNet, fault_of, told_of};

use base_disk::{BaseError, keep};
use disk_model::{Disk, Shelf, ShelfError};
use node_seat::RunFault;
use scenario_form::Scenario;
use seata_types::Place;
use seata_types::limits::SCENARIO_DISK;
use std::alloc::Global;

/// The name of the disk that keeps the text of a scenario.
pub const NET_DISK: &str = "net";

/// The fault of a shelf that doesn't give this disk.
pub fn not_had(error: ShelfError) -> RunFault
    ensures store { error ≡ ShelfError.Failed → result ≡ RunFault.Store place.Net }
    ensures memory { error ≡ ShelfError.NoMemory → result ≡ RunFault.NoMemory }
{
    match error {
        ShelfError::Failed => RunFault::Store { place: Place::Net },
        ShelfError::NoMemory => RunFault::NoMemory,
    }
}

/// The fault of a text that isn't kept on it.
fn base_fault(error: BaseError) -> RunFault
    ensures { result ≡ fault_of error }
{
    let place = Place::Net;
    match error {
        BaseError::Failed => RunFault::Store { place },
        BaseError::Damaged { at } => RunFault::Damaged {
            place,
            second: false,
            at,
        },
        BaseError::Full(full) => RunFault::Full { place, full },
        BaseError::Other => RunFault::Other,
        BaseError::NoMemory => RunFault::NoMemory,
    }
}

/// That a text is kept, or the fault.
fn told(kept: Result<(), BaseError>) -> Result<(), RunFault>
    ensures { result ≡ told_of kept }
{
    match kept {
        Ok(()) => Ok(()),
        Err(error) => Err(base_fault(error)),
    }
}

/// Keeps a text on a disk, which comes back.
fn keep_text<D: Disk>(alloc: Global, disk: D, text: &[u8]) -> (Result<(), RunFault>, D)
    requires { IsSettled (D.state disk) }
    ensures { KeepsNet text.now (D.state disk) (D.state result.1) result.0 }
{
    let (kept, disk) = keep(alloc, disk, text);
    (told(kept), disk)
}

/// Keeps the text of a scenario, its `base`, on the disk `net` of a shelf, which is given back. Where the records that it holds
/// are the first ones of the text, those that are missing are added; where they aren't it is `Other`, and nothing is written.
/// `Store`, `Full` and `Damaged` are of the place `Net`: the shelf or the disk counted a fault, the next record doesn't fit, or
/// the disk's bytes are no journal.
pub fn keep_base<H: Shelf>(
    alloc: Global,
    scenario: &Scenario,
    shelf: &mut H,
) -> Result<(), RunFault>
    requires { IsRunnable scenario.now }
    ensures base { KeepsBase H.D.state scenario.now.base
        (H.state shelf.old) (H.state shelf.new) result }
    ensures still { HoldStill H.D.state scenario.now (H.state shelf.old) (H.state shelf.new) }
{
    let disk = match shelf.take(alloc, NET_DISK, SCENARIO_DISK) {
        Ok(disk) => disk,
        Err(error) => return Err(not_had(error)),
    };
    let (kept, disk) = keep_text(alloc, disk, scenario.base.as_str().as_bytes());
    shelf.give(NET_DISK, disk);
    kept
}
