//! The two disks of a node, from the shelf and back.
ghost use Rattle.std.specs.Prelude.{◌≡◌, ◌<◌, ◌^◌, IfOk, IfErr, OnErr, OnOk, string_bytes};
ghost use Rattle.disk_model.specs.Shelf.{KeepsOthers, SamePlaces};
ghost use Rattle.scenario_nodes.specs.Shelves.{AreGivenBack, AreTaken, HasBoth, IsDiskName, ReturnsAll, ReturnsBut};
ghost use Rattle.scenario_nodes.specs.Shelves.{second_name as name_of_second};
ghost use Rattle.scenario_nodes.specs.Opening.{IsNotHad};

use disk_model::{Shelf, ShelfError};
use node_seat::RunFault;
use seata_types::{NoMemory, Place};
use std::alloc::Global;

/// The name of the coordinator's first disk, and of its second one.
pub(crate) const FIRST_DISK: &str = "tc";

pub(crate) const SECOND_DISK: &str = "tc.2";

/// The name of the second disk of a node with this name.
pub(crate) fn second_name(alloc: Global, name: &str) -> Result<String, NoMemory>
    ensures { IfOk result (λ second. string_bytes second ≡ name_of_second name.now) }
{
    let mut second = String::from_str(alloc, name)?;
    second.push_str(".2")?;
    Ok(second)
}

/// The fault of a shelf that gives no disk for the node at a place.
fn shelf_fault(place: Place, error: ShelfError) -> RunFault
    ensures store { error ≡ ShelfError.Failed → result ≡ RunFault.Store place }
    ensures memory { error ≡ ShelfError.NoMemory → result ≡ RunFault.NoMemory }
{
    match error {
        ShelfError::Failed => RunFault::Store { place },
        ShelfError::NoMemory => RunFault::NoMemory,
    }
}

/// Takes both disks of the node at a place. Where the second can't be had the first is given back as it was
/// taken, and the second has no place.
pub(crate) fn take_disks<H: Shelf>(
    alloc: Global,
    shelf: &mut H,
    place: Place,
    first: &str,
    second: &str,
    size: u64,
) -> Result<(H::D, H::D), RunFault>
    requires size { size < 2 ^ 32 }
    requires second { second.now ≡ name_of_second first.now }
    ensures taken { IfOk result (AreTaken H.D.state (H.state shelf.old) size first.now) }
    ensures both { OnOk result (HasBoth (H.state shelf.new) first.now) }
    ensures refused { IfErr result (IsNotHad H.D.state size place
        (H.state shelf.old) (H.state shelf.new) first.now) }
    ensures keeps { KeepsOthers (IsDiskName first.now) (H.state shelf.old) (H.state shelf.new) }
    ensures out { OnOk result (ReturnsBut (IsDiskName first.now)
        (H.state shelf.old) (H.state shelf.new)) }
    ensures returned { OnErr result (ReturnsAll (H.state shelf.old) (H.state shelf.new)) }
{
    let taken = match shelf.take(alloc, first, size) {
        Ok(disk) => disk,
        Err(error) => return Err(shelf_fault(place, error)),
    };
    match shelf.take(alloc, second, size) {
        Ok(other) => Ok((taken, other)),
        Err(error) => {
            shelf.give(first, taken);
            Err(shelf_fault(place, error))
        }
    }
}

/// Gives both disks of a node back under its name.
pub(crate) fn give_disks<H: Shelf>(shelf: &mut H, first: &str, second: &str, disks: (H::D, H::D))
    requires second { second.now ≡ name_of_second first.now }
    requires both { HasBoth (H.state shelf.old) first.now }
    ensures back { AreGivenBack (H.state shelf.old) (H.state shelf.new) first.now disks }
    ensures keeps { KeepsOthers (IsDiskName first.now) (H.state shelf.old) (H.state shelf.new) }
    ensures places { SamePlaces (H.state shelf.old) (H.state shelf.new) }
    ensures returned { ReturnsAll (H.state shelf.old) (H.state shelf.new) }
{
    let (a, b) = disks;
    shelf.give(first, a);
    shelf.give(second, b);
}
