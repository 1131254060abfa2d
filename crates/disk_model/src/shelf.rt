ghost use Rattle.std.specs.Prelude.{◌≡◌, ◌≢◌, ◌^◌, ◌<◌, ◌≤◌, ℕ, List, IsTrue, Some, None, true, false, IfOk, IfSome, OnOk, OnErr, IsErrOf, length};
ghost use Rattle.disk_model.specs.Disk.{Rose};
ghost use Rattle.disk_model.specs.Shelf.{IsGivenBack, IsOut, IsTaken, KeepsOthers, OnlyTellersHave, SamePlaces, SameUnder, ShelfState};

use crate::disk::Disk;
use crate::errors::{NoMemory, ShelfError};
use crate::memory::MemDisk;
use std::alloc::Global;
use std::collections::BTreeMap;

/// Gives disks by name, and takes them back.
pub trait Shelf {
    type D: Disk + Send + Drop;

    /// Which names were taken, which disks were given back under them and how often, and its faults.
    ghost state: { Self → ShelfState Self.D };

    /// The disk that was last given back under this name, or else a new one, of this size in bytes; where the one given back has
    /// another size it fails. It makes the place for the disk to be given back to, and no other; none where it fails. Until then the
    /// disk is out. What was given back under other names stays.
    fn take(&mut self, alloc: Global, name: &str, size: u64) -> Result<Self::D, ShelfError>
        requires { size < 2 ^ 32 }
        ensures taken { IfOk result (λ disk. IsTaken Self.D.state
            ((state self.old).given_back name.now) size (Self.D.state disk)) }
        ensures out { OnOk result (IsOut name.now (state self.new)) }
        ensures none { OnErr result (SamePlaces (state self.old) (state self.new)) }
        ensures kept { OnErr result (SameUnder name.now (state self.old) (state self.new)) }
        ensures unmoved { (state self.new).gives name.now ≡ (state self.old).gives name.now }
        ensures keeps { KeepsOthers (λ n. n ≡ name.now) (state self.old) (state self.new) }
        ensures failed { IsErrOf result ShelfError.Failed → Rose (state self.old).faults (state self.new).faults };

    /// Takes a disk back, into the place that the `take` under this name made. It takes no memory.
    fn give(&mut self, name: &str, disk: Self::D)
        ensures back { (state self.old).has_place name.now → IsGivenBack (state self.new) name.now disk }
        ensures only { (d : Self.D) → (state self.new).given_back name.now d → d ≡ disk }
        ensures counted { IsTrue (state self.old).tells → (state self.old).has_place name.now
            → Rose ((state self.old).gives name.now) ((state self.new).gives name.now) }
        ensures places { SamePlaces (state self.old) (state self.new) }
        ensures keeps { KeepsOthers (λ n. n ≡ name.now) (state self.old) (state self.new) };

    /// What always holds of it.
    ghost lawful: { (shelf : Self) → OnlyTellersHave (state shelf) };
}

/// The place of a name that was taken.
#[derive(Drop)]
struct Place {
    // The disk that was given back, unless it is out.
    disk: Option<MemDisk>,
    // How often one was given back. It stands still at its end.
    gives: u64,
}

/// A shelf of disks in memory, which keeps those given back. It fails by a fault only where one of them has another size.
#[derive(Drop)]
pub struct MemShelf {
    // The names that were taken.
    places: BTreeMap<String, Place>,
    // How often a disk was taken in another size. It stands still at its end.
    faults: u64,
}

impl MemShelf {
    ghost use Rattle.disk_model.specs.Memory.{settled};
    ghost use Rattle.disk_model.specs.Places.{disk_in, emptied, place, shelf_state};

    /// A shelf that gave no disk yet.
    pub fn new(alloc: Global) -> MemShelf
        ensures unused { (name : List ℕ) → place name result ≡ None }
        ensures no_fault { (shelf_state result).faults ≡ 0 }
    {
        MemShelf {
            places: BTreeMap::new(alloc),
            faults: 0,
        }
    }

    // Whether a disk of another size was given back under a name, and isn't out.
    fn has_other_size(&self, name: &str, size: u64) -> bool
        ensures yes { result ≡ true → (old : _) × (disk_in (place name.now self.now) ≡ Some old) × (length old.present ≢ size) }
        ensures no { result ≡ false → (old : _) → disk_in (place name.now self.now) ≡ Some old → length old.present ≡ size }
    {
        match self.places.get(name) {
            Some(
                Place {
                    disk: Some(disk),
                    ..
                },
            ) => disk.size() != size,
            _ => false,
        }
    }

    // Takes the disk out of its place, with its present bytes stable.
    fn take_out(&mut self, name: &str) -> Option<MemDisk>
        ensures disk { IfSome result (λ disk. (old : _) × (disk_in (place name.now self.old) ≡ Some old) × (disk ≡ settled old)) }
        ensures out { IfSome result (λ _. place name.now self.new ≡ Some (emptied (place name.now self.old))) }
        ensures none { result ≡ None → disk_in (place name.now self.old) ≡ None }
        ensures same { result ≡ None → (n : List ℕ) → place n self.new ≡ place n self.old }
        ensures others { (n : List ℕ) → n ≢ name.now → place n self.new ≡ place n self.old }
        ensures faults { self.new.faults ≡ self.old.faults }
    {
        let place = self.places.get_mut(name)?;
        let mut disk = place.disk.take()?;
        disk.flush();
        Some(disk)
    }

    // Sees to an empty place under this name.
    fn make_empty(&mut self, alloc: Global, name: &str) -> Result<(), NoMemory>
        ensures out { OnOk result (place name.now self.new ≡ Some (emptied (place name.now self.old))) }
        ensures others { (n : List ℕ) → n ≢ name.now → place n self.new ≡ place n self.old }
        ensures none { OnErr result ((n : List ℕ) → place n self.new ≡ place n self.old) }
        ensures faults { self.new.faults ≡ self.old.faults }
    {
        if let Some(place) = self.places.get_mut(name) {
            place.disk = None;
            return Ok(());
        }
        let name = String::from_str(alloc, name)?;
        match self.places.insert(
            name,
            Place {
                disk: None,
                gives: 0,
            },
        ) {
            Ok(_) => Ok(()),
            Err(_) => Err(NoMemory),
        }
    }
}

// One more; a count stands still at its end.
fn one_more(count: u64) -> u64
    ensures rose { Rose count result }
    ensures never_falls { count ≤ result }
{
    count.saturating_add(1)
}

impl Shelf for MemShelf {
    type D = MemDisk;

    ghost use Rattle.disk_model.specs.Memory.{memory_state};
    ghost use Rattle.disk_model.specs.Places.{shelf_lawful, shelf_state};

    ghost state = { shelf_state };

    ghost lawful = { shelf_lawful };

    fn take(&mut self, alloc: Global, name: &str, size: u64) -> Result<MemDisk, ShelfError>
        requires { size < 2 ^ 32 }
        ensures taken { IfOk result (λ disk. IsTaken memory_state
            ((shelf_state self.old).given_back name.now) size (memory_state disk)) }
        ensures out { OnOk result (IsOut name.now (shelf_state self.new)) }
        ensures none { OnErr result (SamePlaces (shelf_state self.old) (shelf_state self.new)) }
        ensures kept { OnErr result (SameUnder name.now (shelf_state self.old) (shelf_state self.new)) }
        ensures unmoved { (shelf_state self.new).gives name.now ≡ (shelf_state self.old).gives name.now }
        ensures keeps { KeepsOthers (λ n. n ≡ name.now) (shelf_state self.old) (shelf_state self.new) }
        ensures failed { IsErrOf result ShelfError.Failed → Rose (shelf_state self.old).faults (shelf_state self.new).faults }

        ensures calm { ((disk : _) → (shelf_state self.old).given_back name.now disk → (memory_state disk).size ≡ size)
            → (shelf_state self.new).faults ≡ (shelf_state self.old).faults }
    {
        if self.has_other_size(name, size) {
            self.faults = one_more(self.faults);
            return Err(ShelfError::Failed);
        }
        if let Some(disk) = self.take_out(name) {
            return Ok(disk);
        }
        let disk = MemDisk::new(alloc, size)?;
        self.make_empty(alloc, name)?;
        Ok(disk)
    }

    fn give(&mut self, name: &str, disk: MemDisk) {
        if let Some(place) = self.places.get_mut(name) {
            place.disk = Some(disk);
            place.gives = one_more(place.gives);
        }
    }
}
