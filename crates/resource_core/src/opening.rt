//! The opening of a resource: its two disks are read, and then its boot is written.
ghost use Rattle.std.specs.Prelude.{◌≡◌};
ghost use Rattle.disk_model.specs.Stop.{below};
ghost use Rattle.journal_checkpoint.specs.Keeping.{first_disk, second_disk};
ghost use Rattle.resource_store.specs.Keeping.{twin};
ghost use Rattle.resource_store.specs.Openings.{opening_error};

use crate::branches::Branches;
use crate::nodes::Resource;
use crate::setup::Setup;
use disk_model::{Disk, Stoppable};
use local_txn::LocalTxns;
use resource_store::Store;
use seata_types::limits::NODE_STEPS;
use seata_types::{OpenError, Place, StoreError};
use std::alloc::Global;

/// A resource whose two disks were read, and that wrote no boot yet.
#[derive(Drop)]
pub struct Loaded<D> {
    branches: Branches<Stoppable<D>>,
}

// The two disks of a store, in their order, without their stops.
pub(crate) fn disks_of<D: Disk>(store: Store<Stoppable<D>>) -> (D, D)
    ensures { result ≡ (below (first_disk (twin store)), below (second_disk (twin store))) }
{
    let (first, second) = store.into_disks();
    (first.into_inner(), second.into_inner())
}

// An error, and the disks without their stops.
fn give_back<D: Disk>(
    error: OpenError,
    first: Stoppable<D>,
    second: Stoppable<D>,
) -> (OpenError, D, D)
    ensures { result ≡ (error, below first, below second) }
{
    (error, first.into_inner(), second.into_inner())
}

// What a store's error is at an opening.
fn opening_error(error: StoreError) -> OpenError
    ensures { result ≡ opening_error error }
{
    match error {
        StoreError::Failed => OpenError::Failed,
        StoreError::Full(full) => OpenError::Full(full),
        StoreError::NoMemory => OpenError::NoMemory,
    }
}

impl<D: Disk> Resource<D> {
    ghost use Rattle.std.specs.Prelude.{◌≡◌, IfOk, IfErr};
    ghost use Rattle.disk_model.specs.Disk.{IsSettled};
    ghost use Rattle.resource_core.specs.NodeOpening.{IsSetupWithin, IsLoaded, IsNotLoaded, IsOpened, HandsBack};
    ghost use Rattle.resource_core.specs.Shown.{stands_at};

    /// Reads two disks, of the resource with this number, and puts a snapshot in place of the records where one is due. It
    /// writes no record. The disks come back where it fails.
    pub fn load(
        alloc: Global,
        first: D,
        second: D,
        place: u16,
        setup: Setup,
    ) -> Result<Loaded<D>, (OpenError, D, D)>
        requires first { IsSettled (D.state first) }
        requires second { IsSettled (D.state second) }
        requires setup { IsSetupWithin place setup }
        ensures loaded { IfOk result (IsLoaded D.state first second place setup) }
        ensures refused { IfErr result (IsNotLoaded D.state first second place setup) }
    {
        let Setup {
            schema,
            opening,
            tries,
            actions,
            locals,
        } = setup;
        let first = Stoppable::new(first);
        let second = Stoppable::new(second);
        let store = match Store::load(alloc, first, second, place, schema, opening) {
            Ok(store) => store,
            Err((error, first, second)) => return Err(give_back(error, first, second)),
        };
        let txns = LocalTxns::new(alloc, store.boot());
        let setup = resource_rules::Setup {
            number: place,
            tries,
            actions,
            locals,
        };
        let branches = Branches { setup, store, txns };
        Ok(Loaded { branches })
    }

    /// Opens two disks, of the resource with this number, and writes the record of one more boot: `load`, and then `start`.
    /// The disks come back where it fails.
    pub fn open(
        alloc: Global,
        first: D,
        second: D,
        place: u16,
        setup: Setup,
    ) -> Result<Resource<D>, (OpenError, D, D)>
        requires first { IsSettled (D.state first) }
        requires second { IsSettled (D.state second) }
        requires setup { IsSetupWithin place setup }
        ensures opened { IfOk result (IsOpened D.state first second place setup) }
        ensures at { IfOk result (λ r. stands_at r ≡ Place.Res place) }
        ensures refused { IfErr result (HandsBack D.state first second place setup) }
    {
        match Resource::load(alloc, first, second, place, setup) {
            Ok(loaded) => loaded.start(alloc),
            Err(failed) => Err(failed),
        }
    }
}

impl<D: Disk> Loaded<D> {
    ghost use Rattle.std.specs.Prelude.{◌≡◌, IfOk, IfErr};
    ghost use Rattle.resource_core.specs.NodeOpening.{IsUp, Starts, StaysUnwritten, FailsStart, loaded_at, loaded_disks};
    ghost use Rattle.resource_core.specs.Shown.{stands_at};

    /// Writes the record of one more boot. The disks come back where it fails, as they were loaded unless one of them failed.
    pub fn start(self, alloc: Global) -> Result<Resource<D>, (OpenError, D, D)>
        requires up { IsUp self }
        ensures opened { IfOk result (Starts D.state self) }
        ensures at { IfOk result (λ r. stands_at r ≡ loaded_at self) }
        ensures refused { IfErr result (FailsStart D.state self) }
        ensures unwritten { IfErr result (StaysUnwritten self) }
    {
        let Loaded { mut branches } = self;
        match branches.store.start(alloc) {
            Ok(()) => {
                branches.txns = LocalTxns::new(alloc, branches.store.boot());
                Ok(Resource {
                    branches,
                    down: false,
                    flight: None,
                    records: 0,
                    left: NODE_STEPS,
                })
            }
            Err(error) => {
                let Branches { store, .. } = branches;
                let (first, second) = store.into_disks();
                Err(give_back(opening_error(error), first, second))
            }
        }
    }

    /// Its two disks, in their order, as they were loaded; takes no memory.
    pub fn into_disks(self) -> (D, D)
        ensures { result ≡ loaded_disks self }
    {
        let Loaded { branches } = self;
        let Branches { store, .. } = branches;
        disks_of(store)
    }
}
