//! A resource as a node.
use crate::branches::Branches;
use crate::opening::disks_of;
use disk_model::{Disk, Stoppable};
use local_txn::LocalTxns;
use node_steps::Node;
use resource_store::Store;
use seata_types::{Act, Durable, Input, NodeError, OpenError, Place, Step, StoreError};
use std::alloc::Global;

/// A resource, over its two disks.
#[derive(Drop)]
pub struct Resource<D> {
    pub(crate) branches: Branches<Stoppable<D>>,
    pub(crate) down: bool,
    // The act in flight, while it is down, and how many records stood before it.
    pub(crate) flight: Option<Durable>,
    pub(crate) records: u32,
    pub(crate) left: u32,
}

impl<D: Disk> Resource<D> {
    ghost use Rattle.std.specs.Prelude.{◌≡◌, ◌<◌, true, false};
    ghost use Rattle.std.specs.Borrow.{sem};
    ghost use Rattle.disk_model.specs.Stop.{below};
    ghost use Rattle.journal_checkpoint.specs.Keeping.{active_disk, first_disk, second_disk};
    ghost use Rattle.resource_store.specs.Keeping.{twin, found_of};
    ghost use Rattle.resource_store.specs.Keeping.{is_down as store_is_down};
    ghost use Rattle.resource_core.specs.NodeStanding.{KeepsOwnRecords};
    ghost use Rattle.resource_core.specs.NodeMoving.{kept_of, Misses, Arms, ArmsWith, Boots, LendsActive};
    ghost use Rattle.resource_core.specs.Shown.{store_of, steps_left, is_down};

    /// Its store on its disks; takes no memory.
    pub fn store(&self) -> &Store<Stoppable<D>>
        requires up { is_down self.now ≡ false }
        ensures value { result.now ≡ store_of self.now }
        ensures keeps { KeepsOwnRecords D.state self.now result.now }
    {
        &self.branches.store
    }

    /// The first record that its first opening read, if there was one: whether it stands on the second disk, and its offset,
    /// which is that of a snapshot too; takes no memory.
    pub fn found(&self) -> Option<(bool, u64)>
        ensures { result ≡ found_of (store_of self.now) }
    {
        self.branches.store.found()
    }

    /// The active disk with its stop, to arm it or to read it; takes no memory. The resource stands for what it stood for only
    /// where no call changes the images or what a stop lets pass.
    pub fn disk_mut(&mut self) -> &mut Stoppable<D>
        ensures* lends { sem 𝓛 (LendsActive D.row self.entry result) }
        ensures disk { result.now ≡ active_disk (twin (store_of self.old)) }
    {
        let branches = &mut self.branches;
        branches.store.disk_mut()
    }

    /// Its two disks, in their order; takes no memory.
    pub fn into_disks(self) -> (D, D)
        ensures first { result.0 ≡ below (first_disk (twin (store_of self))) }
        ensures second { result.1 ≡ below (second_disk (twin (store_of self))) }
    {
        let Resource { branches, .. } = self;
        let Branches { store, .. } = branches;
        disks_of(store)
    }

    // A step ended without an answer. Where the disks failed, it is down with its act in flight over so many records.
    fn miss(&mut self, records: u32, error: NodeError)
        requires able { 0 < steps_left self.old }
        ensures { Misses records error self.old self.new }
    {
        if let NodeError::Failed { at } = error {
            self.down = true;
            self.flight = Some(at);
            self.records = records;
            self.left -= 1;
        }
    }

    // Lets so many writes and syncs of the active disk pass.
    fn arm_active(&mut self, calls: u32)
        ensures { Arms D.state calls self.old self.new }
    {
        self.branches.store.disk_mut().arm(calls);
    }

    // The same, where calls are given.
    fn arm_with(&mut self, calls: Option<u32>)
        ensures { ArmsWith D.state calls self.old self.new }
    {
        if let Some(calls) = calls {
            self.arm_active(calls);
        }
    }

    // The act in flight, where its record is on the disks.
    fn kept(&self) -> Option<Durable>
        ensures { result ≡ kept_of self.now }
    {
        if self.branches.store.records() > self.records {
            self.flight
        } else {
            None
        }
    }

    // Writes the record of one more boot, and is up without open tickets. Where the disks fail it is down again, with the boot
    // in flight.
    fn boot(&mut self, alloc: Global, kept: Option<Durable>) -> Result<Act, OpenError>
        requires ready { store_is_down (store_of self.old) ≡ false }
        requires down { is_down self.old ≡ true }
        ensures { Boots D.state kept self.old self.new result }
    {
        let records = self.branches.store.records();
        match self.branches.store.start(alloc) {
            Ok(()) => {
                self.branches.txns = LocalTxns::new(alloc, self.branches.store.boot());
                self.down = false;
                Ok(Act::Restarted { kept })
            }
            Err(StoreError::Failed) => {
                let at = Some(Durable::Boot);
                self.flight = at;
                self.records = records;
                Ok(Act::Down { kept, at })
            }
            Err(StoreError::Full(full)) => Err(OpenError::Full(full)),
            Err(StoreError::NoMemory) => Err(OpenError::NoMemory),
        }
    }
}

impl<D: Disk> Node for Resource<D> {
    ghost use Rattle.std.specs.Prelude.{◌≡◌, ◌<◌, ◌≤◌, true, false};
    ghost use Rattle.disk_model.specs.declared.disk.TheConstants.{LAST_PICK};
    ghost use Rattle.resource_core.specs.NodeStanding.{node_state, serves};
    ghost use Rattle.resource_core.specs.NodeStepping.{StepsBy, ArmsBy, CrashesBy, RestartsBy};
    ghost use Rattle.resource_core.specs.NodeLaws.{lawful};
    ghost use Rattle.resource_core.specs.Shown.{steps_left, is_down};

    ghost state = { node_state D.state };

    fn place(&self) -> Place {
        Place::Res(self.branches.setup.number)
    }

    // What every node promises of its calls, and that what its first opening found stays.
    fn step(&mut self, alloc: Global, input: Input, now: u64) -> Result<Step, NodeError>
        requires up { is_down self.old ≡ false }
        requires able { 0 < steps_left self.old }
        requires served { serves self.old input }
        ensures { StepsBy D.state self.old self.new input now result }
    {
        let records = self.branches.store.records();
        match self.branches.answer(alloc, &input) {
            Ok(step) => {
                drop(input);
                self.left -= 1;
                Ok(step)
            }
            Err(error) => {
                drop(input);
                self.miss(records, error);
                Err(error)
            }
        }
    }

    fn is_down(&self) -> bool {
        self.down
    }

    fn steps_left(&self) -> u32 {
        self.left
    }

    fn arm(&mut self, calls: u32)
        requires up { is_down self.old ≡ false }
        ensures { ArmsBy D.state self.old self.new calls }
    {
        self.arm_active(calls);
    }

    fn crash(&mut self)
        requires up { is_down self.old ≡ false }
        ensures { CrashesBy D.state self.old self.new }
    {
        self.down = true;
        self.flight = None;
        self.records = self.branches.store.records();
    }

    // And that a snapshot comes in place of the records where one is due before its boot.
    fn restart(
        &mut self,
        alloc: Global,
        now: u64,
        pick: u16,
        calls: Option<u32>,
    ) -> Result<Act, OpenError>
        requires down { is_down self.old ≡ true }
        requires pick { pick ≤ LAST_PICK }
        ensures { RestartsBy D.state self.old self.new pick calls now result }
    {
        if let Err(error) = self.branches.store.restart(alloc, pick) {
            return Err(error);
        }
        // A stop is armed before the boot, which is its first record.
        self.arm_with(calls);
        let kept = self.kept();
        self.boot(alloc, kept)
    }

    ghost lawful = { lawful D.state };
}
