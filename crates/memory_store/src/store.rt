//! A memory on two disks.
use crate::machine::StateMachine;
use crate::reading::{first_place, read_found, store_error};
use crate::settling::settle;
use disk_journal::AppendError;
use disk_model::{Disk, Failed};
use journal_checkpoint::{Found, Twin};
use seata_types::{Full, NoMemory, OpenError, StoreError};
use std::alloc::Global;

/// A memory on two disks.
#[derive(Drop)]
pub struct Store<M, K, D> {
    // The settings of the memory.
    machine: M,
    memory: K,
    twin: Twin<D>,
    // The first record that the opening read: whether it stands on the second disk, and its offset.
    found: Option<(bool, u64)>,
}

impl<K: Drop, M: StateMachine<Memory = K> + Drop, D: Disk> Store<M, K, D> {
    ghost use Rattle.std.specs.Prelude.{◌≡◌, ◌⊎◌, ◌+◌, ◌^◌, ◌<◌, ◌≤◌, ℕ, true, false, is_err, List, length, Some, IfOk, IfErr, OnOk, OnErr};
    ghost use Rattle.std.specs.Borrow.{sem};
    ghost use Rattle.disk_model.specs.Disk.{IsSettled, present};
    ghost use Rattle.disk_model.specs.declared.disk.TheConstants.{LAST_PICK};
    ghost use Rattle.seata_types.specs.declared.limits.TheConstants.{BODY_BYTES};
    ghost use Rattle.journal_checkpoint.specs.Extents.{longer};
    ghost use Rattle.journal_checkpoint.specs.Images.{PairStandsFor, LeavesPairs, Either, with_record};
    ghost use Rattle.journal_checkpoint.specs.Keeping.{KeepsPair, active_disk, first_disk, second_disk, disks, twin_extent};
    ghost use Rattle.memory_store.specs.Settling.{GoesOn};
    ghost use Rattle.memory_store.specs.Adding.{Adds};
    ghost use Rattle.memory_store.specs.Openings.{ReadsDisks, OpensDisks, ComesBack, TakesOver};
    ghost use Rattle.memory_store.specs.Keeping.{machine_of, memory_of, twin_of, found_of, is_down, Keeps, Takes, Falls, IsAtEnd, IsFullFor, HasRoomFor, IsOf, IsBack, IsTold, LendsMemory, LendsActive};

    /// Reads two disks, and changes no byte. The disks come back where it fails: `Damaged` where their bytes hold nothing,
    /// `NoMemory` where there is none for what they hold or for appends.
    pub fn read(
        alloc: Global,
        machine: M,
        first: D,
        second: D,
    ) -> Result<Store<M, K, D>, (OpenError, D, D)>
        requires first { IsSettled (D.state first) }
        requires second { IsSettled (D.state second) }

        ensures reads { ReadsDisks D.state (M.meaning machine) (λ store. store) first second
            result }
        ensures machine { IfOk result (λ store. machine_of store ≡ machine) }
        ensures sound { IfOk result (λ store. (M.meaning machine).IsSound (memory_of store)) }
    {
        let (_one, _two) = (first.size(), second.size());
        match Twin::open(alloc, first, second) {
            Err((error, first, second)) => Err((store_error(error), first, second)),
            Ok((twin, found)) => {
                let second = twin.is_second();
                match read_found(alloc, &machine, second, &found) {
                    Ok(memory) => Ok(Store {
                        machine,
                        memory,
                        twin,
                        found: first_place(second, &found),
                    }),
                    Err(error) => {
                        let (first, second) = twin.into_disks();
                        Err((error, first, second))
                    }
                }
            }
        }
    }

    /// Reads two disks, and puts a snapshot in place of the records where these take more than half of a disk, fewer than
    /// `ACTS` acts stand, and a snapshot can be written. It writes nothing else.
    pub fn open(
        alloc: Global,
        machine: M,
        first: D,
        second: D,
    ) -> Result<Store<M, K, D>, (OpenError, D, D)>
        requires first { IsSettled (D.state first) }
        requires second { IsSettled (D.state second) }

        ensures opens { OpensDisks D.state (M.meaning machine) (λ store. store)
            (GoesOn (M.meaning machine)) first second result }
        ensures machine { IfOk result (λ store. machine_of store ≡ machine) }
        ensures sound { IfOk result (λ store. (M.meaning machine).IsSound (memory_of store)) }
    {
        let mut store = match Store::read(alloc, machine, first, second) {
            Ok(store) => store,
            Err(failed) => return Err(failed),
        };
        match settle(alloc, &store.machine, &mut store.twin, &store.memory) {
            Ok(()) => Ok(store),
            Err(error) => {
                let (first, second) = store.into_disks();
                Err((error, first, second))
            }
        }
    }

    /// Whether a record with a body of so many bytes fits on the active disk. At `Ok` one more act can be counted too.
    pub fn fits(&self, body: usize) -> Result<(), Full>
        requires { body ≤ BODY_BYTES }
        ensures ok { OnOk result (HasRoomFor D.state body self.now) }
        ensures room { OnOk result
            ((M.meaning (machine_of self.now)).acts (memory_of self.now) + 1 < 2 ^ 32) }
        // It is exact, since no disk has room for as many records as can be counted.
        ensures full { IfErr result (λ full. IsFullFor D.state body self.now full ⊎
            IsAtEnd (M.meaning (machine_of self.now)) self.now) }
        ensures exact { (found : Found) →
            Keeps D.state (M.meaning (machine_of self.now)) found self.now →
            IfErr result (IsFullFor D.state body self.now) }
    {
        if let Err(full) = self.twin.fits(body) {
            return Err(full);
        }
        if self.machine.acts(&self.memory) == u32::MAX {
            return Err(Full {
                needed: u64::MAX,
                size: u64::MAX,
            });
        }
        Ok(())
    }

    /// Takes in a record that may come: the disks have it behind what they held, and the memory knows it.
    ///
    /// `Full` and `NoMemory` come before any call of a disk. After `Failed` the store is down, and is to be restarted; its
    /// memory then has the record, and the disks may have it.
    pub fn add(&mut self, alloc: Global, item: &M::Record, body: &[u8]) -> Result<(), StoreError>
        requires up { is_down self.old ≡ false }
        requires allowed { (M.meaning (machine_of self.old)).may_come (memory_of self.old)
            item.now ≡ true }
        requires is { (M.meaning (machine_of self.old)).record_of body.now ≡ Some item.now }
        requires small { length body.now ≤ BODY_BYTES }

        ensures { Adds D.state (M.meaning (machine_of self.old)) item.now body.now result self.old
            self.new }
    {
        if let Err(full) = self.fits(body.len()) {
            return Err(StoreError::Full(full));
        }
        if let Err(NoMemory) = self.machine.apply(alloc, &mut self.memory, item) {
            return Err(StoreError::NoMemory);
        }
        match self.append(body) {
            Ok(()) => Ok(()),
            Err(Failed) => Err(StoreError::Failed),
        }
    }

    /// `add` of a record that is of no more use, which the memory keeps without a copy.
    ///
    /// `Full` and `NoMemory` come before any call of a disk. After `Failed` the store is down, and is to be restarted; its
    /// memory then has the record, and the disks may have it.
    pub fn take(&mut self, alloc: Global, item: M::Record, body: &[u8]) -> Result<(), StoreError>
        requires up { is_down self.old ≡ false }
        requires allowed { (M.meaning (machine_of self.old)).may_come (memory_of self.old)
            item ≡ true }
        requires is { (M.meaning (machine_of self.old)).record_of body.now ≡ Some item }
        requires small { length body.now ≤ BODY_BYTES }

        ensures { Adds D.state (M.meaning (machine_of self.old)) item body.now result self.old
            self.new }
    {
        if let Err(full) = self.fits(body.len()) {
            drop(item);
            return Err(StoreError::Full(full));
        }
        if let Err(NoMemory) = self.machine.take(alloc, &mut self.memory, item) {
            return Err(StoreError::NoMemory);
        }
        match self.append(body) {
            Ok(()) => Ok(()),
            Err(_) => Err(StoreError::Failed),
        }
    }

    /// Puts a record on the disks that the memory knows already, by a call of the owner's own: `fits`, then a change through
    /// `memory_mut`, then this. After `Failed` the store is down, and is to be restarted.
    pub fn append(&mut self, body: &[u8]) -> Result<(), Failed>
        requires up { is_down self.old ≡ false }
        requires small { length body.now ≤ BODY_BYTES }
        requires fits { HasRoomFor D.state (length body.now) self.old }

        ensures acknowledged { OnOk result ((found : Found) →
            KeepsPair D.state found (twin_of self.old) →
            KeepsPair D.state (with_record found body.now) (twin_of self.new)) }
        ensures any_moment { (found : Found) → KeepsPair D.state found (twin_of self.old) →
            LeavesPairs (disks D.state (twin_of self.old)) (disks D.state (twin_of self.new))
            (Either found (with_record found body.now)) }
        ensures not_begun { (found : Found) → KeepsPair D.state found (twin_of self.old) →
            (calls : ℕ) → (D.state (active_disk (twin_of self.old))).counts.left ≡ Some calls →
            calls < 2 → LeavesPairs (disks D.state (twin_of self.old))
            (disks D.state (twin_of self.new)) (PairStandsFor found) }

        ensures took { OnOk result (Takes D.state (twin_of self.old) (twin_of self.new)) }
        ensures extent { OnOk result
            (twin_extent (twin_of self.new) ≡ longer (length body.now)
            (twin_extent (twin_of self.old))) }
        ensures failed { OnErr result (Falls D.state (twin_of self.old) (twin_of self.new)) }
        ensures down { is_down self.new ≡ is_err result }
        ensures memory { memory_of self.new ≡ memory_of self.old }
        ensures machine { machine_of self.new ≡ machine_of self.old }
        ensures found { found_of self.new ≡ found_of self.old }
    {
        match self.twin.append(body) {
            Ok(()) => Ok(()),
            Err(_) => Err(Failed),
        }
    }

    /// Takes no more records until it is restarted, as after a crash.
    pub fn fall(&mut self)
        ensures first { first_disk (twin_of self.new) ≡ first_disk (twin_of self.old) }
        ensures second { second_disk (twin_of self.new) ≡ second_disk (twin_of self.old) }
        ensures down { is_down self.new ≡ true }
        ensures memory { memory_of self.new ≡ memory_of self.old }
        ensures machine { machine_of self.new ≡ machine_of self.old }
        ensures found { found_of self.new ≡ found_of self.old }
    {
        self.twin.fall();
    }

    /// Comes back after a crash, in place: both disks restart with this pick and are read, and a snapshot is put in place of
    /// the records as by `open`. After an error it is down, with the memory from before.
    pub fn restart(&mut self, alloc: Global, pick: u16) -> Result<(), OpenError>
        requires { pick ≤ LAST_PICK }

        // What it knows is exactly what the pair of images that came back holds.
        ensures back { OnOk result (IsTold (D.state (first_disk (twin_of self.old))) →
            IsTold (D.state (second_disk (twin_of self.old))) →
            IsBack D.state (M.meaning (machine_of self.old)) pick self.old self.new) }
        ensures comes { ComesBack D.state (M.meaning (machine_of self.old)) twin_of
            (GoesOn (M.meaning (machine_of self.old))) pick self.old self.new result }
        ensures sound { OnOk result
            ((M.meaning (machine_of self.old)).IsSound (memory_of self.new)) }
        ensures memory { OnErr result (memory_of self.new ≡ memory_of self.old) }
        ensures machine { machine_of self.new ≡ machine_of self.old }
        ensures found { found_of self.new ≡ found_of self.old }
    {
        let found = match self.twin.restart(alloc, pick) {
            Ok(found) => found,
            Err(error) => return Err(store_error(error)),
        };
        match self.recover(alloc, &found) {
            Ok(()) => Ok(()),
            Err(error) => {
                self.twin.fall();
                Err(error)
            }
        }
    }

    // Takes over what its disks hold, as they were read.
    fn recover(&mut self, alloc: Global, found: &Found) -> Result<(), OpenError>
        requires up { is_down self.old ≡ false }
        ensures ok { OnOk result ((a b : List ℕ) →
            present (D.state (first_disk (twin_of self.old))) ≡ Some a →
            present (D.state (second_disk (twin_of self.old))) ≡ Some b →
            PairStandsFor found.now a b → KeepsPair D.state found.now (twin_of self.old) →
            IsOf D.state (M.meaning (machine_of self.old)) a b self.new) }
        ensures over { TakesOver D.state (M.meaning (machine_of self.old)) found.now
            (twin_of self.old) (twin_of self.new) result }
        ensures sound { OnOk result
            ((M.meaning (machine_of self.old)).IsSound (memory_of self.new)) }
        ensures memory { OnErr result (memory_of self.new ≡ memory_of self.old) }
        ensures up { OnOk result (is_down self.new ≡ false) }
        ensures machine { machine_of self.new ≡ machine_of self.old }
        ensures found { found_of self.new ≡ found_of self.old }
    {
        let second = self.twin.is_second();
        let memory = match read_found(alloc, &self.machine, second, found) {
            Ok(memory) => memory,
            Err(error) => return Err(error),
        };
        match settle(alloc, &self.machine, &mut self.twin, &memory) {
            Ok(()) => {
                self.memory = memory;
                Ok(())
            }
            Err(error) => Err(error),
        }
    }

    /// Whether a call failed, or `fall` was called. Then it takes no more records until it is restarted.
    pub fn is_down(&self) -> bool
        ensures { result ≡ is_down self.now }
    {
        self.twin.is_down()
    }

    /// What it knows.
    pub fn memory(&self) -> &K
        ensures { result.now ≡ memory_of self.now }
    {
        &self.memory
    }

    /// What it knows, to be changed by a record that `append` then puts on the disks.
    pub fn memory_mut(&mut self) -> &mut K
        ensures* lends { sem 𝓛 (LendsMemory M.row K.row D.row self.entry result) }
        ensures memory { result.now ≡ memory_of self.old }
    {
        &mut self.memory
    }

    /// The settings of its memory.
    pub fn machine(&self) -> &M
        ensures { result.now ≡ machine_of self.now }
    {
        &self.machine
    }

    /// How many records were read and added, the acts of the snapshot included.
    pub fn records(&self) -> u32
        ensures { result ≡ (M.meaning (machine_of self.now)).acts (memory_of self.now) }
    {
        self.machine.acts(&self.memory)
    }

    /// The first record that the opening read, if there was one: whether it stands on the second disk, and its offset, which
    /// is that of a snapshot too.
    pub fn found(&self) -> Option<(bool, u64)>
        ensures { result ≡ found_of self.now }
    {
        self.found
    }

    /// The active disk, to arm it or to read its counts. The store keeps what its disks hold only where no call changes the
    /// images.
    pub fn active_mut(&mut self) -> &mut D
        ensures* lends { sem 𝓛 (LendsActive M.row K.row D.row self.entry result) }
        ensures disk { result.now ≡ active_disk (twin_of self.old) }
    {
        self.twin.active_mut()
    }

    /// What it knows, and the two disks, in their order.
    pub fn into_parts(self) -> (K, D, D)
        ensures memory { result.0 ≡ memory_of self }
        ensures first { result.1 ≡ first_disk (twin_of self) }
        ensures second { result.2 ≡ second_disk (twin_of self) }
    {
        let Store { memory, twin, .. } = self;
        let (first, second) = twin.into_disks();
        (memory, first, second)
    }

    /// The two disks, in their order.
    pub fn into_disks(self) -> (D, D)
        ensures { result ≡ (first_disk (twin_of self), second_disk (twin_of self)) }
    {
        let Store { twin, .. } = self;
        twin.into_disks()
    }
}
