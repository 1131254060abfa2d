//! A coordinator's transactions on two disks.
ghost use Rattle.std.specs.Prelude.{◌≡◌, IfOk};
ghost use Rattle.session_log.specs.Records.{record_bytes, FitsRecord};

use crate::machine::SessionMachine;
use disk_model::Disk;
use durable_records::SessionRecord;
use memory_store::Store;
use seata_types::{Decision, GlobalStatus, Leg, OpenError, StoreError, Xid};
use session_memory::Memory;
use std::alloc::Global;

/// A coordinator's transactions on two disks, of a scenario with so many managers and resources.
#[derive(Drop)]
pub struct Sessions<D> {
    pub(crate) store: Store<SessionMachine, Memory, D>,
}

impl<D: Disk> Sessions<D> {
    ghost use Rattle.std.specs.Borrow.{sem};
    ghost use Rattle.std.specs.Prelude.{◌≡◌, ◌+◌, ◌≤◌, true, false, length, None, IfOk, OnOk, OnErr};
    ghost use Rattle.disk_model.specs.Disk.{IsSettled};
    ghost use Rattle.disk_model.specs.declared.disk.TheConstants.{LAST_PICK};
    ghost use Rattle.seata_types.specs.declared.limits.TheConstants.{BODY_BYTES};
    ghost use Rattle.journal_checkpoint.specs.Keeping.{active_disk, first_disk, second_disk};
    ghost use Rattle.durable_records.specs.declared.coordinators.SessionRecord.TheVariants as log;
    ghost use Rattle.durable_records.specs.Progress.{has_retrying};
    ghost use Rattle.durable_records.specs.SessionOrder.{is_counted, is_within};
    ghost use Rattle.session_memory.specs.Lookups.{status_in, xid_for};
    ghost use Rattle.session_memory.specs.Changes.{is_begin, is_finished, is_open, may_come};
    ghost use Rattle.memory_store.specs.Keeping.{IsTold};
    ghost use Rattle.memory_store.specs.Openings.{ReadsDisks, OpensDisks, ComesBack};
    ghost use Rattle.session_store.specs.Meaning.{meaning_of};
    ghost use Rattle.session_store.specs.Keeping.{store_of, managers_of, resources_of, known, twin, is_down, SameOpening, SameDisks, KeepsEach, Makes, registers, begun_record, GoesOnAs, BringsBack, LendsActive};

    /// Reads two disks, and changes no byte. The disks come back where it fails.
    pub fn read(
        alloc: Global,
        first: D,
        second: D,
        managers: u16,
        resources: u16,
    ) -> Result<Sessions<D>, (OpenError, D, D)>
        requires first { IsSettled (D.state first) }
        requires second { IsSettled (D.state second) }

        // It keeps each list of records that the bytes stand for, and bytes that stand for records are never damaged.
        ensures stands { KeepsEach D.state managers resources first second result }
        // The damage is where the bytes, a record or the order of records has it.
        ensures reads { ReadsDisks D.state (meaning_of managers resources) store_of
            first second result }
    {
        let machine = SessionMachine {
            managers,
            resources,
        };
        match Store::read(alloc, machine, first, second) {
            Ok(store) => Ok(Sessions { store }),
            Err(failed) => Err(failed),
        }
    }

    /// Reads two disks, and puts a snapshot in place of the records where these take more than half of a disk, fewer than
    /// 2^31 acts stand, and no transaction has more than 65,535 branches. It writes nothing else.
    pub fn open(
        alloc: Global,
        first: D,
        second: D,
        managers: u16,
        resources: u16,
    ) -> Result<Sessions<D>, (OpenError, D, D)>
        requires first { IsSettled (D.state first) }
        requires second { IsSettled (D.state second) }

        ensures stands { KeepsEach D.state managers resources first second result }
        // A crash after it, however it ended, leaves what stands for the same records.
        ensures opens { OpensDisks D.state (meaning_of managers resources) store_of
            (GoesOnAs managers resources) first second result }
    {
        let machine = SessionMachine {
            managers,
            resources,
        };
        match Store::open(alloc, machine, first, second) {
            Ok(store) => Ok(Sessions { store }),
            Err(failed) => Err(failed),
        }
    }

    /// Adds a record of the scenario that may come.
    ///
    /// `Full` and `NoMemory` come before any call of a disk. After `Failed` it is down, and is to be restarted.
    pub fn add(&mut self, alloc: Global, item: &SessionRecord) -> Result<(), StoreError>
        requires up { is_down self.old ≡ false }
        requires allowed { may_come (known self.old) item.now ≡ true }
        requires within { is_within (managers_of self.old) (resources_of self.old) item.now ≡ true }
        requires fits { FitsRecord item.now }
        requires small { length (record_bytes item.now) ≤ BODY_BYTES }
        ensures { Makes D.state item.now result self.old self.new }
    {
        let Ok(body) = session_log::write_record(alloc, item) else {
            return Err(StoreError::NoMemory);
        };
        self.store.add(alloc, item, &body)
    }

    // Adds a record that registers no branch.
    fn make(&mut self, alloc: Global, item: SessionRecord) -> Result<(), StoreError>
        requires up { is_down self.old ≡ false }
        requires allowed { may_come (known self.old) item ≡ true }
        requires within { is_within (managers_of self.old) (resources_of self.old) item ≡ true }
        requires fits { FitsRecord item }
        requires short { registers item ≡ false }
        ensures { Makes D.state item result self.old self.new }
    {
        let made = self.add(alloc, &item);
        drop(item);
        made
    }

    /// A manager's transaction begins, under the next number. The moment and the timeout are in ticks.
    pub fn begin(
        &mut self,
        alloc: Global,
        manager: u16,
        now: u64,
        timeout: u64,
    ) -> Result<Xid, StoreError>
        requires up { is_down self.old ≡ false }
        requires manager { is_counted (managers_of self.old) manager ≡ true }
        requires new { xid_for (known self.old) manager ≡ None }
        ensures xid { IfOk result (λ xid. xid.0 ≡ (known self.old).begun + 1) }
        ensures made { Makes D.state (begun_record (known self.old) manager now timeout) result
            self.old self.new }
    {
        let xid = self.store.memory().next_xid();
        let item = SessionRecord::Begun {
            xid,
            manager,
            begun: now,
            timeout,
        };
        match self.make(alloc, item) {
            Ok(()) => Ok(xid),
            Err(error) => Err(error),
        }
    }

    /// A transaction is decided, and its status is the answer.
    pub fn decide(
        &mut self,
        alloc: Global,
        xid: Xid,
        how: Decision,
    ) -> Result<GlobalStatus, StoreError>
        requires up { is_down self.old ≡ false }
        requires begin { is_begin (status_in (known self.old) xid.0) ≡ true }
        ensures status { IfOk result (λ status. status ≡ status_in (known self.new) xid.0) }
        ensures made { Makes D.state (log.Decided xid how) result self.old self.new }
    {
        let item = SessionRecord::Decided { xid, how };
        match self.make(alloc, item) {
            Ok(()) => Ok(self.store.memory().status(xid)),
            Err(error) => Err(error),
        }
    }

    /// A branch of a transaction in its second phase is done.
    pub fn branch_end(&mut self, alloc: Global, leg: Leg) -> Result<(), StoreError>
        requires up { is_down self.old ≡ false }
        requires open { is_open (known self.old) leg.xid.0 leg.branch.0 ≡ true }
        ensures { Makes D.state (log.Ended leg.xid leg.branch) result self.old self.new }
    {
        let item = SessionRecord::Ended {
            xid: leg.xid,
            branch: leg.branch,
        };
        self.make(alloc, item)
    }

    /// A branch is to be asked again, which changes the transaction's status.
    pub fn retrying(&mut self, alloc: Global, xid: Xid) -> Result<(), StoreError>
        requires up { is_down self.old ≡ false }
        requires changes { has_retrying (status_in (known self.old) xid.0) ≡ true }
        ensures { Makes D.state (log.Retrying xid) result self.old self.new }
    {
        let item = SessionRecord::Retrying { xid };
        self.make(alloc, item)
    }

    /// A branch of a transaction in its second phase failed for good, at this statement, 0 for none.
    pub fn failed(&mut self, alloc: Global, leg: Leg, stmt: u16) -> Result<(), StoreError>
        requires up { is_down self.old ≡ false }
        requires open { is_open (known self.old) leg.xid.0 leg.branch.0 ≡ true }
        ensures { Makes D.state (log.Failed leg.xid leg.branch stmt) result self.old self.new }
    {
        let item = SessionRecord::Failed {
            xid: leg.xid,
            branch: leg.branch,
            stmt,
        };
        self.make(alloc, item)
    }

    /// A transaction whose branches are all ended is finished.
    pub fn end(&mut self, alloc: Global, xid: Xid) -> Result<(), StoreError>
        requires up { is_down self.old ≡ false }
        requires ended { may_come (known self.old) (log.Finished xid) ≡ true }
        ensures { Makes D.state (log.Finished xid) result self.old self.new }
    {
        let item = SessionRecord::Finished { xid };
        self.make(alloc, item)
    }

    /// A finished transaction is known no more; its number and manager are kept.
    pub fn forget(&mut self, alloc: Global, xid: Xid) -> Result<(), StoreError>
        requires up { is_down self.old ≡ false }
        requires finished { is_finished (status_in (known self.old) xid.0) ≡ true }
        ensures { Makes D.state (log.Forgot xid) result self.old self.new }
    {
        let item = SessionRecord::Forgot { xid };
        self.make(alloc, item)
    }

    /// Takes no more records until it is restarted, as after a crash.
    pub fn fall(&mut self)
        ensures disks { SameDisks self.old self.new }
        ensures down { is_down self.new ≡ true }
        ensures known { known self.new ≡ known self.old }
        ensures opening { SameOpening self.old self.new }
    {
        self.store.fall();
    }

    /// Comes back after a crash, in place: both disks restart with this pick and are read, and a snapshot is put in place of
    /// the records as by `open`. After an error it is down, and knows what it knew.
    pub fn restart(&mut self, alloc: Global, pick: u16) -> Result<(), OpenError>
        requires { pick ≤ LAST_PICK }

        // It keeps each list of records that the pair of images that came back stands for.
        ensures back { OnOk result (IsTold (D.state (first_disk (twin self.old))) →
            IsTold (D.state (second_disk (twin self.old))) →
            BringsBack D.state pick self.old self.new) }
        // A crash after it, however it ended, leaves what stands for the same records as a pair of images from before.
        ensures comes { ComesBack D.state
            (meaning_of (managers_of self.old) (resources_of self.old)) twin
            (GoesOnAs (managers_of self.old) (resources_of self.old)) pick self.old self.new result }
        ensures knows { OnErr result (known self.new ≡ known self.old) }
        ensures opening { SameOpening self.old self.new }
    {
        self.store.restart(alloc, pick)
    }

    /// The active disk, to arm it or to read its counts. What is kept stays only where no call changes the images.
    pub fn disk_mut(&mut self) -> &mut D
        ensures* lends { sem 𝓛 (LendsActive D.row self.entry result) }
        ensures disk { result.now ≡ active_disk (twin self.old) }
    {
        self.store.active_mut()
    }

    /// What it knows, and the two disks, in their order.
    pub fn into_parts(self) -> (Memory, D, D)
        ensures memory { result.0 ≡ known self }
        ensures first { result.1 ≡ first_disk (twin self) }
        ensures second { result.2 ≡ second_disk (twin self) }
    {
        self.store.into_parts()
    }

    /// The two disks, in their order.
    pub fn into_disks(self) -> (D, D)
        ensures { result ≡ (first_disk (twin self), second_disk (twin self)) }
    {
        self.store.into_disks()
    }
}
