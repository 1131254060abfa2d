//! A resource's store on two disks.
ghost use Rattle.std.specs.Prelude.{◌≡◌};
ghost use Rattle.resource_store.specs.Openings.{opening_error};

use crate::machine::ResourceMachine;
use disk_model::Disk;
use durable_records::ResourceRecord;
use local_tables::{Schema, Tables};
use local_txn::OpenTxn;
use resource_memory::Memory;
use seata_types::{Duplicate, Full, Image, Leg, List, OpenError, Row, StoreError, Text, Xid};
use std::alloc::Global;
use tcc_fence::Fence;
use undo_log::UndoLog;

/// Where boots can't be counted in four bytes, which a store that keeps what its disks hold never comes to.
const UNCOUNTED: Full = Full {
    needed: u64::MAX,
    size: u64::MAX,
};

/// What a resource knows, on two disks.
#[derive(Drop)]
pub struct Store<D> {
    kept: memory_store::Store<ResourceMachine, Memory, D>,
}

impl<D: Disk> Store<D> {
    ghost use Rattle.std.specs.Borrow.{sem};
    ghost use Rattle.std.specs.Prelude.{◌≡◌, ◌⊎◌, ◌≤◌, ℕ, true, false, All, List as Items, Some, IfOk, IfErr, IfSome, OnOk, OnErr};
    ghost use Rattle.disk_model.specs.Disk.{IsSettled, HasCause, present};
    ghost use Rattle.disk_model.specs.declared.disk.TheConstants.{LAST_PICK};
    ghost use Rattle.byte_fields.specs.Parts.{FitsNamedRow};
    ghost use Rattle.journal_checkpoint.specs.Keeping.{active_disk, first_disk, second_disk};
    ghost use Rattle.local_tables.specs.Rows.{IsOpening};
    ghost use Rattle.durable_records.specs.declared.resources.ResourceRecord.{ResourceRecord as Record};
    ghost use Rattle.durable_records.specs.declared.resources.ResourceRecord.TheVariants as log;
    ghost use Rattle.memory_store.specs.Settling.{RunsOn};
    ghost use Rattle.memory_store.specs.Keeping.{FindsFirst, IsTold};
    ghost use Rattle.memory_store.specs.Openings.{ReadsDisks, OpensDisks, ComesBack};
    ghost use Rattle.resource_store.specs.Openings.{IsUndamaged, IsBootDamage};
    ghost use Rattle.resource_memory.specs.Changes.{may_come};
    ghost use Rattle.resource_memory.specs.Keeping.{IsKept};
    ghost use Rattle.resource_memory.specs.Lookups.{tried_leg};
    ghost use Rattle.resource_store.specs.Meaning.{setting, meaning_of};
    ghost use Rattle.resource_store.specs.Standing.{StandsForRecords};
    ghost use Rattle.resource_store.specs.Answers.{Does, Leaves};
    ghost use Rattle.resource_store.specs.Keeping.{store_of, setting_of, known, twin, found_of, is_down, KeepsEach, Changes, IsTaken, boot_record, SameDisks, IsNoDamage, GoesOnAs, GoesOnWithBoot, BootsAs, BootsFrom, BringsBack, first_after, second_after, LendsActive, StandsAlways};

    /// Reads two disks, and changes no byte. The disks come back where it fails.
    pub fn read(
        alloc: Global,
        first: D,
        second: D,
        resource: u16,
        schema: Schema,
        opening: List<(Text, Row)>,
    ) -> Result<Store<D>, (OpenError, D, D)>
        requires first { IsSettled (D.state first) }
        requires second { IsSettled (D.state second) }
        requires opens { IsOpening resource schema opening }
        requires fits { All FitsNamedRow opening }

        // It keeps each list of records that the bytes stand for, and bytes that stand for records are never damaged.
        ensures stands { KeepsEach D.state (setting resource schema opening) first second result }
        // The damage is where the bytes, a record or the order of records has it.
        ensures reads { ReadsDisks D.state (meaning_of (setting resource schema opening)) store_of
            first second result }
    {
        let machine = ResourceMachine::new(resource, schema, opening);
        match memory_store::Store::read(alloc, machine, first, second) {
            Ok(kept) => Ok(Store { kept }),
            Err(failed) => Err(failed),
        }
    }

    /// Reads two disks, and puts a snapshot in place of the records where these take more than half of a disk and fewer than
    /// 2^31 acts stand. It writes nothing else.
    pub fn load(
        alloc: Global,
        first: D,
        second: D,
        resource: u16,
        schema: Schema,
        opening: List<(Text, Row)>,
    ) -> Result<Store<D>, (OpenError, D, D)>
        requires first { IsSettled (D.state first) }
        requires second { IsSettled (D.state second) }
        requires opens { IsOpening resource schema opening }
        requires fits { All FitsNamedRow opening }

        ensures stands { KeepsEach D.state (setting resource schema opening) first second result }
        // A crash after it, however it ended, leaves what stands for the same records.
        ensures opens { OpensDisks D.state (meaning_of (setting resource schema opening)) store_of
            (GoesOnAs (setting resource schema opening)) first second result }
        ensures sound { IfOk result
            (λ s. (meaning_of (setting resource schema opening)).IsSound (known s)) }
    {
        let machine = ResourceMachine::new(resource, schema, opening);
        match memory_store::Store::open(alloc, machine, first, second) {
            Ok(kept) => Ok(Store { kept }),
            Err(failed) => Err(failed),
        }
    }

    /// `load`, and then the record of one more boot. The disks come back where it fails.
    pub fn open(
        alloc: Global,
        first: D,
        second: D,
        resource: u16,
        schema: Schema,
        opening: List<(Text, Row)>,
    ) -> Result<Store<D>, (OpenError, D, D)>
        requires first { IsSettled (D.state first) }
        requires second { IsSettled (D.state second) }
        requires opens { IsOpening resource schema opening }
        requires fits { All FitsNamedRow opening }

        ensures keeps { IfOk result (λ s. (rs : Items Record) (a b : Items ℕ) →
            present (D.state first) ≡ Some a → present (D.state second) ≡ Some b →
            StandsForRecords (setting resource schema opening) rs a b →
            BootsAs D.state (setting resource schema opening) rs s) }
        // Before the boot the records past the snapshot take at most half of the disk, unless no snapshot can be put in their place.
        ensures opened { IfOk result (λ s. (a b : Items ℕ) → present (D.state first) ≡ Some a →
            present (D.state second) ≡ Some b →
            BootsFrom D.state (setting resource schema opening) a b s) }
        ensures place { IfOk result (λ s. (a b : Items ℕ) → present (D.state first) ≡ Some a →
            present (D.state second) ≡ Some b → FindsFirst a b s.kept) }
        ensures recovers { IfErr result (λ failed. (rs : Items Record) (a b : Items ℕ) →
            present (D.state first) ≡ Some a → present (D.state second) ≡ Some b →
            StandsForRecords (setting resource schema opening) rs a b →
            IsUndamaged (D.state failed.1) (D.state failed.2) failed.0) }
        ensures damaged { IfErr result (λ failed. (a b : Items ℕ) →
            present (D.state first) ≡ Some a → present (D.state second) ≡ Some b →
            IsBootDamage (meaning_of (setting resource schema opening)) a b failed.0) }
        // A crash after it, however it ended, leaves what stands for the same records, with the boot or without.
        ensures images { (a b c d : Items ℕ) → present (D.state first) ≡ Some a →
            present (D.state second) ≡ Some b → (D.state (first_after result)).may_leave c →
            (D.state (second_after result)).may_leave d →
            GoesOnWithBoot (setting resource schema opening) a b c d }
        ensures failed { IfErr result (λ failed. failed.0 ≡ OpenError.Failed →
            HasCause (D.state first).counts (D.state failed.1).counts ⊎
            HasCause (D.state second).counts (D.state failed.2).counts) }
        ensures first_disk { RunsOn (D.state first) (D.state (first_after result)) }
        ensures second_disk { RunsOn (D.state second) (D.state (second_after result)) }

        ensures sound { IfOk result
            (λ s. (meaning_of (setting resource schema opening)).IsSound (known s)) }
        ensures setting { IfOk result (λ s. setting_of s ≡ setting resource schema opening) }
        ensures up { IfOk result (λ s. is_down s ≡ false) }
    {
        let mut store = match Store::load(alloc, first, second, resource, schema, opening) {
            Ok(store) => store,
            Err(failed) => return Err(failed),
        };
        match store.start(alloc) {
            Ok(()) => Ok(store),
            Err(error) => {
                let (first, second) = store.into_disks();
                Err((opening_error(error), first, second))
            }
        }
    }

    /// Adds the record of one more boot.
    pub fn start(&mut self, alloc: Global) -> Result<(), StoreError>
        requires up { is_down self.old ≡ false }
        ensures { Changes D.state (boot_record (known self.old)) result self.old self.new }
    {
        let Some(number) = self.boot().checked_add(1) else {
            return Err(StoreError::Full(UNCOUNTED));
        };
        self.add(alloc, ResourceRecord::Boot { number })
    }

    /// Whether a record may come: what each change asks of what is known, of its branch and of its images and reads. Takes no
    /// memory.
    pub fn allows(&self, item: &ResourceRecord) -> bool
        ensures { result ≡ may_come (known self.now) item.now }
    {
        self.kept.memory().allows(item)
    }

    /// Adds a record that may come.
    pub fn add(&mut self, alloc: Global, item: ResourceRecord) -> Result<(), StoreError>
        requires up { is_down self.old ≡ false }
        requires taken { IsTaken item self.old }
        ensures { Changes D.state item result self.old self.new }
    {
        let Ok(body) = resource_log::write_record(alloc, &item) else {
            drop(item);
            return Err(StoreError::NoMemory);
        };
        self.kept.take(alloc, item, &body)
    }

    /// Adds the record that an answer asks for, if it asks for one. Without one nothing changes, and nothing fails.
    pub fn settle(&mut self, alloc: Global, asked: Option<ResourceRecord>) -> Result<(), StoreError>
        requires up { is_down self.old ≡ false }
        requires taken { IfSome asked (λ r. IsTaken r self.old) }
        ensures does { Does D.state asked result self.old self.new }
        ensures leaves { Leaves D.state result self.old self.new }
    {
        match asked {
            Some(item) => self.add(alloc, item),
            None => Ok(()),
        }
    }

    /// A branch without an undo record or a marker commits what its open local transaction did.
    pub fn commit_at(&mut self, alloc: Global, leg: Leg, txn: &OpenTxn) -> Result<(), StoreError>
        requires up { is_down self.old ≡ false }
        requires taken { IsTaken
            (log.Committed leg.xid leg.branch txn.now.call txn.now.images txn.now.reads) self.old }
        ensures { Changes D.state
            (log.Committed leg.xid leg.branch txn.now.call txn.now.images txn.now.reads) result
            self.old self.new }
    {
        let Ok(images) = txn.images.copy(alloc) else {
            return Err(StoreError::NoMemory);
        };
        let Ok(reads) = txn.reads.copy(alloc) else {
            return Err(StoreError::NoMemory);
        };
        let item = ResourceRecord::Committed {
            xid: leg.xid,
            branch: leg.branch,
            call: txn.call,
            images,
            reads,
        };
        self.add(alloc, item)
    }

    /// The rows of a branch's undo record are put back, and the record is taken out.
    pub fn undo(&mut self, alloc: Global, leg: Leg) -> Result<(), StoreError>
        requires up { is_down self.old ≡ false }
        requires taken { IsTaken (log.Undone leg.xid leg.branch) self.old }
        ensures { Changes D.state (log.Undone leg.xid leg.branch) result self.old self.new }
    {
        let item = ResourceRecord::Undone {
            xid: leg.xid,
            branch: leg.branch,
        };
        self.add(alloc, item)
    }

    /// A branch's undo record is taken out.
    pub fn clear(&mut self, alloc: Global, leg: Leg) -> Result<(), StoreError>
        requires up { is_down self.old ≡ false }
        requires taken { IsTaken (log.Cleared leg.xid leg.branch) self.old }
        ensures { Changes D.state (log.Cleared leg.xid leg.branch) result self.old self.new }
    {
        let item = ResourceRecord::Cleared {
            xid: leg.xid,
            branch: leg.branch,
        };
        self.add(alloc, item)
    }

    /// A branch without an undo record or a marker is marked as rolled back.
    pub fn mark(&mut self, alloc: Global, leg: Leg) -> Result<(), StoreError>
        requires up { is_down self.old ≡ false }
        requires taken { IsTaken (log.Marked leg.xid leg.branch) self.old }
        ensures { Changes D.state (log.Marked leg.xid leg.branch) result self.old self.new }
    {
        let item = ResourceRecord::Marked {
            xid: leg.xid,
            branch: leg.branch,
        };
        self.add(alloc, item)
    }

    /// The Try of a branch without a fence ran for a call, counted from 1.
    pub fn tried(
        &mut self,
        alloc: Global,
        leg: Leg,
        call: u16,
        images: List<Image>,
    ) -> Result<(), StoreError>
        requires up { is_down self.old ≡ false }
        requires taken { IsTaken (log.Tried leg.xid leg.branch call images) self.old }
        ensures { Changes D.state (log.Tried leg.xid leg.branch call images) result self.old
            self.new }
    {
        let item = ResourceRecord::Tried {
            xid: leg.xid,
            branch: leg.branch,
            call,
            images,
        };
        self.add(alloc, item)
    }

    /// The Confirm of a tried branch ran.
    pub fn confirmed(
        &mut self,
        alloc: Global,
        leg: Leg,
        images: List<Image>,
    ) -> Result<(), StoreError>
        requires up { is_down self.old ≡ false }
        requires taken { IsTaken (log.Confirmed leg.xid leg.branch images) self.old }
        ensures { Changes D.state (log.Confirmed leg.xid leg.branch images) result self.old
            self.new }
    {
        let item = ResourceRecord::Confirmed {
            xid: leg.xid,
            branch: leg.branch,
            images,
        };
        self.add(alloc, item)
    }

    /// The Cancel of a tried branch ran.
    pub fn cancelled(
        &mut self,
        alloc: Global,
        leg: Leg,
        images: List<Image>,
    ) -> Result<(), StoreError>
        requires up { is_down self.old ≡ false }
        requires taken { IsTaken (log.Cancelled leg.xid leg.branch images) self.old }
        ensures { Changes D.state (log.Cancelled leg.xid leg.branch images) result self.old
            self.new }
    {
        let item = ResourceRecord::Cancelled {
            xid: leg.xid,
            branch: leg.branch,
            images,
        };
        self.add(alloc, item)
    }

    /// A Cancel came to a branch without a fence, whose Try never runs from now on.
    pub fn suspended(&mut self, alloc: Global, leg: Leg) -> Result<(), StoreError>
        requires up { is_down self.old ≡ false }
        requires taken { IsTaken (log.Suspended leg.xid leg.branch) self.old }
        ensures { Changes D.state (log.Suspended leg.xid leg.branch) result self.old self.new }
    {
        let item = ResourceRecord::Suspended {
            xid: leg.xid,
            branch: leg.branch,
        };
        self.add(alloc, item)
    }

    /// A local transaction whose rows no transaction holds committed; they are counted from 1.
    pub fn local_committed(
        &mut self,
        alloc: Global,
        number: u16,
        images: List<Image>,
    ) -> Result<(), StoreError>
        requires up { is_down self.old ≡ false }
        requires taken { IsTaken (log.LocalCommitted number images) self.old }
        ensures { Changes D.state (log.LocalCommitted number images) result self.old self.new }
    {
        self.add(alloc, ResourceRecord::LocalCommitted { number, images })
    }

    /// A local transaction wrote without asking for the global lock.
    pub fn outside(
        &mut self,
        alloc: Global,
        number: u16,
        images: List<Image>,
    ) -> Result<(), StoreError>
        requires up { is_down self.old ≡ false }
        requires taken { IsTaken (log.Outside number images) self.old }
        ensures { Changes D.state (log.Outside number images) result self.old self.new }
    {
        self.add(alloc, ResourceRecord::Outside { number, images })
    }

    /// How often the resource was opened; takes no memory.
    pub fn boot(&self) -> u32
        ensures { result ≡ (known self.now).boots }
    {
        self.kept.memory().boots()
    }

    /// How many records were read and added, the acts of the snapshot included; takes no memory.
    pub fn records(&self) -> u32
        ensures { result ≡ (known self.now).acts }
    {
        self.kept.records()
    }

    /// What it knows: its parts stand in order, and each row fits its table. Takes no memory.
    pub fn memory(&self) -> &Memory
        ensures known { result.now ≡ known self.now }
        ensures sound { IsKept (known self.now) }
    {
        self.kept.memory().kept()
    }

    /// The tables with the rows as they are now; takes no memory.
    pub fn tables(&self) -> &Tables
        ensures { result.now ≡ (known self.now).tables }
    {
        self.kept.memory().tables()
    }

    /// The undo records and markers; takes no memory.
    pub fn undo_log(&self) -> &UndoLog
        ensures { result.now ≡ (known self.now).undo_log }
    {
        self.kept.memory().undo_log()
    }

    /// The fences of the TCC branches; takes no memory.
    pub fn fence(&self) -> &Fence
        ensures { result.now ≡ (known self.now).fences }
    {
        self.kept.memory().fence()
    }

    /// The least branch that was tried for a call of a transaction; takes no memory.
    pub fn tried_call(&self, xid: Xid, call: u16) -> Option<Leg>
        ensures { result ≡ tried_leg xid.0 call (known self.now).calls }
    {
        self.kept.memory().tried_call(xid, call)
    }

    /// Whether a call failed, or `fall` was called. Then it takes no more records until it is restarted.
    pub fn is_down(&self) -> bool
        ensures { result ≡ is_down self.now }
    {
        self.kept.is_down()
    }

    /// Takes no more records until it is restarted, as after a crash.
    pub fn fall(&mut self)
        ensures disks { SameDisks self.old self.new }
        ensures down { is_down self.new ≡ true }
        ensures known { known self.new ≡ known self.old }
        ensures setting { setting_of self.new ≡ setting_of self.old }
        ensures found { found_of self.new ≡ found_of self.old }
    {
        self.kept.fall();
    }

    /// Comes back after a crash, in place: both disks restart with this pick and are read, and a snapshot is put in place of
    /// the records as by `load`. After an error it is down, and knows what it knew.
    pub fn restart(&mut self, alloc: Global, pick: u16) -> Result<(), OpenError>
        requires { pick ≤ LAST_PICK }

        // It keeps each list of records that the pair of images that came back stands for.
        ensures back { OnOk result (IsTold (D.state (first_disk (twin self.old))) →
            IsTold (D.state (second_disk (twin self.old))) →
            BringsBack D.state pick self.old self.new) }
        // It is never damaged where each pair of images from before stands for records.
        ensures recovers { IfErr result (λ error. IsTold (D.state (first_disk (twin self.old))) →
            IsTold (D.state (second_disk (twin self.old))) →
            StandsAlways D.state (setting_of self.old) (twin self.old) → IsNoDamage error) }
        // A crash after it, however it ended, leaves what stands for the same records as a pair of images from before.
        ensures comes { ComesBack D.state (meaning_of (setting_of self.old)) twin
            (GoesOnAs (setting_of self.old)) pick self.old self.new result }

        ensures sound { OnOk result ((meaning_of (setting_of self.old)).IsSound (known self.new)) }
        ensures known { OnErr result (known self.new ≡ known self.old) }
        ensures setting { setting_of self.new ≡ setting_of self.old }
        ensures found { found_of self.new ≡ found_of self.old }
    {
        self.kept.restart(alloc, pick)
    }

    /// The first record that the opening read, if there was one: whether it stands on the second disk, and its offset, which
    /// is that of a snapshot too.
    pub fn found(&self) -> Option<(bool, u64)>
        ensures { result ≡ found_of self.now }
    {
        self.kept.found()
    }

    /// The active disk, to arm it or to read its counts. What is kept stays only where no call changes the images.
    pub fn disk_mut(&mut self) -> &mut D
        ensures* lends { sem 𝓛 (LendsActive D.row self.entry result) }
        ensures disk { result.now ≡ active_disk (twin self.old) }
    {
        self.kept.active_mut()
    }

    /// What it knows, and the two disks, in their order.
    pub fn into_parts(self) -> (Memory, D, D)
        ensures memory { result.0 ≡ known self }
        ensures first { result.1 ≡ first_disk (twin self) }
        ensures second { result.2 ≡ second_disk (twin self) }
    {
        self.kept.into_parts()
    }

    /// The two disks, in their order.
    pub fn into_disks(self) -> (D, D)
        ensures { result ≡ (first_disk (twin self), second_disk (twin self)) }
    {
        self.kept.into_disks()
    }
}

// What a store's error is at an opening.
fn opening_error(error: StoreError) -> OpenError
    ensures { result ≡ opening_error error }
{
    match error {
        StoreError::Failed => OpenError::Failed,
        StoreError::Full(full) => OpenError::Full(full),
        StoreError::NoMemory => OpenError::NoMemory,
    }
}
