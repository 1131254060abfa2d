//! The memory of a resource.
ghost use Rattle.std.specs.Prelude.{◌≡◌, ◌<◌, ◌+◌, ◌^◌, [], true, IfOk, OnOk, OnErr};
ghost use Rattle.durable_records.specs.declared.resources.ResourceRecord.TheVariants as log;
ghost use Rattle.local_tables.specs.Rows.{IsOpening, opened};
ghost use Rattle.resource_log.specs.Snapshots.{FitsSnapshot, snapshot_bytes};
ghost use Rattle.resource_log.specs.Records.{leg_of};
ghost use Rattle.resource_log.specs.Soundness.{is_sound};
ghost use Rattle.tcc_fence.specs.Meanings.{answer_of};
ghost use Rattle.resource_memory.specs.Known.{known_of};
ghost use Rattle.resource_memory.specs.Changes.{after, may_come, has_no_entry, has_undo_record, runs, suspends, fit, MayTake, TakesIn};
ghost use Rattle.resource_memory.specs.Keeping.{IsKept, has_room};
ghost use Rattle.resource_memory.specs.Lookups.{tried_leg};
ghost use Rattle.resource_memory.specs.Snapshots.{snapshot_in, known_in};

use crate::tried::TriedCalls;
use crate::{fitting, loading, parts, saving};
use durable_records::ResourceRecord;
use local_tables::{Schema, Tables, Way};
use resource_log::{ResourceSnapshot, write_snapshot};
use seata_types::{BranchId, Duplicate, Image, Leg, List, NoMemory, ReadRow, Row, Text, Xid};
use std::alloc::Global;
use std::marker::Model;
use tcc_fence::{Fence, FenceAnswer, FenceStatus};
use undo_log::{UndoEntry, UndoLog};

/// A list of a snapshot has fewer items than this.
const ITEMS: usize = 4_294_967_296;

/// All that a resource knows: contracts see what its records say, over the rows of the opening.
#[derive(Drop)]
pub struct Memory {
    acts: u32,
    boots: u32,
    tables: Tables,
    undo_log: UndoLog,
    fence: Fence,
    calls: TriedCalls,
}

impl Model for Memory {
    ghost use Rattle.resource_memory.specs.Known.{Known};
    ghost use Rattle.resource_memory.specs.Keeping.{IsKept, known_as};

    ghost Value = { Known };

    ghost view = { λ m. known_as m.acts m.boots m.tables m.undo_log m.fence m.calls };

    ghost invariant = { λ m. IsKept (known_as m.acts m.boots m.tables m.undo_log m.fence m.calls) };
}

impl Memory {
    /// No record stands over these opening rows, each given with its table's name.
    pub fn new(
        alloc: Global,
        resource: u16,
        schema: Schema,
        opening: List<(Text, Row)>,
    ) -> Result<Memory, NoMemory>
        requires { IsOpening resource schema opening }
        ensures { IfOk result (λ m. m ≡ known_of (opened resource schema opening) []) }
    {
        let tables = Tables::new(alloc, resource, schema, opening)?;
        Ok(Memory {
            acts: 0,
            boots: 0,
            tables,
            undo_log: UndoLog::new(alloc),
            fence: Fence::new(alloc),
            calls: TriedCalls::new(alloc),
        })
    }

    /// What a sound snapshot of a resource with this number and these tables says.
    pub fn load(
        alloc: Global,
        resource: u16,
        schema: Schema,
        snapshot: ResourceSnapshot,
    ) -> Result<Memory, NoMemory>
        requires sound { is_sound resource schema snapshot ≡ true }
        requires fits { FitsSnapshot snapshot }
        ensures { IfOk result (λ m. m ≡ known_in resource schema snapshot) }
    {
        let (fence, calls) = loading::fences(alloc, snapshot.fences)?;
        let tables = Tables::new(alloc, resource, schema, snapshot.rows)?;
        let undo_log = loading::undo_log(alloc, snapshot.undos)?;
        Ok(Memory {
            acts: snapshot.acts,
            boots: snapshot.boots,
            tables,
            undo_log,
            fence,
            calls,
        })
    }

    /// The snapshot of what is known.
    pub fn snapshot(&self, alloc: Global) -> Result<ResourceSnapshot, NoMemory>
        ensures { IfOk result (λ snapshot. snapshot ≡ snapshot_in self.now) }
    {
        Ok(ResourceSnapshot {
            acts: self.acts,
            boots: self.boots,
            rows: saving::named_rows(alloc, &self.tables)?,
            undos: saving::undo_items(alloc, &self.undo_log)?,
            fences: saving::fence_items(alloc, &self.fence, &self.calls)?,
        })
    }

    /// The bytes of this snapshot, in the layout that is written.
    pub fn write(&self, alloc: Global) -> Result<Vec<u8>, NoMemory>
        requires { FitsSnapshot (snapshot_in self.now) }
        ensures { IfOk result (λ bytes. bytes.items ≡ snapshot_bytes (snapshot_in self.now)) }
    {
        let snapshot = self.snapshot(alloc)?;
        write_snapshot(alloc, &snapshot)
    }

    /// Whether no list is longer than a snapshot counts; takes no memory.
    pub fn has_room(&self) -> bool
        ensures { result ≡ has_room self.now }
    {
        self.tables.rows() < ITEMS && self.undo_log.len() < ITEMS && self.fence.len() < ITEMS
    }

    /// Itself: what is known stands in order, and each row fits its table. Takes no memory.
    pub fn kept(&self) -> &Memory
        ensures same { result.now ≡ self.now }
        ensures kept { IsKept self.now }
    {
        // A look at one of its parts tells what always holds of all.
        let _acts = self.acts;
        self
    }

    /// How many records there are; takes no memory.
    pub fn acts(&self) -> u32
        ensures { result ≡ self.now.acts }
    {
        self.acts
    }

    /// How often the resource was opened; takes no memory.
    pub fn boots(&self) -> u32
        ensures { result ≡ self.now.boots }
    {
        self.boots
    }

    /// The tables with the rows as they are now; takes no memory.
    pub fn tables(&self) -> &Tables
        ensures { result.now ≡ self.now.tables }
    {
        &self.tables
    }

    /// The undo records and markers; takes no memory.
    pub fn undo_log(&self) -> &UndoLog
        ensures { result.now ≡ self.now.undo_log }
    {
        &self.undo_log
    }

    /// The fences of the TCC branches; takes no memory.
    pub fn fence(&self) -> &Fence
        ensures { result.now ≡ self.now.fences }
    {
        &self.fence
    }

    /// The least branch that was tried for a call of a transaction, counted from 1; takes no memory.
    pub fn tried_call(&self, xid: Xid, call: u16) -> Option<Leg>
        ensures { result ≡ tried_leg xid.0 call self.now.calls }
    {
        self.calls.find(xid, call)
    }

    /// Whether a record may come; takes no memory.
    pub fn allows(&self, item: &ResourceRecord) -> bool
        ensures { result ≡ may_come self.now item.now }
    {
        match item {
            ResourceRecord::Boot { number } => u64::from(*number) == u64::from(self.boots) + 1,
            ResourceRecord::Committed {
                xid,
                branch,
                images,
                reads,
                ..
            } => {
                self.has_no_entry(*xid, *branch) && self.fit(images.as_slice(), reads.as_slice())
            }
            ResourceRecord::Undone { xid, branch } => self.has_undo_record(*xid, *branch),
            ResourceRecord::Marked { xid, branch } => self.has_no_entry(*xid, *branch),
            ResourceRecord::Cleared { xid, branch } => self.has_undo_record(*xid, *branch),
            ResourceRecord::Tried {
                xid,
                branch,
                images,
                ..
            } => runs(self.fence.on_try(leg(*xid, *branch))) && self.fit(images.as_slice(), &[]),
            ResourceRecord::Confirmed {
                xid,
                branch,
                images,
            } => runs(self.fence.on_confirm(leg(*xid, *branch)))
                && self.fit(images.as_slice(), &[]),
            ResourceRecord::Cancelled {
                xid,
                branch,
                images,
            } => runs(self.fence.on_cancel(leg(*xid, *branch))) && self.fit(images.as_slice(), &[]),
            ResourceRecord::Suspended { xid, branch } => {
                suspends(self.fence.on_cancel(leg(*xid, *branch)))
            }
            ResourceRecord::LocalCommitted { images, .. } => self.fit(images.as_slice(), &[]),
            ResourceRecord::Outside { images, .. } => self.fit(images.as_slice(), &[]),
        }
    }

    fn has_no_entry(&self, xid: Xid, branch: BranchId) -> bool
        ensures { result ≡ has_no_entry self.now (leg_of xid branch) }
    {
        self.undo_log.find(leg(xid, branch)).is_none()
    }

    fn has_undo_record(&self, xid: Xid, branch: BranchId) -> bool
        ensures { result ≡ has_undo_record self.now (leg_of xid branch) }
    {
        match self.undo_log.find(leg(xid, branch)) {
            Some(UndoEntry::Normal(_)) => true,
            Some(UndoEntry::Finished) => false,
            None => false,
        }
    }

    fn fit(&self, images: &[Image], reads: &[ReadRow]) -> bool
        ensures { result ≡ fit self.now.tables images.now reads.now }
    {
        fitting::fit(&self.tables, images, reads)
    }

    /// Takes in one more record that may come. After an error all is as before.
    pub fn apply(&mut self, alloc: Global, item: &ResourceRecord) -> Result<(), NoMemory>
        requires allowed { may_come self.old item.now ≡ true }
        requires room { self.old.acts + 1 < 2 ^ 32 }
        ensures ok { OnOk result (self.new ≡ after item.now self.old) }
        ensures err { OnErr result (self.new ≡ self.old) }
    {
        match item {
            ResourceRecord::Boot { number } => self.boot(*number),
            ResourceRecord::Committed {
                xid,
                branch,
                call,
                images,
                reads,
            } => self.commit_copy(alloc, *xid, *branch, *call, images, reads),
            ResourceRecord::Undone { xid, branch } => self.undo(alloc, *xid, *branch),
            ResourceRecord::Marked { xid, branch } => self.mark(*xid, *branch),
            ResourceRecord::Cleared { xid, branch } => self.clear(*xid, *branch),
            ResourceRecord::Tried {
                xid,
                branch,
                call,
                images,
            } => self.run_try(alloc, *xid, *branch, *call, images),
            ResourceRecord::Confirmed {
                xid,
                branch,
                images,
            } => self.confirm(alloc, *xid, *branch, images),
            ResourceRecord::Cancelled {
                xid,
                branch,
                images,
            } => self.cancel(alloc, *xid, *branch, images),
            ResourceRecord::Suspended { xid, branch } => self.suspend(*xid, *branch),
            ResourceRecord::LocalCommitted { number, images } => {
                self.commit_local(alloc, *number, images)
            }
            ResourceRecord::Outside { number, images } => self.write_outside(
                alloc, *number, images,
            ),
        }
    }

    fn boot(&mut self, number: u32) -> Result<(), NoMemory>
        requires { MayTake self.old (log.Boot number) }
        ensures { TakesIn (log.Boot number) result self.old self.new }
    {
        self.acts += 1;
        self.boots = number;
        Ok(())
    }

    /// Takes in one more record that may come, without a copy of a local commit's images. After an error all is as before.
    pub fn take(&mut self, alloc: Global, item: ResourceRecord) -> Result<(), NoMemory>
        requires allowed { may_come self.old item ≡ true }
        requires room { self.old.acts + 1 < 2 ^ 32 }
        ensures ok { OnOk result (self.new ≡ after item self.old) }
        ensures err { OnErr result (self.new ≡ self.old) }
    {
        match item {
            ResourceRecord::Committed {
                xid,
                branch,
                call,
                images,
                reads,
            } => self.commit(alloc, xid, branch, call, images, reads),
            other => {
                let taken = self.apply(alloc, &other);
                drop(other);
                taken
            }
        }
    }

    fn commit(
        &mut self,
        alloc: Global,
        xid: Xid,
        branch: BranchId,
        call: u16,
        images: List<Image>,
        reads: List<ReadRow>,
    ) -> Result<(), NoMemory>
        requires { MayTake self.old (log.Committed xid branch call images reads) }
        ensures { TakesIn (log.Committed xid branch call images reads) result self.old self.new }
    {
        let leg = Leg { xid, branch };
        parts::commit(
            alloc,
            &mut self.tables,
            &mut self.undo_log,
            leg,
            call,
            images,
            reads,
        )?;
        self.acts += 1;
        Ok(())
    }

    // `commit` of images and reads that are of use still.
    fn commit_copy(
        &mut self,
        alloc: Global,
        xid: Xid,
        branch: BranchId,
        call: u16,
        images: &List<Image>,
        reads: &List<ReadRow>,
    ) -> Result<(), NoMemory>
        requires { MayTake self.old (log.Committed xid branch call images.now reads.now) }
        ensures { TakesIn (log.Committed xid branch call images.now reads.now) result self.old self.new }
    {
        let (images, reads) = (images.copy(alloc)?, reads.copy(alloc)?);
        self.commit(alloc, xid, branch, call, images, reads)
    }

    fn undo(&mut self, alloc: Global, xid: Xid, branch: BranchId) -> Result<(), NoMemory>
        requires { MayTake self.old (log.Undone xid branch) }
        ensures { TakesIn (log.Undone xid branch) result self.old self.new }
    {
        let leg = Leg { xid, branch };
        parts::undo(alloc, &mut self.tables, &mut self.undo_log, leg)?;
        self.acts += 1;
        Ok(())
    }

    fn mark(&mut self, xid: Xid, branch: BranchId) -> Result<(), NoMemory>
        requires { MayTake self.old (log.Marked xid branch) }
        ensures { TakesIn (log.Marked xid branch) result self.old self.new }
    {
        let leg = Leg { xid, branch };
        parts::enter(&mut self.undo_log, leg, UndoEntry::Finished)?;
        self.acts += 1;
        Ok(())
    }

    fn clear(&mut self, xid: Xid, branch: BranchId) -> Result<(), NoMemory>
        requires { MayTake self.old (log.Cleared xid branch) }
        ensures { TakesIn (log.Cleared xid branch) result self.old self.new }
    {
        drop(self.undo_log.remove(Leg { xid, branch }));
        self.acts += 1;
        Ok(())
    }

    fn run_try(
        &mut self,
        alloc: Global,
        xid: Xid,
        branch: BranchId,
        call: u16,
        images: &List<Image>,
    ) -> Result<(), NoMemory>
        requires { MayTake self.old (log.Tried xid branch call images.now) }
        ensures { TakesIn (log.Tried xid branch call images.now) result self.old self.new }
    {
        let leg = Leg { xid, branch };
        parts::run_try(
            alloc,
            &mut self.tables,
            &mut self.fence,
            &mut self.calls,
            leg,
            call,
            images.as_slice(),
        )?;
        self.acts += 1;
        Ok(())
    }

    fn confirm(
        &mut self,
        alloc: Global,
        xid: Xid,
        branch: BranchId,
        images: &List<Image>,
    ) -> Result<(), NoMemory>
        requires { MayTake self.old (log.Confirmed xid branch images.now) }
        ensures { TakesIn (log.Confirmed xid branch images.now) result self.old self.new }
    {
        let leg = Leg { xid, branch };
        let rows = images.as_slice();
        let status = FenceStatus::Committed;
        parts::run_second(alloc, &mut self.tables, &mut self.fence, leg, status, rows)?;
        self.acts += 1;
        Ok(())
    }

    fn cancel(
        &mut self,
        alloc: Global,
        xid: Xid,
        branch: BranchId,
        images: &List<Image>,
    ) -> Result<(), NoMemory>
        requires { MayTake self.old (log.Cancelled xid branch images.now) }
        ensures { TakesIn (log.Cancelled xid branch images.now) result self.old self.new }
    {
        let leg = Leg { xid, branch };
        let rows = images.as_slice();
        let status = FenceStatus::Rollbacked;
        parts::run_second(alloc, &mut self.tables, &mut self.fence, leg, status, rows)?;
        self.acts += 1;
        Ok(())
    }

    fn suspend(&mut self, xid: Xid, branch: BranchId) -> Result<(), NoMemory>
        requires { MayTake self.old (log.Suspended xid branch) }
        ensures { TakesIn (log.Suspended xid branch) result self.old self.new }
    {
        let leg = Leg { xid, branch };
        self.fence.set(leg, FenceStatus::Suspended)?;
        self.acts += 1;
        Ok(())
    }

    fn commit_local(
        &mut self,
        alloc: Global,
        number: u16,
        images: &List<Image>,
    ) -> Result<(), NoMemory>
        requires { MayTake self.old (log.LocalCommitted number images.now) }
        ensures { TakesIn (log.LocalCommitted number images.now) result self.old self.new }
    {
        self.tables.apply(alloc, images.as_slice(), Way::Do)?;
        self.acts += 1;
        Ok(())
    }

    fn write_outside(
        &mut self,
        alloc: Global,
        number: u16,
        images: &List<Image>,
    ) -> Result<(), NoMemory>
        requires { MayTake self.old (log.Outside number images.now) }
        ensures { TakesIn (log.Outside number images.now) result self.old self.new }
    {
        self.tables.apply(alloc, images.as_slice(), Way::Do)?;
        self.acts += 1;
        Ok(())
    }
}

fn leg(xid: Xid, branch: BranchId) -> Leg
    ensures { result ≡ leg_of xid branch }
{
    Leg { xid, branch }
}

fn runs(answer: FenceAnswer) -> bool
    ensures { result ≡ runs (answer_of answer) }
{
    matches!(answer, FenceAnswer::Run)
}

fn suspends(answer: FenceAnswer) -> bool
    ensures { result ≡ suspends (answer_of answer) }
{
    matches!(answer, FenceAnswer::Suspend)
}
