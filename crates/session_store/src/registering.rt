//! Branches are registered: their rows are taken, and their records go to the disks.
ghost use Rattle.std.specs.Prelude.{◌≡◌};

use crate::errors::{RegisterError, refused};
use crate::sessions::Sessions;
use disk_model::Disk;
use durable_records::SessionRecord;
use lock_table::Steps;
use seata_types::{BranchId, NoMemory, RowKey, StoreError, Xid};
use session_log::RegisterPlace;
use session_memory::granted;
use std::alloc::Global;
use std::sync::ledger::Ledger;

impl<D: Disk> Sessions<D> {
    ghost use Rattle.std.specs.Prelude.{◌≡◌, ◌+◌, ◌*◌, ◌++◌, ◌≤◌, true, false, length, IfOk};
    ghost use Rattle.seata_types.specs.declared.limits.TheConstants.{BODY_BYTES};
    ghost use Rattle.byte_fields.specs.Layout.{FitsKeys};
    ghost use Rattle.durable_records.specs.SessionOrder.{is_within};
    ghost use Rattle.lock_table.specs.Locks.{TakesAtMost};
    ghost use Rattle.session_log.specs.Records.{record_bytes, FitsRecord};
    ghost use Rattle.session_memory.specs.Lookups.{status_in};
    ghost use Rattle.session_memory.specs.Changes.{is_begin, is_new, may_come};
    ghost use Rattle.session_store.specs.Keeping.{managers_of, resources_of, known, is_down, held_rows, register_record, Makes, Registers, TakesSteps};

    /// Registers a branch of an undecided transaction under the next number, unless another transaction holds one of the
    /// rows to hold or to check. A step is a comparison of two keys.
    pub fn register<L: Ledger>(
        &mut self,
        alloc: Global,
        xid: Xid,
        place: RegisterPlace,
        hold: &[RowKey],
        check: &[RowKey],
        steps: &mut Steps<L>,
    ) -> Result<BranchId, RegisterError>
        requires up { is_down self.old ≡ false }
        requires begin { is_begin (status_in (known self.old) xid.0) ≡ true }
        requires new { is_new (known self.old) xid place.resource place.call place.ticket place.kind
            ≡ true }
        requires within { is_within (managers_of self.old) (resources_of self.old)
            (register_record (known self.old) xid place hold.now) ≡ true }
        requires keys { FitsKeys hold.now }
        requires small { length (record_bytes (register_record (known self.old) xid place hold.now))
            ≤ BODY_BYTES }
        ensures branch { IfOk result (λ branch. branch.0 ≡ (known self.old).granted + 1) }
        ensures made { Registers D.state (register_record (known self.old) xid place hold.now) xid
            (hold.now ++ check.now) result self.old self.new }
        ensures cost { TakesAtMost (2 * length hold.now + length check.now)
            (held_rows self.old + length hold.now) steps.old steps.new }
    {
        let memory = self.store.memory();
        if let Err(error) = memory.conflict(alloc, xid, hold, check, steps) {
            return Err(refused(error));
        }
        let branch = memory.next_branch();
        let Ok(item) = granted(alloc, xid, branch, place, hold) else {
            return Err(RegisterError::Store(StoreError::NoMemory));
        };
        let made = self.add_counted(alloc, &item, steps);
        drop(item);
        match made {
            Ok(()) => Ok(branch),
            Err(error) => Err(RegisterError::Store(error)),
        }
    }

    /// `add`, whose comparisons of keys are counted: those of the rows that a branch takes.
    pub fn add_counted<L: Ledger>(
        &mut self,
        alloc: Global,
        item: &SessionRecord,
        steps: &mut Steps<L>,
    ) -> Result<(), StoreError>
        requires up { is_down self.old ≡ false }
        requires allowed { may_come (known self.old) item.now ≡ true }
        requires within { is_within (managers_of self.old) (resources_of self.old) item.now ≡ true }
        requires fits { FitsRecord item.now }
        requires small { length (record_bytes item.now) ≤ BODY_BYTES }
        ensures made { Makes D.state item.now result self.old self.new }
        ensures cost { TakesSteps item.now self.old steps.old steps.new }
    {
        let Ok(body) = session_log::write_record(alloc, item) else {
            return Err(StoreError::NoMemory);
        };
        if let Err(full) = self.store.fits(body.len()) {
            return Err(StoreError::Full(full));
        }
        match self.store.memory_mut().apply(alloc, item, steps) {
            Ok(()) => {}
            Err(NoMemory) => return Err(StoreError::NoMemory),
        }
        match self.store.append(&body) {
            Ok(()) => Ok(()),
            Err(_) => Err(StoreError::Failed),
        }
    }
}
