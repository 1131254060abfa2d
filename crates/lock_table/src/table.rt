//! The table of global locks.
ghost use Rattle.std.specs.Prelude.{◌≡◌, ◌+◌, ◌*◌, ◌++◌, IfOk, OnErr, OnOk, None, length, []};
ghost use Rattle.lock_table.specs.Locks.{HaveOneHolder, locks, holder, first_held, with_rows, without_leg, without_xid, TakesAtMost};
ghost use Rattle.lock_table.specs.Answers.{FindsConflict, TakesRows};

use crate::errors::HoldError;
use crate::holder::Holder;
use crate::steps::Steps;
use crate::{holding, index};
use seata_types::{Duplicate, Leg, List, NoMemory, RowKey, Xid};
use std::alloc::Global;
use std::collections::BTreeMap;
use std::marker::Model;
use std::sync::ledger::Ledger;

/// Which transaction holds a row, after Seata's global lock. Contracts see which rows each branch holds; no row has two
/// holders.
#[derive(Drop)]
pub struct LockTable {
    rows: Vec<(RowKey, Holder)>,
    holds: BTreeMap<Leg, List<RowKey>>,
}

impl Model for LockTable {
    ghost use Rattle.lock_table.specs.Locks.{Holds};
    ghost use Rattle.lock_table.specs.Counts.{IsIndex};

    ghost Value = { Holds };

    ghost view = { λ t. t.holds.entries };

    ghost invariant = { λ t. IsIndex t.rows.items t.holds.entries };
}

impl LockTable {
    /// No row is held; takes no memory.
    pub fn new(alloc: Global) -> LockTable
        ensures { result ≡ [] }
    {
        LockTable {
            rows: Vec::new(alloc),
            holds: BTreeMap::new(alloc),
        }
    }

    /// Takes the rows of `hold` for a branch, unless another transaction holds one of them or of `check`. A step is a
    /// comparison of two keys.
    pub fn try_hold<L: Ledger>(
        &mut self,
        alloc: Global,
        leg: Leg,
        hold: &[RowKey],
        check: &[RowKey],
        steps: &mut Steps<L>,
    ) -> Result<(), HoldError>
        ensures rows { TakesRows self.old leg hold.now check.now self.new result }
        ensures cost { TakesAtMost (2 * length hold.now + length check.now)
            (length (locks self.old) + length hold.now) steps.old steps.new }
    {
        self.conflict(alloc, leg.xid, hold, check, steps)?;
        match self.hold(alloc, leg, hold, steps) {
            Ok(()) => Ok(()),
            Err(NoMemory) => Err(HoldError::NoMemory),
        }
    }

    /// Whether another transaction holds a row, and the first one, of those to hold and then those to check, as an error. A step is a
    /// comparison of two keys.
    pub fn conflict<L: Ledger>(
        &self,
        alloc: Global,
        xid: Xid,
        hold: &[RowKey],
        check: &[RowKey],
        steps: &mut Steps<L>,
    ) -> Result<(), HoldError>
        ensures found { FindsConflict (locks self.now) xid (hold.now ++ check.now) result }
        ensures cost { TakesAtMost (length hold.now + length check.now) (length (locks self.now))
            steps.old steps.new }
    {
        match self.search(alloc, xid, hold, steps) {
            Ok(()) => self.search(alloc, xid, check, steps),
            Err(error) => Err(error),
        }
    }

    // The same of rows in one list.
    fn search<L: Ledger>(
        &self,
        alloc: Global,
        xid: Xid,
        keys: &[RowKey],
        steps: &mut Steps<L>,
    ) -> Result<(), HoldError>
        ensures found { FindsConflict (locks self.now) xid keys.now result }
        ensures cost { TakesAtMost (length keys.now) (length (locks self.now)) steps.old steps.new }
    {
        holding::conflict(alloc, &self.rows, xid, keys, steps)
    }

    /// Takes rows for a branch that no other transaction holds, as `conflict` tells; without memory nothing changes. A step is a
    /// comparison of two keys.
    pub fn hold<L: Ledger>(
        &mut self,
        alloc: Global,
        leg: Leg,
        hold: &[RowKey],
        steps: &mut Steps<L>,
    ) -> Result<(), NoMemory>
        requires { first_held self.old leg.xid hold.now ≡ None }
        ensures ok { OnOk result (self.new ≡ with_rows self.old leg hold.now) }
        ensures err { OnErr result (self.new ≡ self.old) }
        ensures cost { TakesAtMost (length hold.now) (length (locks self.old) + length hold.now)
            steps.old steps.new }
    {
        let keys = holding::copies(alloc, hold)?;
        let all = holding::with_rows(alloc, &self.holds, leg, hold)?;
        prove!(all.as_slice().len() <= usize::MAX);
        self.rows.reserve(hold.len())?;
        self.holds.insert(leg, all)?;
        prove!(self.holds.len() <= usize::MAX);
        holding::put_all(&mut self.rows, keys, leg.xid, steps);
        Ok(())
    }

    /// Who holds a row, in at most as many steps as the number of held rows has binary digits; takes no memory.
    pub fn holder<L: Ledger>(&self, key: &RowKey, steps: &mut Steps<L>) -> Option<Xid>
        ensures holder { result ≡ holder self.now key.now }
        ensures alone { HaveOneHolder self.now }
        ensures cost { TakesAtMost 1 (length (locks self.now)) steps.old steps.new }
    {
        index::holder(&self.rows, key, steps)
    }

    /// Gives back all rows of a branch; takes no memory.
    pub fn release(&mut self, leg: Leg)
        ensures { self.new ≡ without_leg self.old leg }
    {
        holding::give_leg(&mut self.rows, &mut self.holds, leg);
    }

    /// Gives back all rows of a transaction; takes no memory.
    pub fn release_all(&mut self, xid: Xid)
        ensures { self.new ≡ without_xid self.old xid }
    {
        holding::give_all(&mut self.rows, &mut self.holds, xid);
    }

    /// Each row that is held and its holder, in the order of rows.
    pub fn list(&self, alloc: Global) -> Result<List<(RowKey, Xid)>, NoMemory>
        ensures { IfOk result (λ listed. listed ≡ locks self.now) }
    {
        holding::listed(alloc, &self.rows)
    }
}
