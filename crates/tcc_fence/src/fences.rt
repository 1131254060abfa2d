//! The fences of a resource.
ghost use Rattle.std.specs.Prelude.{◌≡◌, option_map};
ghost use Rattle.durable_records.specs.Fences.{on_try, on_confirm, on_cancel};
ghost use Rattle.tcc_fence.specs.Meanings.{status_of, answer_of, table};

use crate::statuses::{FenceAnswer, FenceStatus};
use seata_types::{Leg, List, NoMemory};
use std::alloc::Global;
use std::collections::BTreeMap;
use std::marker::Model;

/// The status of each branch that has one, by transaction and branch: Seata's `tcc_fence_log` of one resource.
#[derive(Drop)]
pub struct Fence {
    entries: BTreeMap<Leg, FenceStatus>,
}

impl Model for Fence {
    ghost use Rattle.tcc_fence.specs.Meanings.{Fences, fences_of};

    ghost Value = { Fences };

    ghost view = { λ f. fences_of f.entries.entries };
}

impl Fence {
    ghost use Rattle.std.specs.Prelude.{◌≡◌, [], length, None, option_map, OnOk, OnErr, IfOk};
    ghost use Rattle.durable_records.specs.Fences.{with_fence, on_try, on_confirm, on_cancel};
    ghost use Rattle.tcc_fence.specs.Meanings.{status_of, answer_of, fences_of, fence_at, without_fence};

    /// No branch has a status yet; takes no memory.
    pub fn new(alloc: Global) -> Fence
        ensures { result ≡ [] }
    {
        Fence {
            entries: BTreeMap::new(alloc),
        }
    }

    /// The status of a branch; takes no memory.
    pub fn status(&self, leg: Leg) -> Option<FenceStatus>
        ensures { option_map status_of result ≡ fence_at self.now leg }
    {
        match self.entries.get(&leg) {
            Some(status) => Some(*status),
            None => None,
        }
    }

    /// Gives a branch this status from now on. Without memory all is as before; a branch that has a status already needs
    /// none.
    pub fn set(&mut self, leg: Leg, status: FenceStatus) -> Result<(), NoMemory>
        ensures done { OnOk result (self.new ≡ with_fence leg.xid.0 leg.branch.0 (status_of status) self.old) }
        ensures failed { OnErr result (self.new ≡ self.old) }
        ensures needless { OnErr result (fence_at self.old leg ≡ None) }
    {
        self.entries.insert(leg, status)?;
        Ok(())
    }

    /// Takes the status of a branch back, as if it had been given none; takes no memory.
    pub fn remove(&mut self, leg: Leg)
        ensures { self.new ≡ without_fence self.old leg }
    {
        self.entries.remove(&leg);
    }

    /// How many branches have a status; takes no memory.
    pub fn len(&self) -> usize
        ensures { result ≡ length self.now }
    {
        self.entries.len()
    }

    /// All branches that have a status.
    pub fn list(&self, alloc: Global) -> Result<List<(Leg, FenceStatus)>, NoMemory>
        ensures { IfOk result (λ all. fences_of all ≡ self.now) }
    {
        let mut all = Vec::new(alloc);
        for (leg, status) in &self.entries {
            all.push((*leg, *status))?;
        }
        Ok(List::of(all))
    }

    /// Whether the Try of a branch may run; takes no memory.
    pub fn on_try(&self, leg: Leg) -> FenceAnswer
        ensures { answer_of result ≡ on_try (fence_at self.now leg) }
    {
        answers(self.status(leg)).on_try
    }

    /// Whether the Confirm of a branch may run; takes no memory.
    pub fn on_confirm(&self, leg: Leg) -> FenceAnswer
        ensures { answer_of result ≡ on_confirm (fence_at self.now leg) }
    {
        answers(self.status(leg)).on_confirm
    }

    /// Whether the Cancel of a branch may run; takes no memory.
    pub fn on_cancel(&self, leg: Leg) -> FenceAnswer
        ensures { answer_of result ≡ on_cancel (fence_at self.now leg) }
    {
        answers(self.status(leg)).on_cancel
    }
}

/// A row of the fence's table.
#[derive(Clone, Copy)]
struct TableRow {
    on_try: FenceAnswer,
    on_confirm: FenceAnswer,
    on_cancel: FenceAnswer,
}

fn row(on_try: FenceAnswer, on_confirm: FenceAnswer, on_cancel: FenceAnswer) -> TableRow
    ensures on_try { result.on_try ≡ on_try }
    ensures on_confirm { result.on_confirm ≡ on_confirm }
    ensures on_cancel { result.on_cancel ≡ on_cancel }
{
    TableRow {
        on_try,
        on_confirm,
        on_cancel,
    }
}

/// The fence's table: what a Try, a Confirm and a Cancel are answered, by the status of the branch.
fn answers(status: Option<FenceStatus>) -> TableRow
    ensures table { (result.on_try, result.on_confirm, result.on_cancel) ≡ table status }
    ensures on_try { answer_of result.on_try ≡ on_try (option_map status_of status) }
    ensures on_confirm { answer_of result.on_confirm ≡ on_confirm (option_map status_of status) }
    ensures on_cancel { answer_of result.on_cancel ≡ on_cancel (option_map status_of status) }
{
    use FenceAnswer::{Already, Refuse, Run, Suspend};
    match status {
        None => row(Run, Refuse, Suspend),
        Some(FenceStatus::Tried) => row(Refuse, Run, Run),
        Some(FenceStatus::Committed) => row(Refuse, Already, Refuse),
        Some(FenceStatus::Rollbacked) => row(Refuse, Refuse, Already),
        Some(FenceStatus::Suspended) => row(Refuse, Refuse, Already),
    }
}
