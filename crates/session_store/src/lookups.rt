//! What a coordinator's transactions on two disks tell of themselves.
ghost use Rattle.std.specs.Prelude.{◌≡◌, IfOk};

use crate::machine::SessionMachine;
use crate::sessions::Sessions;
use disk_model::Disk;
use lock_table::Steps;
use seata_types::{BranchId, GlobalStatus, Leg, List, NoMemory, Ticket, Xid};
use session_log::Session;
use session_memory::Memory;
use std::alloc::Global;
use std::sync::ledger::Ledger;

impl<D: Disk> Sessions<D> {
    ghost use Rattle.std.specs.Prelude.{◌≡◌, ◌+◌, ◌<◌, ◌≤◌, List, map, length, Option, IfOk};
    ghost use Rattle.std.specs.Option.{option_copied};
    ghost use Rattle.session_memory.specs.Lookups.{session_in, status_in, xid_for, ticket_leg, call_leg, branches_in, xid_of};
    ghost use Rattle.session_memory.specs.Owners.{most_branches};
    ghost use Rattle.session_store.specs.Keeping.{managers_of, resources_of, known, is_down, found_of};

    /// How many records were read and added, the acts of the snapshot included.
    pub fn records(&self) -> u32
        ensures { result ≡ (known self.now).acts }
    {
        self.store.records()
    }

    /// The number of the next branch.
    pub fn next_branch(&self) -> BranchId
        ensures { result.0 ≡ (known self.now).granted + 1 }
    {
        self.store.memory().next_branch()
    }

    /// What it knows; takes no memory.
    pub fn memory(&self) -> &Memory
        ensures { result.now ≡ known self.now }
    {
        self.store.memory()
    }

    /// How many managers and resources its scenario has; takes no memory.
    pub fn machine(&self) -> &SessionMachine
        ensures managers { result.now.managers ≡ managers_of self.now }
        ensures resources { result.now.resources ≡ resources_of self.now }
    {
        self.store.machine()
    }

    /// The status of a transaction: Finished where it isn't known. It takes no memory, and one step.
    pub fn status<L: Ledger>(&self, xid: Xid, steps: &mut Steps<L>) -> GlobalStatus
        ensures status { result ≡ status_in (known self.now) xid.0 }
        ensures cost { steps.new ≡ steps.old + 1 }
    {
        steps.tick();
        self.store.memory().status(xid)
    }

    /// A transaction, where it is known. It takes no memory, and one step.
    pub fn find<L: Ledger>(&self, xid: Xid, steps: &mut Steps<L>) -> Option<&Session>
        ensures found { option_copied result ≡ session_in (known self.now) xid.0 }
        ensures cost { steps.new ≡ steps.old + 1 }
    {
        steps.tick();
        self.store.memory().find(xid)
    }

    /// The transaction that a manager began, also where it is forgotten; takes no memory.
    pub fn manager_xid(&self, manager: u16) -> Option<Xid>
        ensures { result ≡ xid_for (known self.now) manager }
    {
        self.store.memory().manager_xid(manager)
    }

    /// The AT branch that was registered for a resource's ticket, of a transaction that is known. It takes no memory, and a
    /// step for its transaction and for each branch of it that is passed.
    pub fn ticket_leg<L: Ledger>(
        &self,
        resource: u16,
        ticket: Ticket,
        steps: &mut Steps<L>,
    ) -> Option<Leg>
        ensures leg { result ≡ ticket_leg (known self.now) resource ticket }
        ensures cost { steps.new ≤ steps.old + 1 + most_branches (known self.now).sessions }
    {
        self.store.memory().ticket_leg(resource, ticket, steps)
    }

    /// The TCC branch that was registered for a call of a known transaction at a resource. It takes no memory, and a step for
    /// the transaction and for each branch of it that is passed.
    pub fn call_leg<L: Ledger>(
        &self,
        xid: Xid,
        resource: u16,
        call: u16,
        steps: &mut Steps<L>,
    ) -> Option<Leg>
        ensures leg { result ≡ call_leg (known self.now) xid resource call }
        ensures cost { steps.new ≤ steps.old + 1 + length (branches_in (known self.now) xid.0) }
    {
        self.store.memory().call_leg(xid, resource, call, steps)
    }

    /// The numbers of the transactions that are known, in rising order.
    pub fn list(&self, alloc: Global) -> Result<List<Xid>, NoMemory>
        ensures { IfOk result (λ xids. xids ≡ map xid_of (known self.now).sessions) }
    {
        self.store.memory().list(alloc)
    }

    /// Whether a call failed, or `fall` was called. Then it takes no more records until it is restarted.
    pub fn is_down(&self) -> bool
        ensures { result ≡ is_down self.now }
    {
        self.store.is_down()
    }

    /// The first record that the opening read, if there was one: whether it stands on the second disk, and its offset, which
    /// is that of a snapshot too.
    pub fn found(&self) -> Option<(bool, u64)>
        ensures { result ≡ found_of self.now }
    {
        self.store.found()
    }
}
