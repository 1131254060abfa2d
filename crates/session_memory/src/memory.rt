//! The memory of a coordinator.
ghost use Rattle.std.specs.Prelude.{◌≡◌, ◌<◌, ◌≤◌, ◌+◌, ◌++◌, ◌^◌, [], map, length, is_none, true, IfOk, OnOk, OnErr, Some, None, Err, Ok, if◌then◌else◌};
ghost use Rattle.std.specs.List.{list_all, list_any};
ghost use Rattle.std.specs.Option.{option_copied};
ghost use Rattle.durable_records.specs.declared.coordinators.SessionRecord.TheVariants as log;
ghost use Rattle.lock_table.specs.Locks.{locks, TakesAtMost};
ghost use Rattle.lock_table.specs.Answers.{FindsConflict};
ghost use Rattle.session_log.specs.SnapshotOf.{snapshot_of};
ghost use Rattle.session_log.specs.Soundness.{all_differ, is_ended_branch, is_open_with, same_ticket_key, tickets};
ghost use Rattle.session_memory.specs.Lookups.{session_in, status_in, xid_for, ticket_leg, call_leg, branches_in, next_open, is_with, xid_of};
ghost use Rattle.session_memory.specs.Holding.{held_in};
ghost use Rattle.session_memory.specs.Changes.{is_new, is_open, may_come, after, granted_record, taken_rows, turns, MayTake, TakesIn};
ghost use Rattle.session_memory.specs.Order.{IsCounted};
ghost use Rattle.session_memory.specs.Loading.{LoadsSnapshot};
ghost use Rattle.session_memory.specs.Owners.{most_branches};

use crate::ends::Ends;
use crate::errors::LoadError;
use crate::owners::TicketOwners;
use crate::{allowing, grants, loading, lookups, snapshots, statuses};
use durable_records::SessionRecord;
use lock_table::{HoldError, LockTable, Steps};
use seata_types::{BranchId, BranchKind, GlobalStatus, Leg, List, NoMemory, RowKey, Ticket, Xid};
use session_log::{Branch, RegisterPlace, Session, Snapshot};
use std::alloc::Global;
use std::marker::Model;
use std::sync::ledger::Ledger;

/// All that a coordinator knows of its transactions: contracts see the snapshot of its records. The table of global locks
/// beside it has the rows that the snapshot's branches hold, and each AT branch's ticket tells the branch, so that the branch of
/// a ticket isn't looked for among those of its transaction. An open branch is looked for behind those that are known to be ended.
#[derive(Drop)]
pub struct Memory {
    snapshot: Snapshot,
    locks: LockTable,
    owners: TicketOwners,
    ends: Ends,
}

impl Model for Memory {
    ghost use Rattle.session_log.specs.declared.sessions.Snapshot.{Snapshot as Known};
    ghost use Rattle.session_memory.specs.Order.{IsKept};
    ghost use Rattle.session_memory.specs.Owners.{AreOwned};
    ghost use Rattle.session_memory.specs.Ends.{AreSpans};

    ghost Value = { Known };

    ghost view = { λ m. m.snapshot };

    ghost invariant = { λ m. IsKept m.snapshot m.locks × AreOwned m.owners m.snapshot.sessions × AreSpans m.ends m.snapshot.sessions };
}

impl Memory {
    /// No transaction began; takes no memory.
    pub fn new(alloc: Global) -> Memory
        ensures { result ≡ snapshot_of [] }
    {
        let snapshot = Snapshot {
            acts: 0,
            begun: 0,
            granted: 0,
            sessions: List::of(Vec::new(alloc)),
            forgotten: List::of(Vec::new(alloc)),
        };
        Memory {
            snapshot,
            locks: LockTable::new(alloc),
            owners: TicketOwners::new(alloc),
            ends: Ends::new(alloc),
        }
    }

    /// A memory of a snapshot in which no two AT branches of a resource have one ticket, unless a row has two holders in it.
    pub fn load<L: Ledger>(
        alloc: Global,
        snapshot: Snapshot,
        steps: &mut Steps<L>,
    ) -> Result<Memory, LoadError>
        requires counted { IsCounted snapshot }
        requires tickets { all_differ same_ticket_key (tickets snapshot) ≡ true }
        ensures { LoadsSnapshot snapshot result }
    {
        let Ok(owners) = TicketOwners::of(alloc, snapshot.sessions.as_slice()) else {
            drop(snapshot);
            return Err(LoadError::NoMemory);
        };
        let ends = Ends::of(alloc, snapshot.sessions.as_slice());
        let mut locks = LockTable::new(alloc);
        match loading::take_all(alloc, &mut locks, snapshot.sessions.as_slice(), steps) {
            Ok(()) => Ok(Memory {
                snapshot,
                locks,
                owners,
                ends,
            }),
            Err(error) => {
                drop(snapshot);
                Err(error)
            }
        }
    }

    /// The snapshot, to be written; takes no memory.
    pub fn snapshot(&self) -> &Snapshot
        ensures { result.now ≡ self.now }
    {
        &self.snapshot
    }

    /// Which transaction holds a row.
    pub fn locks(&self) -> &LockTable
        ensures rows { result.now ≡ held_in self.now }
    {
        &self.locks
    }

    /// A transaction, where it is known; takes no memory.
    pub fn find(&self, xid: Xid) -> Option<&Session>
        ensures { option_copied result ≡ session_in self.now xid.0 }
    {
        lookups::session(self.snapshot.sessions.as_slice(), xid)
    }

    /// The branch of a transaction that is asked next: after a commit the first one that isn't ended, else the last one. Branches that
    /// ended in this order aren't passed again. Takes no memory.
    pub fn next_open(&self, xid: Xid, commit: bool) -> Option<&Branch>
        ensures { option_copied result ≡ next_open commit (branches_in self.now xid.0) }
    {
        match self.find(xid) {
            Some(session) => self
                .ends
                .next_open(xid, session.branches.as_slice(), commit),
            None => None,
        }
    }

    /// The status of a transaction: Finished where it isn't known. Takes no memory.
    pub fn status(&self, xid: Xid) -> GlobalStatus
        ensures { result ≡ status_in self.now xid.0 }
    {
        match self.find(xid) {
            Some(session) => session.status,
            None => GlobalStatus::Finished,
        }
    }

    /// The transaction that a manager began, also where it is forgotten; takes no memory.
    pub fn manager_xid(&self, manager: u16) -> Option<Xid>
        ensures { result ≡ xid_for self.now manager }
    {
        match lookups::known_xid(self.snapshot.sessions.as_slice(), manager) {
            Some(xid) => Some(xid),
            None => lookups::forgotten_xid(self.snapshot.forgotten.as_slice(), manager),
        }
    }

    /// The AT branch that was registered for a resource's ticket, of a transaction that is known; takes no memory. A step is
    /// a look-up of a transaction, one at most, or a branch of it that is passed.
    pub fn ticket_leg<L: Ledger>(
        &self,
        resource: u16,
        ticket: Ticket,
        steps: &mut Steps<L>,
    ) -> Option<Leg>
        ensures leg { result ≡ ticket_leg self.now resource ticket }
        ensures cost { steps.new ≤ steps.old + 1 + most_branches self.now.sessions }
    {
        match self.owners.find(resource, ticket) {
            Some(leg) => self.if_known(leg, resource, ticket, steps),
            None => None,
        }
    }

    // A branch, where it is known and has this ticket. What was kept of a branch that memory was refused for isn't.
    fn if_known<L: Ledger>(
        &self,
        leg: Leg,
        resource: u16,
        ticket: Ticket,
        steps: &mut Steps<L>,
    ) -> Option<Leg>
        ensures leg { result ≡ (if list_any (is_with leg.branch.0 resource ticket)
            (branches_in self.now leg.xid.0) then Some leg else None) }
        ensures cost { steps.new ≤ steps.old + 1 }
    {
        steps.tick();
        if self.has_ticket(leg, resource, ticket) {
            return Some(leg);
        }
        None
    }

    fn has_ticket(&self, leg: Leg, resource: u16, ticket: Ticket) -> bool
        ensures { result ≡ list_any (is_with leg.branch.0 resource ticket)
            (branches_in self.now leg.xid.0) }
    {
        match lookups::session(self.snapshot.sessions.as_slice(), leg.xid) {
            Some(session) => {
                lookups::is_with(session.branches.as_slice(), leg.branch, resource, ticket)
            }
            None => false,
        }
    }

    /// The TCC branch that was registered for a call of a known transaction at a resource; takes no memory. A step is a
    /// look-up of a transaction, one here, or a branch of it that is passed.
    pub fn call_leg<L: Ledger>(
        &self,
        xid: Xid,
        resource: u16,
        call: u16,
        steps: &mut Steps<L>,
    ) -> Option<Leg>
        ensures leg { result ≡ call_leg self.now xid resource call }
        ensures cost { steps.new ≤ steps.old + 1 + length (branches_in self.now xid.0) }
    {
        steps.tick();
        match self.find(xid) {
            Some(session) => {
                lookups::leg(xid, session.branches.as_slice(), resource, call, steps)
            }
            None => None,
        }
    }

    /// Whether another transaction holds a row, and the first one, of those to hold and then those to check, as an error. A step is a
    /// comparison of two keys.
    pub fn conflict<L: Ledger>(
        &self,
        alloc: Global,
        xid: Xid,
        hold: &[RowKey],
        check: &[RowKey],
        steps: &mut Steps<L>,
    ) -> Result<(), HoldError>
        ensures found { FindsConflict (locks (held_in self.now)) xid
            (hold.now ++ check.now) result }
        ensures cost { TakesAtMost (length hold.now + length check.now)
            (length (locks (held_in self.now))) steps.old steps.new }
    {
        self.locks.conflict(alloc, xid, hold, check, steps)
    }

    /// The numbers of the transactions that are known, in rising order.
    pub fn list(&self, alloc: Global) -> Result<List<Xid>, NoMemory>
        ensures all { IfOk result (λ xids. xids ≡ map xid_of self.now.sessions) }
        ensures order { IsCounted self.now }
    {
        lookups::xids(alloc, self.snapshot.sessions.as_slice())
    }

    /// The number of the next transaction.
    pub fn next_xid(&self) -> Xid
        ensures { result.0 ≡ self.now.begun + 1 }
    {
        let acts = u64::from(self.snapshot.acts);
        prove!(self.snapshot.begun <= acts);
        Xid(self.snapshot.begun + 1)
    }

    /// The number of the next branch.
    pub fn next_branch(&self) -> BranchId
        ensures { result.0 ≡ self.now.granted + 1 }
    {
        let acts = u64::from(self.snapshot.acts);
        prove!(self.snapshot.granted <= acts);
        BranchId(self.snapshot.granted + 1)
    }

    /// Whether a record may come; takes no memory. A step is a comparison of two keys, or one of those of a look-up of a
    /// branch.
    pub fn allows<L: Ledger>(&self, item: &SessionRecord, steps: &mut Steps<L>) -> bool
        ensures { result ≡ may_come self.now item.now }
    {
        match item {
            SessionRecord::Begun { xid, manager, .. } => {
                xid.0 == self.next_xid().0 && self.manager_xid(*manager).is_none()
            }
            SessionRecord::Granted {
                xid,
                branch,
                resource,
                call,
                ticket,
                kind,
                hold,
            } => {
                statuses::is_begin(self.status(*xid))
                    && branch.0 == self.next_branch().0
                    && self.is_new(*xid, *resource, *call, *ticket, *kind, steps)
                    && allowing::are_free(&self.locks, *xid, hold.as_slice(), steps)
            }
            SessionRecord::Decided { xid, .. } => statuses::is_begin(self.status(*xid)),
            SessionRecord::Retrying { xid } => statuses::has_retrying(self.status(*xid)),
            SessionRecord::Ended { xid, branch } => self.is_open(*xid, *branch),
            SessionRecord::Failed { xid, branch, .. } => self.is_open(*xid, *branch),
            SessionRecord::Finished { xid } => self.may_finish(*xid),
            SessionRecord::Forgot { xid } => statuses::is_finished(self.status(*xid)),
        }
    }

    // Whether nothing is registered for this.
    fn is_new<L: Ledger>(
        &self,
        xid: Xid,
        resource: u16,
        call: u16,
        ticket: Ticket,
        kind: BranchKind,
        steps: &mut Steps<L>,
    ) -> bool
        ensures { result ≡ is_new self.now xid resource call ticket kind }
    {
        match kind {
            BranchKind::At => self.ticket_leg(resource, ticket, steps).is_none(),
            BranchKind::Tcc => self.call_leg(xid, resource, call, steps).is_none(),
        }
    }

    // Whether this is an unended branch of a transaction in its second phase.
    fn is_open(&self, xid: Xid, branch: BranchId) -> bool
        ensures { result ≡ is_open self.now xid.0 branch.0 }
    {
        statuses::is_going(self.status(xid)) && self.has_open(xid, branch)
    }

    fn has_open(&self, xid: Xid, branch: BranchId) -> bool
        ensures { result ≡ list_any (is_open_with branch.0) (branches_in self.now xid.0) }
    {
        match lookups::session(self.snapshot.sessions.as_slice(), xid) {
            Some(session) => lookups::has_open(session.branches.as_slice(), branch),
            None => false,
        }
    }

    // Whether all branches of a transaction in its second phase are ended.
    fn may_finish(&self, xid: Xid) -> bool
        ensures { result ≡ may_come self.now (log.Finished xid) }
    {
        statuses::is_going(self.status(xid)) && self.are_ended(xid)
    }

    fn are_ended(&self, xid: Xid) -> bool
        ensures { result ≡ list_all is_ended_branch (branches_in self.now xid.0) }
    {
        self.next_open(xid, true).is_none()
    }

    /// Takes in one more record that may come. After an error all is as before. A step is a comparison of two keys: those of rows
    /// that a branch takes, which aren't searched again.
    pub fn apply<L: Ledger>(
        &mut self,
        alloc: Global,
        item: &SessionRecord,
        steps: &mut Steps<L>,
    ) -> Result<(), NoMemory>
        requires allowed { may_come self.old item.now ≡ true }
        requires room { self.old.acts + 1 < 2 ^ 32 }
        ensures ok { OnOk result (self.new ≡ after item.now self.old) }
        ensures err { OnErr result (self.new ≡ self.old) }
        ensures cost { TakesAtMost (length (taken_rows item.now))
            (length (locks (held_in self.old)) + length (taken_rows item.now)) steps.old steps.new }
    {
        match item {
            SessionRecord::Begun {
                xid,
                manager,
                begun,
                timeout,
            } => self.begin(alloc, *xid, *manager, *begun, *timeout),
            SessionRecord::Granted {
                xid,
                branch,
                resource,
                call,
                ticket,
                kind,
                hold,
            } => {
                let place = RegisterPlace {
                    resource: *resource,
                    call: *call,
                    ticket: *ticket,
                    kind: *kind,
                };
                self.grant(alloc, *xid, *branch, place, hold.as_slice(), steps)
            }
            SessionRecord::Forgot { xid } => self.forget(alloc, *xid),
            SessionRecord::Decided { .. } => self.turn(alloc, item),
            SessionRecord::Retrying { .. } => self.turn(alloc, item),
            SessionRecord::Ended { .. } => self.turn(alloc, item),
            SessionRecord::Failed { .. } => self.turn(alloc, item),
            SessionRecord::Finished { .. } => self.turn(alloc, item),
        }
    }

    // Registers a branch whose rows are free.
    fn grant<L: Ledger>(
        &mut self,
        alloc: Global,
        xid: Xid,
        branch: BranchId,
        place: RegisterPlace,
        hold: &[RowKey],
        steps: &mut Steps<L>,
    ) -> Result<(), NoMemory>
        requires { MayTake self.old (granted_record xid branch.0 place hold.now) }
        ensures taken { TakesIn (granted_record xid branch.0 place hold.now)
            result self.old self.new }
        ensures cost { TakesAtMost (length hold.now)
            (length (locks (held_in self.old)) + length hold.now) steps.old steps.new }
    {
        let rows = grants::copies(alloc, hold)?;
        let leg = Leg { xid, branch };
        self.locks.hold(alloc, leg, hold, steps)?;
        let branch = Branch {
            id: branch,
            place,
            hold: rows,
            ended: false,
        };
        let owners = &mut self.owners;
        if snapshots::register(alloc, &mut self.snapshot, owners, xid, branch).is_err() {
            self.locks.release(leg);
            return Err(NoMemory);
        }
        self.ends.forget(xid);
        Ok(())
    }

    // A transaction begins under the next number.
    fn begin(
        &mut self,
        alloc: Global,
        xid: Xid,
        manager: u16,
        begun: u64,
        timeout: u64,
    ) -> Result<(), NoMemory>
        requires next { xid.0 ≡ self.old.begun + 1 }
        requires room { self.old.acts + 1 < 2 ^ 32 }
        ensures { TakesIn (log.Begun xid manager begun timeout) result self.old self.new }
    {
        let _next = self.next_xid();
        snapshots::begin(alloc, &mut self.snapshot, xid, manager, begun, timeout)
    }

    // A transaction is known no more, and holds nothing.
    fn forget(&mut self, alloc: Global, xid: Xid) -> Result<(), NoMemory>
        requires room { self.old.acts + 1 < 2 ^ 32 }
        ensures { TakesIn (log.Forgot xid) result self.old self.new }
    {
        snapshots::forget(alloc, &mut self.snapshot, &mut self.owners, xid)?;
        self.locks.release_all(xid);
        self.ends.forget(xid);
        Ok(())
    }

    // A record changes its transaction, and registers no branch.
    fn turn(&mut self, alloc: Global, item: &SessionRecord) -> Result<(), NoMemory>
        requires turns { turns item.now ≡ true }
        requires may { MayTake self.old item.now }
        ensures { TakesIn item.now result self.old self.new }
    {
        snapshots::turn(alloc, &mut self.snapshot, item);
        allowing::give_back(&mut self.locks, item);
        self.ends.note(self.snapshot.sessions.as_slice(), item);
        Ok(())
    }
}
