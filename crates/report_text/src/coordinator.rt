//! One more entry of the coordinator.
ghost use Rattle.std.specs.Prelude.{◌≡◌, ◌<◌, ◌+◌, ◌^◌, true, IfOk, OnOk, OnErr};
ghost use Rattle.std.specs.Option.{option_copied, option_and_then};
ghost use Rattle.report_text.specs.Keeping.{managers_among, calls_among, calls_of_branches};
ghost use Rattle.report_text.specs.Made.{sending_resource, begun_from, granted_from, session_made};

use crate::left::CoordinatorLeft;
use crate::numbers::Numbers;
use durable_records::SessionRecord;
use history_text::{Cause, Entry, Note};
use seata_types::{Act, BranchId, Decision, Duplicate, Durable, NoMemory, Place, Xid};
use session_log::{Branch, SessionEntry};
use session_memory::Memory;
use session_memory::uncounted::{allows, apply};
use std::alloc::Global;
use std::mem;

impl CoordinatorLeft {
    ghost use Rattle.std.specs.Prelude.{◌≡◌, OnOk, IfOk};
    ghost use Rattle.std.specs.Option.{option_copied};
    ghost use Rattle.report_text.specs.Made.{session_made};
    ghost use Rattle.report_text.specs.Keeping.{coordinator_over, number_at, with_session, with_sessions, settled, with_flight, session_taken, with_manager, with_call};

    /// Before the first entry, over what the coordinator's disks held.
    pub(crate) fn over(alloc: Global, memory: Memory) -> Result<CoordinatorLeft, NoMemory>
        ensures { IfOk result (λ left. left ≡ coordinator_over memory) }
    {
        let mut managers = Numbers::new(alloc);
        let mut calls = Numbers::new(alloc);
        note_managers(&mut managers, memory.snapshot().sessions.as_slice())?;
        note_calls(&mut calls, memory.snapshot().sessions.as_slice())?;
        Ok(CoordinatorLeft {
            memory,
            flight: None,
            managers,
            calls,
        })
    }

    /// The manager that began a transaction, 0 where none is kept; takes no memory.
    pub(crate) fn manager(&self, xid: Xid) -> u16
        ensures { result ≡ number_at self.now.managers xid.0 }
    {
        self.managers.at(xid.0)
    }

    /// The call that a branch was granted for, 0 where none is kept; takes no memory.
    pub(crate) fn call(&self, branch: BranchId) -> u16
        ensures { result ≡ number_at self.now.calls branch.0 }
    {
        self.calls.at(branch.0)
    }

    /// The next entry, with the note of the message that it took.
    pub(crate) fn take(
        &mut self,
        alloc: Global,
        next: &Entry,
        heard: Option<&Note>,
    ) -> Result<(), NoMemory>
        ensures { OnOk result (self.new ≡
            session_taken
            (session_made next.entry.now (option_copied heard.entry)) next.entry.now.act self.old) }
    {
        match &next.act {
            Act::Durable(done) => {
                self.settle(alloc, None)?;
                let made = session_record(alloc, next, heard, *done)?;
                self.stand(alloc, made)
            }
            Act::Down { kept, at } => {
                self.settle(alloc, *kept)?;
                let made = asked_record(alloc, next, heard, *at)?;
                self.fly(made);
                Ok(())
            }
            Act::Restarted { kept } => self.settle(alloc, *kept),
            _ => Ok(()),
        }
    }

    // Nothing is in flight any more, and what was stands where it was kept.
    fn settle(&mut self, alloc: Global, kept: Option<Durable>) -> Result<(), NoMemory>
        ensures { OnOk result (self.new ≡ settled kept self.old) }
    {
        let flight = mem::replace(&mut self.flight, None);
        if kept.is_some() {
            return self.stand(alloc, flight);
        }
        drop(flight);
        Ok(())
    }

    // A record is in flight in place of the one before.
    fn fly(&mut self, made: Option<SessionRecord>)
        ensures { self.new ≡ with_flight made self.old }
    {
        drop(mem::replace(&mut self.flight, made));
    }

    // One more record stands, if there is one.
    fn stand(&mut self, alloc: Global, made: Option<SessionRecord>) -> Result<(), NoMemory>
        ensures { OnOk result (self.new ≡ with_sessions made self.old) }
    {
        match made {
            Some(item) => {
                let result = self.add(alloc, &item);
                drop(item);
                result
            }
            None => Ok(()),
        }
    }

    // One more record stands; no legal history has one that may not come.
    fn add(&mut self, alloc: Global, item: &SessionRecord) -> Result<(), NoMemory>
        ensures { OnOk result (self.new ≡ with_session item.now self.old) }
    {
        if self.memory.snapshot().acts == u32::MAX || !allows(&self.memory, item) {
            return Ok(());
        }
        apply(alloc, &mut self.memory, item)?;
        self.count(item)
    }

    // The manager of a transaction, or the call of a branch, is found by its number from now on.
    fn count(&mut self, item: &SessionRecord) -> Result<(), NoMemory>
        ensures managers { OnOk result (self.new.managers ≡
            with_manager item.now self.old.managers) }
        ensures calls { OnOk result (self.new.calls ≡ with_call item.now self.old.calls) }
        ensures known { self.new.known ≡ self.old.known }
        ensures flight { self.new.flight ≡ self.old.flight }
    {
        match item {
            SessionRecord::Begun { xid, manager, .. } => self.managers.add(xid.0, *manager),
            SessionRecord::Granted { branch, call, .. } => self.calls.add(branch.0, *call),
            _ => Ok(()),
        }
    }
}

// The managers of transactions that are known.
fn note_managers(managers: &mut Numbers, sessions: &[SessionEntry]) -> Result<(), NoMemory>
    ensures { OnOk result (managers.new ≡ managers_among sessions.now managers.old) }
{
    for entry in sessions {
        managers.add(entry.xid.0, entry.session.manager)?;
    }
    Ok(())
}

// The calls of their branches.
fn note_calls(calls: &mut Numbers, sessions: &[SessionEntry]) -> Result<(), NoMemory>
    ensures { OnOk result (calls.new ≡ calls_among sessions.now calls.old) }
{
    for entry in sessions {
        note_branches(calls, entry.session.branches.as_slice())?;
    }
    Ok(())
}

// The calls of these branches.
fn note_branches(calls: &mut Numbers, branches: &[Branch]) -> Result<(), NoMemory>
    ensures { OnOk result (calls.new ≡ calls_of_branches branches.now calls.old) }
{
    for branch in branches {
        calls.add(branch.id.0, branch.place.call)?;
    }
    Ok(())
}

// The resource that sent the message that a cause delivers.
fn sending_resource(cause: &Cause) -> Option<u16>
    ensures { result ≡ sending_resource cause.now }
{
    match cause {
        Cause::Deliver {
            from: Place::Res(n),
            ..
        } => Some(*n),
        _ => None,
    }
}

// The record of a Begin that was taken.
fn begun(xid: Xid, now: u64, heard: Option<&Note>) -> Option<SessionRecord>
    ensures { result ≡ begun_from xid now (option_copied heard.entry) }
{
    match heard {
        Some(Note::Begin { manager, timeout }) => Some(SessionRecord::Begun {
            xid,
            manager: *manager,
            begun: now,
            timeout: *timeout,
        }),
        _ => None,
    }
}

// The record of a Register that was taken from a resource.
fn granted(
    alloc: Global,
    xid: Xid,
    branch: BranchId,
    heard: Option<&Note>,
    resource: Option<u16>,
) -> Result<Option<SessionRecord>, NoMemory>
    ensures { IfOk result (λ made. made ≡
        granted_from xid branch (option_copied heard.entry) resource) }
{
    match (heard, resource) {
        (
            Some(
                Note::Register {
                    call,
                    ticket,
                    kind,
                    hold,
                    ..
                },
            ),
            Some(resource),
        ) => {
            let hold = hold.copy(alloc)?;
            Ok(Some(SessionRecord::Granted {
                xid,
                branch,
                resource,
                call: *call,
                ticket: *ticket,
                kind: *kind,
                hold,
            }))
        }
        _ => Ok(None),
    }
}

// The record of a durable act of the coordinator.
fn session_record(
    alloc: Global,
    next: &Entry,
    heard: Option<&Note>,
    done: Durable,
) -> Result<Option<SessionRecord>, NoMemory>
    ensures { IfOk result (λ made. made ≡
        session_made next.entry.now (option_copied heard.entry) done) }
{
    match done {
        Durable::Begun { xid } => Ok(begun(xid, next.now, heard)),
        Durable::Granted { xid, branch } => {
            granted(alloc, xid, branch, heard, sending_resource(&next.cause))
        }
        Durable::Late { xid } => Ok(Some(SessionRecord::Decided {
            xid,
            how: Decision::Timeout,
        })),
        Durable::Decided { xid, how } => Ok(Some(SessionRecord::Decided { xid, how })),
        Durable::Ended { xid, branch } => Ok(Some(SessionRecord::Ended { xid, branch })),
        Durable::Retrying { xid, branch: _ } => Ok(Some(SessionRecord::Retrying { xid })),
        Durable::Failed { xid, branch, stmt } => {
            Ok(Some(SessionRecord::Failed { xid, branch, stmt }))
        }
        Durable::Finished { xid, status: _ } => Ok(Some(SessionRecord::Finished { xid })),
        Durable::Forgot { xid } => Ok(Some(SessionRecord::Forgot { xid })),
        _ => Ok(None),
    }
}

// The record of the act in flight of an entry that took the coordinator down.
fn asked_record(
    alloc: Global,
    next: &Entry,
    heard: Option<&Note>,
    at: Option<Durable>,
) -> Result<Option<SessionRecord>, NoMemory>
    ensures { IfOk result (λ made. made ≡
        option_and_then (session_made next.entry.now (option_copied heard.entry)) at) }
{
    match at {
        Some(done) => session_record(alloc, next, heard, done),
        None => Ok(None),
    }
}
