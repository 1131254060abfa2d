//! The entries of a history, one after the other.
ghost use Rattle.std.specs.Prelude.{◌≡◌, map, IfOk};
ghost use Rattle.std.specs.Option.{option_copied};
ghost use Rattle.scenario_form.specs.Runnable.{IsRunnable};
ghost use Rattle.report_text.specs.Keeping.{number_at, resource_over};
ghost use Rattle.report_text.specs.Made.{sending_manager, run_by, run_for, tries_for};
ghost use Rattle.report_text.specs.Numbered.{AreFound};

use crate::before::Before;
use crate::left::{CoordinatorLeft, Folded, ResourceLeft};
use crate::scenarios;
use crate::sent::SentIndex;
use history_text::{Cause, Entry, Names};
use resource_memory::Memory;
use scenario_form::Scenario;
use seata_types::{Act, Durable, List, NoMemory, Place, Stmt};
use std::alloc::Global;

impl Folded {
    ghost use Rattle.std.specs.Prelude.{◌≡◌, IfOk, OnOk};
    ghost use Rattle.scenario_form.specs.Runnable.{IsRunnable};
    ghost use Rattle.history_text.specs.Report.{names_of};
    ghost use Rattle.report_text.specs.Folds.{first_folded, session_step, resource_step, entry_step};
    ghost use Rattle.report_text.specs.Following.{FollowsAll};

    /// What the entries of a history leave, from the first to the last, over what its disks held.
    pub(crate) fn of_history(
        alloc: Global,
        scenario: &Scenario,
        names: &Names,
        before: Before,
        history: &[Entry],
    ) -> Result<Folded, NoMemory>
        requires runnable { IsRunnable scenario.now }
        requires names { names.now ≡ names_of scenario.now }
        ensures { IfOk result (FollowsAll scenario.now before history.now) }
    {
        let mut folded = Folded::over(alloc, before)?;
        for (k, next) in history.iter().enumerate() {
            folded.take(alloc, scenario, names, &history[..k], next)?;
        }
        Ok(folded)
    }

    /// Before the first entry.
    pub(crate) fn over(alloc: Global, before: Before) -> Result<Folded, NoMemory>
        ensures { IfOk result (λ folded. folded ≡ first_folded before) }
    {
        let Before {
            sessions,
            resources,
        } = before;
        let coordinator = CoordinatorLeft::over(alloc, sessions)?;
        let resources = over_all(alloc, resources)?;
        Ok(Folded {
            coordinator,
            resources,
            sent: SentIndex::new(alloc),
            reads: String::new(alloc),
        })
    }

    // The next entry, behind these.
    fn take(
        &mut self,
        alloc: Global,
        scenario: &Scenario,
        names: &Names,
        before: &[Entry],
        next: &Entry,
    ) -> Result<(), NoMemory>
        requires { IsRunnable scenario.now }
        ensures { OnOk result (self.new ≡
            entry_step scenario.now names.now before.now next.entry.now self.old) }
    {
        match next.place {
            Place::Tc => self.take_session(alloc, before, next)?,
            Place::Res(n) => self.take_resource(alloc, scenario, names, n, next)?,
            Place::Net => {}
            Place::Man(_) => {}
        }
        self.sent.add(before.len(), next)
    }

    // The next entry, of the coordinator.
    fn take_session(
        &mut self,
        alloc: Global,
        before: &[Entry],
        next: &Entry,
    ) -> Result<(), NoMemory>
        ensures { OnOk result (self.new ≡ session_step before.now next.entry.now self.old) }
    {
        let heard = self.sent.note(before, &next.cause);
        self.coordinator.take(alloc, next, heard)
    }

    // The next entry, of a resource, counted from 1.
    fn take_resource(
        &mut self,
        alloc: Global,
        scenario: &Scenario,
        names: &Names,
        n: u16,
        next: &Entry,
    ) -> Result<(), NoMemory>
        requires { IsRunnable scenario.now }
        ensures { OnOk result (self.new ≡
            resource_step scenario.now names.now n next.entry.now self.old) }
    {
        if n == 0 || n as usize > self.resources.len() {
            return Ok(());
        }
        let run = statements(scenario, &self.coordinator, n, next);
        let tries = tries(scenario, next);
        let resource = &mut self.resources[n as usize - 1];
        resource.take(alloc, next, run, tries, &mut self.reads, names)
    }
}

// Resources before the first entry.
fn over_all(alloc: Global, memories: Vec<Memory>) -> Result<Vec<ResourceLeft>, NoMemory>
    ensures { IfOk result (λ made. made.items ≡ map resource_over memories.items) }
{
    let mut made = Vec::new(alloc);
    for memory in memories {
        let resource = ResourceLeft::over(alloc, memory)?;
        made.push(resource)?;
    }
    Ok(made)
}

// The manager that sent the message that a cause delivers, 0 where none did.
fn sending_manager(cause: &Cause) -> u16
    ensures { result ≡ sending_manager cause.now }
{
    match cause {
        Cause::Deliver {
            from: Place::Man(m),
            ..
        } => *m,
        _ => 0,
    }
}

// The statements of a confirm, a cancel or an outside write of a resource.
fn run_by<'a>(
    scenario: &'a Scenario,
    coordinator: &CoordinatorLeft,
    n: u16,
    done: Durable,
) -> Option<&'a List<Stmt>>
    requires { IsRunnable scenario.now }
    ensures { AreFound (option_copied result)
        (run_by scenario.now (number_at coordinator.now.managers)
        (number_at coordinator.now.calls) n done) }
{
    match done {
        Durable::Confirmed { xid, branch } => {
            scenarios::confirms(
                scenario,
                n,
                coordinator.manager(xid),
                coordinator.call(branch),
            )
        }
        Durable::Cancelled { xid, branch } => {
            scenarios::cancels(
                scenario,
                n,
                coordinator.manager(xid),
                coordinator.call(branch),
            )
        }
        Durable::Outside { number } => scenarios::local(scenario, n, number),
        _ => None,
    }
}

// The statements that an entry of a resource is about.
fn statements<'a>(
    scenario: &'a Scenario,
    coordinator: &CoordinatorLeft,
    n: u16,
    next: &Entry,
) -> Option<&'a List<Stmt>>
    requires { IsRunnable scenario.now }
    ensures { AreFound (option_copied result)
        (run_for scenario.now (number_at coordinator.now.managers)
        (number_at coordinator.now.calls) n next.entry.now.cause next.entry.now.act) }
{
    match &next.act {
        Act::Opened { call, .. } => {
            scenarios::statements(scenario, sending_manager(&next.cause), *call)
        }
        Act::OpenedLocal { number, .. } => scenarios::local(scenario, n, *number),
        Act::Durable(done) => run_by(scenario, coordinator, n, *done),
        Act::Down { at: Some(done), .. } => run_by(scenario, coordinator, n, *done),
        _ => None,
    }
}

// The statements of the Try that an entry opens a ticket for.
fn tries<'a>(scenario: &'a Scenario, next: &Entry) -> Option<&'a List<Stmt>>
    requires { IsRunnable scenario.now }
    ensures { AreFound (option_copied result)
        (tries_for scenario.now next.entry.now.cause next.entry.now.act) }
{
    match &next.act {
        Act::Opened { call, .. } => scenarios::tries(scenario, sending_manager(&next.cause), *call),
        _ => None,
    }
}
