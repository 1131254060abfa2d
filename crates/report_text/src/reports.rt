//! The report of a history, and what is shown of disks.
ghost use Rattle.std.specs.Prelude.{◌≡◌, [], ◌++◌, codes, map, IfOk, OnOk, string_bytes};
ghost use Rattle.scenario_form.specs.Runnable.{IsRunnable};
ghost use Rattle.history_text.specs.Lines.{entry_text};
ghost use Rattle.history_text.specs.Report as report;
ghost use Rattle.history_rules.specs.Nodes.{Past};
ghost use Rattle.report_text.specs.Following.{IsRead, Reports};
ghost use Rattle.report_text.specs.Sections.{line_in, locks_in, rows_in, rows_kept, fences_in, fences_kept, shown_text, state_kept, text_kept};

use crate::before::Before;
use crate::left::{CoordinatorLeft, Folded, ResourceLeft};
use crate::sections;
use history_text::{Entry, Names};
use scenario_form::{ManagerDef, ResourceDef, Scenario};
use seata_types::{Duplicate, List, NoMemory, Text};
use std::alloc::{AllocError, Global};

/// The names of the resources.
fn resource_names(alloc: Global, resources: &[ResourceDef]) -> Result<List<Text>, NoMemory>
    ensures { IfOk result (λ names. names ≡ map report.resource_name resources.now) }
{
    let mut names = Vec::new(alloc);
    for resource in resources {
        names.push(resource.name.copy(alloc)?)?;
    }
    Ok(List::of(names))
}

/// The names of the managers.
fn manager_names(alloc: Global, managers: &[ManagerDef]) -> Result<List<Text>, NoMemory>
    ensures { IfOk result (λ names. names ≡ map report.manager_name managers.now) }
{
    let mut names = Vec::new(alloc);
    for manager in managers {
        names.push(manager.name.copy(alloc)?)?;
    }
    Ok(List::of(names))
}

/// The names of a scenario's nodes.
pub fn node_names(alloc: Global, scenario: &Scenario) -> Result<Names, NoMemory>
    ensures { IfOk result (λ names. names ≡ report.names_of scenario.now) }
{
    Ok(Names {
        resources: resource_names(alloc, scenario.resources.as_slice())?,
        managers: manager_names(alloc, scenario.managers.as_slice())?,
    })
}

/// A text; here want of memory is one error with that of the lists.
fn put(out: &mut String, text: &str) -> Result<(), NoMemory>
    ensures { OnOk result (string_bytes out.new ≡ string_bytes out.old ++ text.now) }
{
    match out.push_str(text) {
        Ok(()) => Ok(()),
        Err(AllocError) => Err(NoMemory),
    }
}

/// The lines of the entries, behind their heading.
fn put_entries(out: &mut String, history: &[Entry], names: &Names) -> Result<(), NoMemory>
    ensures { OnOk result (string_bytes out.new ≡ string_bytes out.old ++
        (report.line (codes "entries") ++ report.lines (entry_text names.now) history.now)) }
{
    put(out, "entries\n")?;
    match sections::put_entries(out, history, names) {
        Ok(()) => Ok(()),
        Err(AllocError) => Err(NoMemory),
    }
}

/// The lines of the sessions, behind their heading.
fn put_sessions(
    out: &mut String,
    coordinator: &CoordinatorLeft,
    names: &Names,
) -> Result<(), NoMemory>
    ensures { OnOk result (string_bytes out.new ≡ string_bytes out.old ++
        (report.line (codes "sessions") ++
        report.lines (report.session_text names.now)
        (map line_in coordinator.now.known.sessions))) }
{
    put(out, "sessions\n")?;
    let sessions = coordinator.memory.snapshot().sessions.as_slice();
    match sections::put_sessions(out, sessions, names) {
        Ok(()) => Ok(()),
        Err(AllocError) => Err(NoMemory),
    }
}

/// The lines of the rows that are held, behind their heading.
fn put_locks(
    alloc: Global,
    out: &mut String,
    coordinator: &CoordinatorLeft,
    names: &Names,
) -> Result<(), NoMemory>
    ensures { OnOk result (string_bytes out.new ≡ string_bytes out.old ++
        (report.line (codes "locks") ++
        report.lines (report.holder_text names.now) (locks_in coordinator.now))) }
{
    put(out, "locks\n")?;
    let locks = coordinator.memory.locks().list(alloc)?;
    match sections::put_locks(out, locks.as_slice(), names) {
        Ok(()) => Ok(()),
        Err(AllocError) => Err(NoMemory),
    }
}

/// The lines of the rows of a resource.
fn put_rows(
    alloc: Global,
    out: &mut String,
    resource: &ResourceLeft,
    names: &Names,
) -> Result<(), NoMemory>
    ensures { OnOk result (string_bytes out.new ≡ string_bytes out.old ++
        report.lines (report.table_row_text names.now) (rows_in resource.now)) }
{
    let tables = resource.memory.tables();
    let rows = tables.list(alloc)?;
    let defs = tables.schema().tables.as_slice();
    match sections::put_tables(out, tables.resource(), defs, rows.as_slice(), names) {
        Ok(()) => Ok(()),
        Err(AllocError) => Err(NoMemory),
    }
}

/// The lines of the rows of all resources, behind their heading.
fn put_tables(
    alloc: Global,
    out: &mut String,
    resources: &[ResourceLeft],
    names: &Names,
) -> Result<(), NoMemory>
    ensures { OnOk result (string_bytes out.new ≡ string_bytes out.old ++
        (report.line (codes "tables") ++
        report.lines (report.table_row_text names.now) (rows_kept resources.now))) }
{
    put(out, "tables\n")?;
    for resource in resources {
        put_rows(alloc, out, resource, names)?;
    }
    Ok(())
}

/// The lines of the branches of a resource that have a fence.
fn put_resource_fences(
    alloc: Global,
    out: &mut String,
    resource: &ResourceLeft,
    names: &Names,
) -> Result<(), NoMemory>
    ensures { OnOk result (string_bytes out.new ≡ string_bytes out.old ++
        report.lines (report.fence_text names.now) (fences_in resource.now)) }
{
    let fences = resource.memory.fence().list(alloc)?;
    let number = resource.memory.tables().resource();
    match sections::put_fences(out, number, fences.as_slice(), names) {
        Ok(()) => Ok(()),
        Err(AllocError) => Err(NoMemory),
    }
}

/// The lines of all branches that have a fence, behind their heading.
fn put_fences(
    alloc: Global,
    out: &mut String,
    resources: &[ResourceLeft],
    names: &Names,
) -> Result<(), NoMemory>
    ensures { OnOk result (string_bytes out.new ≡ string_bytes out.old ++
        (report.line (codes "fences") ++
        report.lines (report.fence_text names.now) (fences_kept resources.now))) }
{
    put(out, "fences\n")?;
    for resource in resources {
        put_resource_fences(alloc, out, resource, names)?;
    }
    Ok(())
}

/// The sections of what stands: transactions, rows that are held, tables and fences.
fn put_state(
    alloc: Global,
    out: &mut String,
    folded: &Folded,
    names: &Names,
) -> Result<(), NoMemory>
    ensures { OnOk result (string_bytes out.new ≡ string_bytes out.old ++
        state_kept names.now folded.now.coordinator folded.now.resources []) }
{
    let resources = folded.resources.as_slice();
    put_sessions(out, &folded.coordinator, names)?;
    put_locks(alloc, out, &folded.coordinator, names)?;
    put_tables(alloc, out, resources, names)?;
    put_fences(alloc, out, resources, names)?;
    Ok(())
}

/// The text of a report.
#[tactic(auto, unfolding(crate::specs::Sections::text_kept))]
fn put_report(
    alloc: Global,
    out: &mut String,
    history: &[Entry],
    folded: &Folded,
    names: &Names,
) -> Result<(), NoMemory>
    ensures { OnOk result (string_bytes out.new ≡ string_bytes out.old ++
        text_kept names.now history.now
        folded.now.coordinator folded.now.resources folded.now.reads) }
{
    put_entries(out, history, names)?;
    put_state(alloc, out, folded, names)?;
    put(out, "reads\n")?;
    put(out, folded.reads.as_str())?;
    Ok(())
}

/// The report of a history, from its scenario, what its disks held before and its entries alone: the entries in order; the
/// transactions that are known, with their statuses; the rows that are held; the rows of all tables; the branches that have a
/// fence; and the rows that local commits read. An act in flight of a node that is down counts once a restart has kept it.
pub fn write_report(
    alloc: Global,
    scenario: &Scenario,
    before: Before,
    history: &[Entry],
) -> Result<String, NoMemory>
    requires { IsRunnable scenario.now }
    ensures { IfOk result (λ text. (past : Past) → IsRead scenario.now before past →
        Reports scenario.now past history.now (string_bytes text)) }
{
    let names = node_names(alloc, scenario)?;
    let folded = Folded::of_history(alloc, scenario, &names, before, history)?;
    let mut out = String::new(alloc);
    match put_report(alloc, &mut out, history, &folded, &names) {
        Ok(()) => Ok(out),
        Err(NoMemory) => Err(NoMemory),
    }
}

/// What the disks of a scenario's nodes hold, from its scenario and what was read of them alone: the transactions that are
/// known, with their statuses; the rows that are held; the rows of all tables; and the branches that have a fence.
pub fn write_state(alloc: Global, scenario: &Scenario, before: Before) -> Result<String, NoMemory>
    ensures { IfOk result (λ text. (past : Past) → IsRead scenario.now before past →
        string_bytes text ≡ shown_text scenario.now past) }
{
    let names = node_names(alloc, scenario)?;
    let folded = Folded::over(alloc, before)?;
    let mut out = String::new(alloc);
    match put_state(alloc, &mut out, &folded, &names) {
        Ok(()) => Ok(out),
        Err(NoMemory) => Err(NoMemory),
    }
}
