//! What the disks of a shelf show.
ghost use Rattle.std.specs.Prelude.{◌≡◌, ◌≢◌, [], IfOk};
ghost use Rattle.scenario_form.specs.Runnable.{IsRunnable};
ghost use Rattle.store_shown.specs.Showing.{IsState, Shows, ShowsNodes};

use crate::bases::read_base;
use crate::before::read_before;
use crate::found::Shown;
use disk_model::Shelf;
use history_text::Names;
use node_seat::RunFault;
use report_text::{Before, node_names, write_state};
use scenario_form::Scenario;
use scenario_reader::{ScenarioError, read};
use seata_types::{List, NoMemory, Text};
use std::alloc::Global;

/// What keeps a text from being a scenario, unless it is want of memory.
fn no_scenario(error: ScenarioError) -> Result<Shown, NoMemory>
    ensures { IfOk result (λ found. (error ≢ ScenarioError.NoMemory) × (found ≡ Shown.NoScenario error)) }
{
    if matches!(error, ScenarioError::NoMemory) {
        drop(error);
        return Err(NoMemory);
    }
    Ok(Shown::NoScenario(error))
}

/// Why the disks of nodes with these names weren't read, unless memory was refused.
fn unread(fault: RunFault, names: Names) -> Result<Shown, NoMemory>
    ensures { IfOk result (λ found. (fault ≢ RunFault.NoMemory) × (found ≡ Shown.Unread fault names)) }
{
    if matches!(fault, RunFault::NoMemory) {
        drop(names);
        return Err(NoMemory);
    }
    Ok(Shown::Unread { fault, names })
}

/// The names of no nodes.
fn no_names(alloc: Global) -> Names
    ensures resources { result.resources ≡ [] }
    ensures managers { result.managers ≡ [] }
{
    Names {
        resources: List::of(Vec::new(alloc)),
        managers: List::of(Vec::new(alloc)),
    }
}

/// What the disks of a scenario's nodes hold, told.
fn state_of(alloc: Global, scenario: &Scenario, before: Before) -> Result<Shown, NoMemory>
    ensures { IfOk result (IsState scenario.now before) }
{
    let text = write_state(alloc, scenario, before)?;
    Ok(Shown::State(Text::of(text)))
}

/// What the disks of a scenario's nodes show, which are read and given back.
fn show_nodes<H: Shelf>(
    alloc: Global,
    scenario: &Scenario,
    shelf: &mut H,
) -> Result<Shown, NoMemory>
    requires { IsRunnable scenario.now }
    ensures { ShowsNodes H.D.state scenario.now (H.state shelf.old) (H.state shelf.new) result }
{
    match read_before(alloc, scenario, shelf) {
        Ok(before) => state_of(alloc, scenario, before),
        Err(fault) => match node_names(alloc, scenario) {
            Ok(names) => unread(fault, names),
            Err(NoMemory) => Err(NoMemory),
        },
    }
}

/// Reads the text that the disk `net` of a shelf keeps as a scenario, and then what the disks of its nodes hold, and tells it.
/// Each disk is given back, and no byte is changed.
pub fn shown<H: Shelf>(alloc: Global, shelf: &mut H) -> Result<Shown, NoMemory>
    ensures { Shows H.D.state H.state shelf.old shelf.new result }
{
    let found = match read_base(alloc, shelf) {
        Ok(found) => found,
        Err(fault) => return unread(fault, no_names(alloc)),
    };
    let Some(text) = found else {
        return Ok(Shown::Empty);
    };
    match read(alloc, text.as_slice()) {
        Ok(scenario) => show_nodes(alloc, &scenario, shelf),
        Err(error) => no_scenario(error),
    }
}
