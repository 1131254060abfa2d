//! Managers.
ghost use Rattle.std.specs.Prelude.{◌≡◌, ◌≤◌, [], option_map, option_copied, length, IfOk};
ghost use Rattle.seata_types.specs.declared.limits.TheConstants.{MANAGERS, RESOURCES};
ghost use Rattle.serde_json.specs.View.{view, items_view};
ghost use Rattle.scenario_reader.specs.Managers as form;
ghost use Rattle.scenario_reader.specs.Faults.{Answers, AnswersAs, each, vec_of};

use crate::calls::calls;
use crate::errors::ScenarioError;
use crate::names::new_node;
use crate::numbers::{number_in, number_member};
use crate::shapes::{an_object, list, only, text};
use scenario_form::{ManagerDef, ResourceDef};
use seata_types::limits::{MANAGERS, SILENT, TICKS};
use seata_types::{Ending, List, Text, Work};
use serde_json::Value;
use std::alloc::Global;

/// How a transaction is ended.
#[tactic(auto, unfolding(crate::specs::Managers::ending))]
fn ending(alloc: Global, found: Option<&Value>) -> Result<Ending, ScenarioError>
    ensures { Answers (form.ending (option_map view (option_copied found.entry))) result }
{
    let word = text(alloc, found)?;
    if word == "commit" {
        return Ok(Ending::Commit);
    }
    if word == "rollback" {
        return Ok(Ending::Rollback);
    }
    Err(ScenarioError::shape(alloc))
}

/// How many messages a manager may send, without a bound where that is left out.
#[tactic(auto, unfolding(crate::specs::Managers::silent))]
fn silent(alloc: Global, found: Option<&Value>) -> Result<Option<u32>, ScenarioError>
    ensures { Answers (form.silent (option_map view (option_copied found.entry))) result }
{
    match found {
        Some(value) => {
            let most = number_in(alloc, 0, SILENT as u64, value)?;
            Ok(Some(most as u32))
        }
        None => Ok(None),
    }
}

/// Whether a manager asks for the status once it has closed.
#[tactic(auto, unfolding(crate::specs::Managers::poll))]
fn poll(alloc: Global, found: Option<&Value>) -> Result<bool, ScenarioError>
    ensures { Answers (form.poll (option_map view (option_copied found.entry))) result }
{
    match found {
        Some(value) => match value.as_bool() {
            Some(asks) => Ok(asks),
            None => Err(ScenarioError::shape(alloc)),
        },
        None => Ok(false),
    }
}

const MANAGER_MEMBERS: [&str; 6] = ["name", "timeout", "calls", "end", "silent", "poll"];

/// A manager's name, timeout and calls, behind these managers.
#[tactic(auto, unfolding(crate::specs::Managers::heading))]
fn heading(
    alloc: Global,
    resources: &[ResourceDef],
    timeout: u64,
    defs: &[ManagerDef],
    value: &Value,
) -> Result<(Text, u64, List<(u16, Work)>), ScenarioError>
    requires { length resources.now ≤ RESOURCES }
    ensures exact { Answers (form.heading resources.now timeout defs.now (view value.now)) result }
{
    an_object(alloc, value)?;
    let name = match new_node(alloc, resources, defs, value.get("name")) {
        Ok(name) => name,
        Err(fault) => return Err(fault.in_member(alloc, "name")),
    };
    let ticks = number_member(alloc, "timeout", timeout, 1, TICKS, value)?;
    match calls(alloc, resources, value.get("calls")) {
        Ok(calls) => Ok((name, ticks, calls)),
        Err(fault) => Err(fault.in_member(alloc, "calls")),
    }
}

/// A manager's end, and how it falls silent and asks.
#[tactic(auto, unfolding(crate::specs::Managers::closing))]
fn closing(alloc: Global, value: &Value) -> Result<(Ending, Option<u32>, bool), ScenarioError>
    ensures exact { Answers (form.closing (view value.now)) result }
{
    let ending = match ending(alloc, value.get("end")) {
        Ok(ending) => ending,
        Err(fault) => return Err(fault.in_member(alloc, "end")),
    };
    let silent = match silent(alloc, value.get("silent")) {
        Ok(silent) => silent,
        Err(fault) => return Err(fault.in_member(alloc, "silent")),
    };
    match poll(alloc, value.get("poll")) {
        Ok(poll) => Ok((ending, silent, poll)),
        Err(fault) => Err(fault.in_member(alloc, "poll")),
    }
}

/// A manager, behind these, with this timeout where it has none of its own.
#[tactic(auto, unfolding(crate::specs::Managers::manager))]
fn manager(
    alloc: Global,
    resources: &[ResourceDef],
    timeout: u64,
    defs: &[ManagerDef],
    value: &Value,
) -> Result<ManagerDef, ScenarioError>
    requires { length resources.now ≤ RESOURCES }
    ensures exact { Answers (form.manager resources.now timeout defs.now (view value.now)) result }
{
    let (name, timeout, calls) = heading(alloc, resources, timeout, defs, value)?;
    let (ending, silent, poll) = closing(alloc, value)?;
    only(alloc, &MANAGER_MEMBERS, value)?;
    Ok(ManagerDef {
        name,
        timeout,
        calls,
        ending,
        silent,
        poll,
    })
}

fn each_manager(
    alloc: Global,
    resources: &[ResourceDef],
    timeout: u64,
    values: &[Value],
) -> Result<Vec<ManagerDef>, ScenarioError>
    requires { length resources.now ≤ RESOURCES }
    ensures exact { AnswersAs vec_of (each (form.manager resources.now timeout) [] (items_view values.now)) result }
    ensures whole { IfOk result (λ managers. length managers.items ≡ length values.now) }
{
    let mut managers = Vec::new(alloc);
    for value in values {
        let found = match manager(alloc, resources, timeout, managers.as_slice(), value) {
            Ok(found) => found,
            Err(fault) => return Err(fault.in_item(alloc, managers.len())),
        };
        managers.push(found)?;
    }
    Ok(managers)
}

/// The managers, with different names, each with this timeout where it has none of its own.
#[tactic(auto, unfolding(crate::specs::Managers::managers))]
pub fn managers(
    alloc: Global,
    resources: &[ResourceDef],
    timeout: u64,
    found: Option<&Value>,
) -> Result<List<ManagerDef>, ScenarioError>
    requires { length resources.now ≤ RESOURCES }
    ensures exact { Answers (form.managers resources.now timeout (option_map view (option_copied found.entry))) result }
    ensures few { IfOk result (λ managers. length managers ≤ MANAGERS) }
{
    let values = list(alloc, MANAGERS, found)?;
    let managers = each_manager(alloc, resources, timeout, values)?;
    Ok(List::of(managers))
}
