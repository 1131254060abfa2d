//! The scenario of a JSON value, or its first fault in the order of the members.
ghost use Rattle.std.specs.Prelude.{◌≡◌, ◌≤◌, [], codes, length, Option, option_map, IfOk};
ghost use Rattle.seata_types.specs.declared.limits.TheConstants.{MANAGERS, RESOURCES};
ghost use Rattle.serde_json.specs.Data.{Data};
ghost use Rattle.serde_json.specs.View.{view};
ghost use Rattle.scenario_reader.specs.Form as form;
ghost use Rattle.scenario_reader.specs.Form.{IsTold};
ghost use Rattle.scenario_reader.specs.Faults.{Answers, to_member, within};
ghost use Rattle.scenario_reader.specs.Nodes.{stops};

use crate::calls::locals;
use crate::errors::ScenarioError;
use crate::managers::managers;
use crate::nodes::stops;
use crate::resources::resources;
use crate::schedules::schedule;
use crate::settings::{Settings, settings_of};
use crate::shapes::{an_object, only};
use scenario_form::{ManagerDef, ResourceDef, Scenario, ScheduleItem};
use seata_types::{List, NoMemory, Place, Stmt, Text};
use serde_json::Value;
use std::alloc::Global;

/// The locals, the stops and the schedule of a scenario.
type Events = (
    List<(u16, List<Stmt>)>,
    List<(Place, u32, u16)>,
    List<ScheduleItem>,
);

const SCENARIO_MEMBERS: [&str; 10] = [
    "timeout",
    "lockTries",
    "retry",
    "forget",
    "disk",
    "resources",
    "managers",
    "locals",
    "stops",
    "schedule",
];

/// An object without other members than those of a scenario.
#[tactic(auto, unfolding(crate::specs::Form::only_members))]
fn only_members(alloc: Global, value: &Value) -> Result<(), ScenarioError>
    ensures { Answers (form.only_members (view value.now)) result }
{
    only(alloc, &SCENARIO_MEMBERS, value)
}

/// The numbers and the resources of a scenario.
#[tactic(auto, unfolding(crate::specs::Form::servers))]
fn servers(alloc: Global, value: &Value) -> Result<(Settings, List<ResourceDef>), ScenarioError>
    ensures exact { Answers (form.servers (view value.now)) result }
    ensures few { IfOk result (λ s. length s.1 ≤ RESOURCES) }
{
    an_object(alloc, value)?;
    let set = settings_of(alloc, value)?;
    match resources(alloc, value.get("resources")) {
        Ok(resources) => Ok((set, resources)),
        Err(fault) => Err(fault.in_member(alloc, "resources")),
    }
}

/// The stops that were found, whose JSON is let go.
fn read_stops(
    alloc: Global,
    resources: &[ResourceDef],
    found: Option<Value>,
) -> Result<List<(Place, u32, u16)>, ScenarioError>
    requires { length resources.now ≤ RESOURCES }
    ensures { Answers (within (to_member (codes "stops")) (stops resources.now (option_map view found))) result }
{
    match stops(alloc, resources, found.as_ref()) {
        Ok(stops) => Ok(stops),
        Err(fault) => Err(fault.in_member(alloc, "stops")),
    }
}

/// The locals, the stops that were read, and the schedule of a scenario.
#[tactic(auto, unfolding(crate::specs::Form::events))]
fn events(
    alloc: Global,
    servers: &[ResourceDef],
    users: &[ManagerDef],
    halts: Result<List<(Place, u32, u16)>, ScenarioError>,
    value: &Value,
) -> Result<Events, ScenarioError>
    requires resources { length servers.now ≤ RESOURCES }
    requires managers { length users.now ≤ MANAGERS }
    ensures { (found : Option Data) → Answers (within (to_member (codes "stops")) (stops servers.now found)) halts → Answers (form.events servers.now users.now found (view value.now)) result }
{
    let writers = match locals(alloc, servers, value.get("locals")) {
        Ok(writers) => writers,
        Err(fault) => {
            drop(halts);
            return Err(fault.in_member(alloc, "locals"));
        }
    };
    let halts = match halts {
        Ok(halts) => halts,
        Err(fault) => return Err(fault),
    };
    let count = writers.as_slice().len();
    match schedule(alloc, servers, users, count, value.get("schedule")) {
        Ok(steps) => Ok((writers, halts, steps)),
        Err(fault) => Err(fault.in_member(alloc, "schedule")),
    }
}

/// The scenario but for its `base`, or the first fault with its path from the root. The stops, which are
/// the largest as JSON, are read and let go before the statements take their memory.
#[tactic(auto, unfolding(crate::specs::Form::parts, crate::specs::Form::nodes))]
fn parts(alloc: Global, found: Option<Value>, value: &Value) -> Result<Scenario, ScenarioError>
    ensures exact { Answers (form.parts (option_map view found) (view value.now)) result }
    ensures bare { IfOk result (λ s. s.base ≡ []) }
{
    let (set, resources) = servers(alloc, value)?;
    let servers = resources.as_slice();
    let halts = read_stops(alloc, servers, found);
    let managers = match managers(alloc, servers, set.timeout, value.get("managers")) {
        Ok(managers) => managers,
        Err(fault) => {
            drop(halts);
            return Err(fault.in_member(alloc, "managers"));
        }
    };
    let (locals, stops, schedule) = events(alloc, servers, managers.as_slice(), halts, value)?;
    only_members(alloc, value)?;
    Ok(Scenario {
        timeout: set.timeout,
        lock_tries: set.lock_tries,
        retry: set.retry,
        forget: set.forget,
        disk: set.disk,
        resources,
        managers,
        locals,
        stops,
        schedule,
        base: Text::of(String::new(alloc)),
    })
}

/// Makes a path one as it is told: that of the root is a point.
fn tell_path(alloc: Global, path: &mut Text) -> Result<(), NoMemory>
    ensures { IfOk result (λ _. path.new ≡ form.told_path path.old) }
{
    if path.as_str().is_empty() {
        let root = String::from_str(alloc, ".")?;
        *path = Text::of(root);
    }
    Ok(())
}

/// Makes the path of a fault one as it is told.
fn tell(alloc: Global, fault: &mut ScenarioError) -> Result<(), NoMemory>
    ensures { IfOk result (λ _. fault.new ≡ form.told fault.old) }
{
    match fault {
        ScenarioError::Shape { path } => tell_path(alloc, path),
        ScenarioError::Limit { path, .. } => tell_path(alloc, path),
        ScenarioError::Sql { path, .. } => tell_path(alloc, path),
        ScenarioError::Mode { path } => tell_path(alloc, path),
        ScenarioError::Name { path } => tell_path(alloc, path),
        ScenarioError::NotJson | ScenarioError::NoMemory => Ok(()),
    }
}

/// The fault with its path as it is told.
fn told(alloc: Global, mut fault: ScenarioError) -> ScenarioError
    ensures { IsTold fault result }
{
    match tell(alloc, &mut fault) {
        Ok(()) => fault,
        Err(NoMemory) => {
            drop(fault);
            ScenarioError::NoMemory
        }
    }
}

/// The scenario of a JSON value without its stops, and of these, but for its `base`, or its first fault.
pub fn scenario_of(
    alloc: Global,
    found: Option<Value>,
    value: &Value,
) -> Result<Scenario, ScenarioError>
    ensures exact { Answers (form.told_of (form.parts (option_map view found) (view value.now))) result }
    ensures bare { IfOk result (λ s. s.base ≡ []) }
{
    match parts(alloc, found, value) {
        Ok(scenario) => Ok(scenario),
        Err(fault) => Err(told(alloc, fault)),
    }
}
