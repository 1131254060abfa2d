//! The nodes that a step or a stop names, and the stops.
ghost use Rattle.std.specs.Prelude.{◌≤◌, [], option_map, option_copied, length};
ghost use Rattle.seata_types.specs.declared.limits.TheConstants.{MANAGERS, RESOURCES};
ghost use Rattle.serde_json.specs.View.{view, items_view};
ghost use Rattle.scenario_reader.specs.Nodes as form;
ghost use Rattle.scenario_reader.specs.Faults.{Answers, AnswersAs, each, vec_of};

use crate::errors::ScenarioError;
use crate::names::{is_word, position_of};
use crate::numbers::number_in;
use crate::shapes::{any_list, text_in, triple};
use disk_model::LAST_PICK;
use scenario_form::{ManagerDef, ResourceDef};
use seata_types::limits::STOP_CALLS;
use seata_types::{List, Place};
use serde_json::Value;
use std::alloc::Global;

/// The coordinator or the resource of this name.
#[tactic(auto, unfolding(crate::specs::Nodes::server))]
pub fn server(alloc: Global, resources: &[ResourceDef], name: &str) -> Result<Place, ScenarioError>
    requires { length resources.now ≤ RESOURCES }
    ensures { Answers (form.server resources.now name.now) result }
{
    if name == "tc" {
        return Ok(Place::Tc);
    }
    match position_of(resources, name) {
        Some(place) => Ok(Place::Res(place as u16 + 1)),
        None => Err(ScenarioError::name(alloc)),
    }
}

/// The node of this name.
#[tactic(auto, unfolding(crate::specs::Nodes::node))]
pub fn node(
    alloc: Global,
    resources: &[ResourceDef],
    managers: &[ManagerDef],
    name: &str,
) -> Result<Place, ScenarioError>
    requires resources { length resources.now ≤ RESOURCES }
    requires managers { length managers.now ≤ MANAGERS }
    ensures { Answers (form.node resources.now managers.now name.now) result }
{
    if name == "tc" {
        return Ok(Place::Tc);
    }
    if let Some(place) = position_of(resources, name) {
        return Ok(Place::Res(place as u16 + 1));
    }
    match position_of(managers, name) {
        Some(place) => Ok(Place::Man(place as u16 + 1)),
        None => Err(ScenarioError::name(alloc)),
    }
}

/// The node of a stop.
fn stopped(alloc: Global, resources: &[ResourceDef], value: &Value) -> Result<Place, ScenarioError>
    requires { length resources.now ≤ RESOURCES }
    ensures { Answers (form.stopped resources.now (view value.now)) result }
{
    let name = text_in(alloc, value)?;
    if !is_word(name) {
        return Err(ScenarioError::shape(alloc));
    }
    server(alloc, resources, name)
}

/// A stop: a node with disks, how many calls of them it makes, and the pick of its restart.
#[tactic(auto, unfolding(crate::specs::Nodes::stop))]
fn stop(
    alloc: Global,
    resources: &[ResourceDef],
    value: &Value,
) -> Result<(Place, u32, u16), ScenarioError>
    requires { length resources.now ≤ RESOURCES }
    ensures { Answers (form.stop resources.now (view value.now)) result }
{
    let (first, second, third) = triple(alloc, value)?;
    let place = match stopped(alloc, resources, first) {
        Ok(place) => place,
        Err(fault) => return Err(fault.in_item(alloc, 0)),
    };
    let calls = match number_in(alloc, 0, STOP_CALLS as u64, second) {
        Ok(calls) => calls,
        Err(fault) => return Err(fault.in_item(alloc, 1)),
    };
    match number_in(alloc, 0, LAST_PICK as u64, third) {
        Ok(pick) => Ok((place, calls as u32, pick as u16)),
        Err(fault) => Err(fault.in_item(alloc, 2)),
    }
}

fn each_stop(
    alloc: Global,
    resources: &[ResourceDef],
    values: &[Value],
) -> Result<Vec<(Place, u32, u16)>, ScenarioError>
    requires { length resources.now ≤ RESOURCES }
    ensures { AnswersAs vec_of (each (form.next_stop resources.now) [] (items_view values.now)) result }
{
    let mut stops = Vec::new(alloc);
    for value in values {
        let found = match stop(alloc, resources, value) {
            Ok(found) => found,
            Err(fault) => return Err(fault.in_item(alloc, stops.len())),
        };
        stops.push(found)?;
    }
    Ok(stops)
}

/// The stops, none where they are left out.
#[tactic(auto, unfolding(crate::specs::Nodes::stops))]
pub fn stops(
    alloc: Global,
    resources: &[ResourceDef],
    found: Option<&Value>,
) -> Result<List<(Place, u32, u16)>, ScenarioError>
    requires { length resources.now ≤ RESOURCES }
    ensures { Answers (form.stops resources.now (option_map view (option_copied found.entry))) result }
{
    match found {
        Some(value) => {
            let values = any_list(alloc, value)?;
            let stops = each_stop(alloc, resources, values)?;
            Ok(List::of(stops))
        }
        None => Ok(List::of(Vec::new(alloc))),
    }
}
