//! The text under which a scenario is kept.
ghost use Rattle.std.specs.Prelude.{◌≡◌, ◌≤◌, codes, option_map, IfOk};
ghost use Rattle.serde_json.specs.Data.{depth, put, array, no_items};
ghost use Rattle.serde_json.specs.Find.{get, get_member};
ghost use Rattle.serde_json.specs.View.{view, members_view};
ghost use Rattle.scenario_reader.specs.declared.bases.TheConstants.{JSON_DEPTH};
ghost use Rattle.scenario_reader.specs.Bases.{without, without_stops, without_steps, IsTextOf};

use seata_types::{NoMemory, Text};
use serde_json::{Map, Value};
use std::alloc::Global;

/// How deep the values of an input may stand in one another: deeper ones are no JSON to `serde_json`.
pub const JSON_DEPTH: usize = 127;

/// Takes the stops out of the members.
#[tactic(auto, using(crate::proofs::Kept::members_view_without))]
fn take_stops(members: &mut Map<String, Value>) -> Option<Value>
    ensures rest { members_view members.new.entries ≡ without (codes "stops") (members_view members.old.entries) }
    ensures taken { option_map view result ≡ get_member (codes "stops") (members_view members.old.entries) }
{
    members.remove("stops")
}

/// The data of a scenario without its stops, and these.
pub fn without_stops(value: Value) -> (Value, Option<Value>)
    ensures rest { view result.0 ≡ without_stops (view value) }
    ensures stops { option_map view result.1 ≡ get (codes "stops") (view value) }
{
    match value {
        Value::Object(mut members) => {
            let stops = take_stops(&mut members);
            (Value::Object(members), stops)
        }
        other => (other, None),
    }
}

/// The members with an empty schedule.
fn without_steps(
    alloc: Global,
    mut members: Map<String, Value>,
) -> Result<Map<String, Value>, NoMemory>
    ensures { IfOk result (λ new. members_view new.entries ≡ put (codes "schedule") (array no_items) (members_view members.entries)) }
{
    let schedule = Value::Array(Vec::new(alloc));
    serde_json::put(&mut members, alloc, "schedule", schedule)?;
    Ok(members)
}

/// The data of a scenario with an empty schedule.
fn kept_value(alloc: Global, value: Value) -> Result<Value, NoMemory>
    ensures { IfOk result (λ new. view new ≡ without_steps (view value)) }
{
    match value {
        Value::Object(members) => {
            let members = without_steps(alloc, members)?;
            Ok(Value::Object(members))
        }
        other => Ok(other),
    }
}

/// The compact text of a scenario's data with an empty schedule.
#[tactic(auto, using(crate::proofs::Kept::without_steps_depth))]
pub fn base_of(alloc: Global, value: Value) -> Result<Text, NoMemory>
    requires { depth (view value) ≤ JSON_DEPTH }
    ensures { IfOk result (IsTextOf (without_steps (view value))) }
{
    let value = kept_value(alloc, value)?;
    let text = value.to_string(alloc)?;
    Ok(Text::of(text))
}
