//! The calls of managers, and the locals.
ghost use Rattle.std.specs.Prelude.{◌≡◌, ◌≤◌, ◌<◌, [], option_map, option_copied, length, codes, IfOk};
ghost use Rattle.seata_types.specs.declared.limits.TheConstants.{LOCALS, RESOURCES};
ghost use Rattle.serde_json.specs.View.{view, items_view};
ghost use Rattle.scenario_reader.specs.Calls as form;
ghost use Rattle.scenario_reader.specs.Faults.{Answers, AnswersAs, each, member, vec_of};

use crate::errors::ScenarioError;
use crate::names::{is_word, position_of};
use crate::shapes::{an_object, has, list, only, text};
use crate::statements::statements;
use local_tables::Schema;
use scenario_form::ResourceDef;
use seata_types::limits::{CALLS, LOCALS};
use seata_types::{Action, BranchKind, List, Shared, Stmt, Work};
use serde_json::Value;
use std::alloc::Global;

/// Whether this is a call of the TCC mode.
fn is_action(value: &Value) -> bool
    ensures { result ≡ form.is_action (view value.now) }
{
    !has("do", value) && (has("try", value) || has("confirm", value) || has("cancel", value))
}

/// The statements of the AT mode.
#[tactic(auto, unfolding(crate::specs::Calls::at_work))]
fn at_work(alloc: Global, schema: &Schema, value: &Value) -> Result<Work, ScenarioError>
    ensures { Answers (form.at_work schema.now (view value.now)) result }
{
    match statements(alloc, schema, BranchKind::At, value.get("do")) {
        Ok(found) => Ok(Work::At(Shared::new(alloc, found)?)),
        Err(fault) => Err(fault.in_member(alloc, "do")),
    }
}

/// The actions of the TCC mode.
#[tactic(auto, unfolding(crate::specs::Calls::tcc_work))]
fn tcc_work(alloc: Global, schema: &Schema, value: &Value) -> Result<Work, ScenarioError>
    ensures { Answers (form.tcc_work schema.now (view value.now)) result }
{
    let tries = match statements(alloc, schema, BranchKind::Tcc, value.get("try")) {
        Ok(tries) => tries,
        Err(fault) => return Err(fault.in_member(alloc, "try")),
    };
    let confirms = match statements(alloc, schema, BranchKind::Tcc, value.get("confirm")) {
        Ok(confirms) => confirms,
        Err(fault) => return Err(fault.in_member(alloc, "confirm")),
    };
    let cancels = match statements(alloc, schema, BranchKind::Tcc, value.get("cancel")) {
        Ok(cancels) => cancels,
        Err(fault) => return Err(fault.in_member(alloc, "cancel")),
    };
    let action = Action {
        tries,
        confirms,
        cancels,
    };
    Ok(Work::Tcc(Shared::new(alloc, action)?))
}

const LOCAL_MEMBERS: [&str; 2] = ["at", "do"];

const ACTION_MEMBERS: [&str; 4] = ["at", "try", "confirm", "cancel"];

/// A call without other members than those of its mode.
fn only_call(alloc: Global, value: &Value) -> Result<(), ScenarioError>
    ensures { Answers (form.only_call (view value.now)) result }
{
    if is_action(value) {
        return only(alloc, &ACTION_MEMBERS, value);
    }
    only(alloc, &LOCAL_MEMBERS, value)
}

/// The work of a call, by its mode.
fn call_work(alloc: Global, schema: &Schema, value: &Value) -> Result<Work, ScenarioError>
    ensures { Answers (form.call_work schema.now (view value.now)) result }
{
    if is_action(value) {
        return tcc_work(alloc, schema, value);
    }
    at_work(alloc, schema, value)
}

/// Where among the resources the named one stands, counted from 0.
#[tactic(auto, unfolding(crate::specs::Calls::resource_place))]
fn resource_place(
    alloc: Global,
    resources: &[ResourceDef],
    name: &str,
) -> Result<usize, ScenarioError>
    ensures exact { Answers (form.resource_place resources.now name.now) result }
    ensures within { IfOk result (λ k. k < length resources.now) }
{
    if !is_word(name) {
        return Err(ScenarioError::shape(alloc));
    }
    match position_of(resources, name) {
        Some(place) => Ok(place),
        None => Err(ScenarioError::name(alloc)),
    }
}

#[tactic(auto, unfolding(crate::specs::Calls::resource_at))]
fn resource_at(
    alloc: Global,
    resources: &[ResourceDef],
    found: Option<&Value>,
) -> Result<usize, ScenarioError>
    ensures exact { Answers (form.resource_at resources.now (option_map view (option_copied found.entry))) result }
    ensures within { IfOk result (λ k. k < length resources.now) }
{
    let name = text(alloc, found)?;
    resource_place(alloc, resources, name)
}

/// Where the resource of a call or a local stands.
fn place_of(alloc: Global, resources: &[ResourceDef], value: &Value) -> Result<usize, ScenarioError>
    ensures exact { Answers (member (codes "at") (form.resource_at resources.now) (view value.now)) result }
    ensures within { IfOk result (λ k. k < length resources.now) }
{
    match resource_at(alloc, resources, value.get("at")) {
        Ok(place) => Ok(place),
        Err(fault) => Err(fault.in_member(alloc, "at")),
    }
}

/// A call: its resource's number, counted from 1, and its work.
#[tactic(auto, unfolding(crate::specs::Calls::call))]
fn call(
    alloc: Global,
    resources: &[ResourceDef],
    value: &Value,
) -> Result<(u16, Work), ScenarioError>
    requires { length resources.now ≤ RESOURCES }
    ensures { Answers (form.call resources.now (view value.now)) result }
{
    an_object(alloc, value)?;
    let place = place_of(alloc, resources, value)?;
    let work = call_work(alloc, &resources[place].schema, value)?;
    only_call(alloc, value)?;
    Ok((place as u16 + 1, work))
}

fn each_call(
    alloc: Global,
    resources: &[ResourceDef],
    values: &[Value],
) -> Result<Vec<(u16, Work)>, ScenarioError>
    requires { length resources.now ≤ RESOURCES }
    ensures { AnswersAs vec_of (each (form.next_call resources.now) [] (items_view values.now)) result }
{
    let mut calls = Vec::new(alloc);
    for value in values {
        let found = match call(alloc, resources, value) {
            Ok(found) => found,
            Err(fault) => return Err(fault.in_item(alloc, calls.len())),
        };
        calls.push(found)?;
    }
    Ok(calls)
}

/// The calls of a manager.
#[tactic(auto, unfolding(crate::specs::Calls::calls))]
pub fn calls(
    alloc: Global,
    resources: &[ResourceDef],
    found: Option<&Value>,
) -> Result<List<(u16, Work)>, ScenarioError>
    requires { length resources.now ≤ RESOURCES }
    ensures { Answers (form.calls resources.now (option_map view (option_copied found.entry))) result }
{
    let values = list(alloc, CALLS, found)?;
    let calls = each_call(alloc, resources, values)?;
    Ok(List::of(calls))
}

/// The statements of a local.
fn local_statements(
    alloc: Global,
    schema: &Schema,
    value: &Value,
) -> Result<List<Stmt>, ScenarioError>
    ensures { Answers (form.local_statements schema.now (view value.now)) result }
{
    match statements(alloc, schema, BranchKind::At, value.get("do")) {
        Ok(found) => Ok(found),
        Err(fault) => Err(fault.in_member(alloc, "do")),
    }
}

/// A local: its resource's number, counted from 1, and its statements.
#[tactic(auto, unfolding(crate::specs::Calls::local_item))]
fn local_item(
    alloc: Global,
    resources: &[ResourceDef],
    value: &Value,
) -> Result<(u16, List<Stmt>), ScenarioError>
    requires { length resources.now ≤ RESOURCES }
    ensures { Answers (form.local_item resources.now (view value.now)) result }
{
    an_object(alloc, value)?;
    let place = place_of(alloc, resources, value)?;
    let found = local_statements(alloc, &resources[place].schema, value)?;
    only(alloc, &LOCAL_MEMBERS, value)?;
    Ok((place as u16 + 1, found))
}

fn each_local(
    alloc: Global,
    resources: &[ResourceDef],
    values: &[Value],
) -> Result<Vec<(u16, List<Stmt>)>, ScenarioError>
    requires { length resources.now ≤ RESOURCES }
    ensures exact { AnswersAs vec_of (each (form.next_local resources.now) [] (items_view values.now)) result }
    ensures whole { IfOk result (λ locals. length locals.items ≡ length values.now) }
{
    let mut locals = Vec::new(alloc);
    for value in values {
        let found = match local_item(alloc, resources, value) {
            Ok(found) => found,
            Err(fault) => return Err(fault.in_item(alloc, locals.len())),
        };
        locals.push(found)?;
    }
    Ok(locals)
}

/// The locals, none where they are left out.
#[tactic(auto, unfolding(crate::specs::Calls::locals))]
pub fn locals(
    alloc: Global,
    resources: &[ResourceDef],
    found: Option<&Value>,
) -> Result<List<(u16, List<Stmt>)>, ScenarioError>
    requires { length resources.now ≤ RESOURCES }
    ensures exact { Answers (form.locals resources.now (option_map view (option_copied found.entry))) result }
    ensures few { IfOk result (λ locals. length locals ≤ LOCALS) }
{
    if found.is_none() {
        return Ok(List::of(Vec::new(alloc)));
    }
    let values = list(alloc, LOCALS, found)?;
    let locals = each_local(alloc, resources, values)?;
    Ok(List::of(locals))
}
