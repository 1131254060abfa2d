//! The shapes of JSON values: texts, lists, and objects with their members.
ghost use Rattle.std.specs.Prelude.{◌≡◌, ◌≤◌, Some, map, option_map, option_copied, length, string_bytes, IfOk};
ghost use Rattle.std.specs.List.{list_all};
ghost use Rattle.std.specs.BTreeMap.{keys};
ghost use Rattle.serde_json.specs.Find.{as_str, as_array};
ghost use Rattle.serde_json.specs.View.{view, items_view};
ghost use Rattle.scenario_reader.specs.Faults as form;
ghost use Rattle.scenario_reader.specs.Faults.{Answers, AnswersAs};

use crate::errors::ScenarioError;
use serde_json::Value;
use std::alloc::Global;
use std::collections::BTreeMap;

/// A text.
pub fn text_in(alloc: Global, value: &Value) -> Result<&str, ScenarioError>
    ensures { AnswersAs (λ text. text.now) (form.text_by (as_str (view value.now))) result }
{
    match value.as_str() {
        Some(text) => Ok(text),
        None => Err(ScenarioError::shape(alloc)),
    }
}

/// A text that has to be there.
#[tactic(auto, unfolding(crate::specs::Faults::text))]
pub fn text<'a>(alloc: Global, found: Option<&'a Value>) -> Result<&'a str, ScenarioError>
    ensures { AnswersAs (λ text. text.now) (form.text (option_map view (option_copied found.entry))) result }
{
    match found {
        Some(value) => text_in(alloc, value),
        None => Err(ScenarioError::shape(alloc)),
    }
}

/// The items of a list.
#[tactic(auto, unfolding(crate::specs::Faults::any_list))]
pub fn any_list(alloc: Global, value: &Value) -> Result<&[Value], ScenarioError>
    ensures { AnswersAs (λ items. items_view items.now) (form.any_list (view value.now)) result }
{
    match value.as_array() {
        Some(items) => Ok(items.as_slice()),
        None => Err(ScenarioError::shape(alloc)),
    }
}

/// The items of a list that has to be there and has at most so many.
#[tactic(auto, using(crate::proofs::Items::length_of_items), unfolding(crate::specs::Faults::list))]
pub fn list<'a>(
    alloc: Global,
    most: usize,
    found: Option<&'a Value>,
) -> Result<&'a [Value], ScenarioError>
    ensures exact { AnswersAs (λ items. items_view items.now) (form.list most (option_map view (option_copied found.entry))) result }
    ensures short { IfOk result (λ items. length items.now ≤ most) }
{
    match found.and_then(Value::as_array) {
        Some(items) => {
            if items.len() > most {
                return Err(ScenarioError::beyond(alloc, most as u64));
            }
            Ok(items.as_slice())
        }
        None => Err(ScenarioError::shape(alloc)),
    }
}

/// The two items of a list.
#[tactic(auto, using(crate::proofs::Items::no_pair), unfolding(crate::specs::Faults::pair))]
pub fn pair(alloc: Global, value: &Value) -> Result<(&Value, &Value), ScenarioError>
    ensures { AnswersAs (λ p. (view p.0.now, view p.1.now)) (form.pair (view value.now)) result }
{
    match value.as_array() {
        Some(items) => match items.as_slice() {
            [first, second] => Ok((first, second)),
            _ => Err(ScenarioError::shape(alloc)),
        },
        None => Err(ScenarioError::shape(alloc)),
    }
}

/// The three items of a list.
#[tactic(auto, using(crate::proofs::Items::no_triple), unfolding(crate::specs::Faults::triple))]
pub fn triple(alloc: Global, value: &Value) -> Result<(&Value, &Value, &Value), ScenarioError>
    ensures { AnswersAs (λ p. (view p.0.now, view p.1.now, view p.2.now)) (form.triple (view value.now)) result }
{
    match value.as_array() {
        Some(items) => match items.as_slice() {
            [first, second, third] => Ok((first, second, third)),
            _ => Err(ScenarioError::shape(alloc)),
        },
        None => Err(ScenarioError::shape(alloc)),
    }
}

/// An object.
pub fn an_object(alloc: Global, value: &Value) -> Result<(), ScenarioError>
    ensures { Answers (form.an_object (view value.now)) result }
{
    match value.as_object() {
        Some(_) => Ok(()),
        None => Err(ScenarioError::shape(alloc)),
    }
}

fn is_known(mut names: &[&str], name: &str) -> bool
    ensures { result ≡ form.is_known (map (λ n. n.now) names.entry.now) name.now }
{
    while let [known, rest @ ..] = names {
        if name == *known {
            return true;
        }
        names = rest;
    }
    false
}

fn are_known(names: &[&str], members: &BTreeMap<String, Value>) -> bool
    ensures { result ≡ list_all (λ k. form.is_known (map (λ n. n.now) names.now) (string_bytes k)) (keys members.now) }
{
    members.keys().all(|name| is_known(names, name.as_str()))
}

/// An object without other members than these.
#[tactic(auto, using(crate::proofs::Items::only_keys), unfolding(crate::specs::Faults::only))]
pub fn only(alloc: Global, names: &[&str], value: &Value) -> Result<(), ScenarioError>
    ensures { Answers (form.only (map (λ n. n.now) names.now) (view value.now)) result }
{
    match value.as_object() {
        Some(members) => {
            if !are_known(names, members) {
                return Err(ScenarioError::shape(alloc));
            }
            Ok(())
        }
        None => Err(ScenarioError::shape(alloc)),
    }
}

/// Whether an object has a member of this name.
pub fn has(name: &str, value: &Value) -> bool
    ensures { result ≡ form.has name.now (view value.now) }
{
    value.get(name).is_some()
}
