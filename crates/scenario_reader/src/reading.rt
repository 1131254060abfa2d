//! Reading a scenario.
ghost use Rattle.std.specs.Prelude.{◌≡◌, ◌≢◌, ◌≤◌, length, IfOk, IfErr, MatchOption, Err, codes};
ghost use Rattle.seata_types.specs.declared.limits.TheConstants.{INPUT_BYTES};
ghost use Rattle.serde_json.specs.Data.{depth};
ghost use Rattle.serde_json.specs.View.{view};
ghost use Rattle.scenario_reader.specs.declared.bases.TheConstants.{JSON_DEPTH};
ghost use Rattle.scenario_reader.specs.Reading.{IsJson, IsNoJson, IsScenario, IsScenarioOf, IsFault, IsTooLong, without_events};
ghost use Rattle.scenario_reader.specs.Form.{scenario_of as form};
ghost use Rattle.scenario_reader.specs.declared.errors.ScenarioError.TheVariants as fault;
ghost use Rattle.scenario_form.specs.Runnable.{IsRunnable};

use crate::bases::{base_of, without_stops};
use crate::errors::ScenarioError;
use crate::forms::scenario_of;
use scenario_form::Scenario;
use seata_types::limits::INPUT_BYTES;
use seata_types::{NoMemory, Text};
use serde_json::Value;
use serde_json::error::Category;
use std::alloc::Global;

/// The JSON of the bytes; none where they are no JSON of nesting at most `JSON_DEPTH`.
#[tactic(auto, unfolding(crate::specs::Reading::IsJson, crate::specs::Reading::IsNoJson))]
fn json_of(alloc: Global, bytes: &[u8]) -> Result<Option<Value>, NoMemory>
    ensures { IfOk result (λ found. MatchOption found (IsNoJson bytes.now) (λ value. IsJson bytes.now (view value) × (depth (view value) ≤ JSON_DEPTH))) }
{
    match Value::from_slice(alloc, bytes) {
        Ok(value) => Ok(Some(value)),
        Err(error) => match error.classify() {
            Category::Memory => Err(NoMemory),
            _ => Ok(None),
        },
    }
}

/// The fault of an input that is too long.
fn too_long(alloc: Global) -> ScenarioError
    ensures { result ≢ fault.NoMemory → result ≡ fault.Limit (codes ".") INPUT_BYTES }
{
    let limit = INPUT_BYTES as u64;
    match String::from_str(alloc, ".") {
        Ok(path) => ScenarioError::Limit {
            path: Text::of(path),
            limit,
        },
        Err(_) => ScenarioError::NoMemory,
    }
}

/// The scenario of a JSON value, with the text under which it is kept.
#[tactic(auto, using(crate::proofs::Kept::without_stops_depth, crate::proofs::Whole::scenario_apart), unfolding(crate::specs::Reading::IsScenarioOf))]
fn kept_scenario(alloc: Global, value: Value) -> Result<Scenario, ScenarioError>
    requires { depth (view value) ≤ JSON_DEPTH }
    ensures ok { IfOk result (IsScenarioOf (view value)) }
    ensures err { IfErr result (λ e. e ≢ ScenarioError.NoMemory → form (view value) ≡ Err e) }
{
    let (value, stops) = without_stops(value);
    let mut scenario = scenario_of(alloc, stops, &value)?;
    scenario.base = base_of(alloc, value)?;
    Ok(scenario)
}

/// The scenario of JSON bytes, or what keeps them from being one.
#[tactic(auto, unfolding(crate::specs::Reading::IsScenario, crate::specs::Reading::IsFault, crate::specs::Reading::IsTooLong, crate::specs::Reading::IsNotJson, crate::specs::Reading::IsOtherForm))]
fn read_bytes(alloc: Global, bytes: &[u8]) -> Result<Scenario, ScenarioError>
    ensures ok { IfOk result (IsScenario bytes.now) }
    ensures err { IfErr result (λ error. error ≢ ScenarioError.NoMemory → IsFault bytes.now error) }
{
    if bytes.len() > INPUT_BYTES {
        return Err(too_long(alloc));
    }
    match json_of(alloc, bytes) {
        Ok(Some(value)) => kept_scenario(alloc, value),
        Ok(None) => Err(ScenarioError::NotJson),
        Err(NoMemory) => Err(ScenarioError::NoMemory),
    }
}

/// Reads a scenario from JSON text of at most 4,194,304 bytes. It names the first cause in the order
/// of the members that keeps the input from being one; want of memory is no cause. What it gives can be
/// run: all that it names is there, and within its limits. Its `base`, where it is no longer than what may
/// be read, reads as the same scenario without its stops and with an empty schedule.
#[tactic(auto, using(crate::proofs::BaseFacts::base_reads, crate::proofs::RunnableFacts::given))]
pub fn read(alloc: Global, bytes: &[u8]) -> Result<Scenario, ScenarioError>
    ensures ok { IfOk result (IsScenario bytes.now) }
    ensures runnable { IfOk result IsRunnable }
    ensures again { IfOk result (λ s. length s.base ≤ INPUT_BYTES → IsScenario s.base (without_events s)) }
    ensures err { IfErr result (λ error. error ≢ ScenarioError.NoMemory → IsFault bytes.now error) }
{
    read_bytes(alloc, bytes)
}
