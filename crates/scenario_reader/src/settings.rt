//! The numbers of a scenario.
ghost use Rattle.serde_json.specs.View.{view};
ghost use Rattle.scenario_reader.specs.Faults.{Answers};
ghost use Rattle.scenario_reader.specs.Form as form;

use crate::errors::ScenarioError;
use crate::numbers::number_member;
use seata_types::limits::{
    DEFAULT_DISK, DEFAULT_LOCK_TRIES, DEFAULT_RETRY, DEFAULT_TIMEOUT, DISK_LEAST, DISK_MOST,
    LOCK_TRIES, TICKS,
};
use serde_json::Value;
use std::alloc::Global;

/// The numbers of a scenario, with their defaults filled in.
#[derive(Clone, Copy)]
pub struct Settings {
    pub timeout: u64,
    pub lock_tries: u32,
    pub retry: u64,
    pub forget: u64,
    pub disk: u64,
}

/// The numbers of a scenario.
#[tactic(auto, unfolding(crate::specs::Form::settings))]
pub fn settings_of(alloc: Global, value: &Value) -> Result<Settings, ScenarioError>
    ensures exact { Answers (form.settings (view value.now)) result }
{
    let timeout = number_member(alloc, "timeout", DEFAULT_TIMEOUT, 1, TICKS, value)?;
    let lock_tries = number_member(
        alloc,
        "lockTries",
        DEFAULT_LOCK_TRIES as u64,
        1,
        LOCK_TRIES as u64,
        value,
    )?;
    let retry = number_member(alloc, "retry", DEFAULT_RETRY, 1, TICKS, value)?;
    let forget = number_member(alloc, "forget", 0, 0, TICKS, value)?;
    let disk = number_member(alloc, "disk", DEFAULT_DISK, DISK_LEAST, DISK_MOST, value)?;
    Ok(Settings {
        timeout,
        lock_tries: lock_tries as u32,
        retry,
        forget,
        disk,
    })
}
