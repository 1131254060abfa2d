//! The judgement of an input.
ghost use Rattle.std.specs.Prelude.{◌≡◌, ◌≢◌, ◌≤◌, length, Ok, true, false, IfOk};
ghost use Rattle.seata_types.specs.declared.limits.TheConstants.{HISTORY_BYTES};
ghost use Rattle.scenario_form.specs.Runnable.{IsRunnable};
ghost use Rattle.scenario_reader.specs.declared.errors.ScenarioError.TheVariants as fault;
ghost use Rattle.history_rules.specs.Nodes.{no_past};
ghost use Rattle.history_text.specs.Report.{names_of};
ghost use Rattle.history_text.specs.Worlds.{world_of};
ghost use Rattle.verdict_law.specs.Verdicts.{AreLegal};
ghost use Rattle.report_judge.specs.Judging.{IsFound, Judges};
ghost use Rattle.report_judge.specs.Reading.{Reads};
ghost use Rattle.report_judge.specs.Steps.{ComparesReport};
ghost use Rattle.report_judge.specs.declared.judgements.Judgement.TheVariants as judgement;

use crate::cutting::cut;
use crate::errors::LinesError;
use crate::judgements::Judgement;
use crate::reading::read_entries;
use history_audit::audit;
use history_text::Entry;
use report_text::{Before, node_names, write_report};
use scenario_form::Scenario;
use scenario_reader::{ScenarioError, read};
use seata_types::NoMemory;
use seata_types::limits::HISTORY_BYTES;
use std::alloc::Global;

/// Whether a text is the report of these entries.
fn is_report(
    alloc: Global,
    scenario: &Scenario,
    entries: &[Entry],
    text: &[u8],
) -> Result<bool, NoMemory>
    requires { IsRunnable scenario.now }
    ensures { IfOk result (ComparesReport scenario.now entries.now text.now) }
{
    let before = Before::none(alloc, scenario)?;
    let report = write_report(alloc, scenario, before, entries)?;
    Ok(report.as_bytes() == text)
}

/// What is found of a text whose entries are legal.
fn judge_report(
    alloc: Global,
    scenario: &Scenario,
    entries: &[Entry],
    text: &[u8],
) -> Result<Judgement, NoMemory>
    requires runnable { IsRunnable scenario.now }
    requires short { length text.now ≤ HISTORY_BYTES }
    requires read { Reads (names_of scenario.now) text.now (Ok entries.now) }
    requires legal { AreLegal (world_of scenario.now) no_past entries.now }
    ensures { IfOk result (IsFound scenario.now text.now) }
{
    match is_report(alloc, scenario, entries, text) {
        Ok(true) => Ok(Judgement::Legal),
        Ok(false) => Ok(Judgement::IllegalReport),
        Err(NoMemory) => Err(NoMemory),
    }
}

/// What is found of a text whose lines are read as these entries.
fn judge_entries(
    alloc: Global,
    scenario: &Scenario,
    entries: &[Entry],
    text: &[u8],
) -> Result<Judgement, NoMemory>
    requires runnable { IsRunnable scenario.now }
    requires short { length text.now ≤ HISTORY_BYTES }
    requires read { Reads (names_of scenario.now) text.now (Ok entries.now) }
    ensures { IfOk result (IsFound scenario.now text.now) }
{
    match audit(alloc, scenario, entries) {
        Ok(None) => judge_report(alloc, scenario, entries, text),
        Ok(Some((number, rule))) => Ok(Judgement::Illegal { number, rule }),
        Err(NoMemory) => Err(NoMemory),
    }
}

/// What is found of the text behind a scenario's line.
fn judge_text(alloc: Global, scenario: &Scenario, text: &[u8]) -> Result<Judgement, NoMemory>
    requires runnable { IsRunnable scenario.now }
    requires short { length text.now ≤ HISTORY_BYTES }
    ensures { IfOk result (IsFound scenario.now text.now) }
{
    let names = node_names(alloc, scenario)?;
    match read_entries(alloc, &names, text) {
        Ok(entries) => judge_entries(alloc, scenario, entries.as_slice(), text),
        Err(LinesError::Line { number }) => Ok(Judgement::Unreadable { line: number }),
        Err(LinesError::NoMemory) => Err(NoMemory),
    }
}

/// Whether memory was refused.
fn is_memory(error: &ScenarioError) -> bool
    ensures memory { result ≡ true → error.now ≡ fault.NoMemory }
    ensures other { result ≡ false → error.now ≢ fault.NoMemory }
{
    matches!(error, ScenarioError::NoMemory)
}

/// What is found of a first line that is no scenario.
fn refused(error: ScenarioError) -> Result<Judgement, NoMemory>
    ensures { IfOk result (λ found. (error ≢ fault.NoMemory) ×
        (found ≡ judgement.NoScenario error)) }
{
    if is_memory(&error) {
        drop(error);
        return Err(NoMemory);
    }
    Ok(Judgement::NoScenario { error })
}

/// Judges an input: a scenario in its first line, and behind that line's feed a report. It is judged over disks without records.
pub fn judge(alloc: Global, bytes: &[u8]) -> Result<Judgement, NoMemory>
    ensures { IfOk result (Judges bytes.now) }
{
    if bytes.len() > HISTORY_BYTES {
        return Ok(Judgement::TooLong);
    }
    let (line, text) = cut(bytes);
    match read(alloc, line) {
        Ok(scenario) => judge_text(alloc, &scenario, text),
        Err(error) => refused(error),
    }
}
