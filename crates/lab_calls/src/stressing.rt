//! What is written for a made scenario that was run.
ghost use Rattle.std.specs.Prelude.{◌≡◌, ◌≤◌, ◌++◌, Ok, Err, IfOk, OnOk, string_bytes};
ghost use Rattle.scenario_form.specs.Runnable.{IsRunnable};
ghost use Rattle.scenario_maker.specs.Made.{made};
ghost use Rattle.scenario_reader.specs.Reading.{IsScenario};
ghost use Rattle.lab_calls.specs.Stressing.{IsStressText, TellsStress, totals_text};

use crate::answers::{Answer, ended, is_memory, is_out_of_memory};
use crate::played::Played;
use crate::statuses::{DONE, MEMORY};
use node_seat::RunFault;
use report_text::{Totals, count_history};
use scenario_maker::make;
use scenario_reader::{Scenario, read};
use seata_types::NoMemory;
use std::alloc::{AllocError, Global};

/// The scenario that is made of a number for so many managers, read from its text; of a made text no fault is told.
pub fn made_scenario(alloc: Global, number: u64, size: u32) -> Result<Scenario, NoMemory>
    requires size { (1 ≤ size) × (size ≤ 256) }
    ensures is_made { IfOk result (λ scenario. IsScenario (made number size) scenario) }
    ensures runnable { IfOk result (λ scenario. IsRunnable scenario) }
{
    let text = make(alloc, number, size)?;
    match read(alloc, text.as_bytes()) {
        Ok(scenario) => Ok(scenario),
        Err(error) => {
            let out_of_memory = is_memory(&error);
            drop(error);
            if out_of_memory {
                Err(NoMemory)
            } else {
                // The text of `make` is a scenario, and such a text has no other fault.
                unreachable!()
            }
        }
    }
}

/// The four lines of the numbers of a history.
fn put_totals(out: &mut String, totals: Totals) -> Result<(), AllocError>
    ensures { OnOk result (string_bytes out.new ≡ string_bytes out.old ++ totals_text totals) }
{
    write!(out, "sessions {} ended {}\n", totals.begun, totals.ended)?;
    write!(out, "acc {}\n", totals.money)?;
    write!(out, "held {}\n", totals.held)?;
    write!(out, "locks {}\n", totals.locks)
}

/// The same, as a text of its own.
fn totals_lines(alloc: Global, totals: Totals) -> Result<String, AllocError>
    ensures { IfOk result (λ text. string_bytes text ≡ totals_text totals) }
{
    let mut out = String::new(alloc);
    put_totals(&mut out, totals)?;
    Ok(out)
}

/// The numbers of a history over what the disks held. A run may make more entries than a report counts; there, memory is refused.
fn totals_answer(alloc: Global, scenario: &Scenario, played: Played) -> Result<Answer, NoMemory>
    requires { IsRunnable scenario.now }
    ensures { IfOk result (λ answer.
        IsStressText scenario.now (Ok played) (string_bytes answer.text) answer.status) }
{
    let Played { before, history } = played;
    if !before.counts(history.as_slice()) {
        drop(history);
        drop(before);
        return Err(NoMemory);
    }
    let totals = count_history(alloc, scenario, before, history.as_slice())?;
    match totals_lines(alloc, totals) {
        Ok(text) => Ok(Answer { text, status: DONE }),
        Err(AllocError) => Err(NoMemory),
    }
}

/// The answer to a made scenario that was run, once that ended so.
fn stress_answer(
    alloc: Global,
    scenario: &Scenario,
    end: Result<Played, RunFault>,
) -> Result<Answer, NoMemory>
    requires { IsRunnable scenario.now }
    ensures { IfOk result (λ answer.
        IsStressText scenario.now end (string_bytes answer.text) answer.status) }
{
    match end {
        Ok(played) => totals_answer(alloc, scenario, played),
        Err(fault) => {
            if is_out_of_memory(fault) {
                return Err(NoMemory);
            }
            ended(alloc, scenario, fault)
        }
    }
}

/// The same, or the status of want of memory.
pub fn stressed(
    alloc: Global,
    scenario: &Scenario,
    end: Result<Played, RunFault>,
) -> Result<Answer, u8>
    requires { IsRunnable scenario.now }
    ensures { TellsStress scenario.now end result }
{
    match stress_answer(alloc, scenario, end) {
        Ok(answer) => Ok(answer),
        Err(NoMemory) => Err(MEMORY),
    }
}
