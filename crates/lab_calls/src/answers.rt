//! What the program writes for an input.
ghost use Rattle.std.specs.Prelude.{◌≡◌, ◌≢◌, ◌++◌, Ok, Err, true, false, codes, IfOk, IfErr, OnOk, string_bytes};
ghost use Rattle.std.specs.Fmt.{decimal};
ghost use Rattle.history_text.specs.Report.{line};
ghost use Rattle.scenario_form.specs.Runnable.{IsRunnable};
ghost use Rattle.lab_calls.specs.Answers.{IsEndText, damaged_text, disk_text, end_text, fault_text, full_text, status_of, store_text};
ghost use Rattle.lab_calls.specs.Steps.{TellsEnd};

use crate::played::Played;
use crate::statuses::{DAMAGED, DONE, FULL, INPUT, MEMORY, STORE};
use history_text::{Names, put_place};
use node_seat::RunFault;
use report_text::{node_names, write_report};
use scenario_reader::{Scenario, ScenarioError};
use seata_types::{Full, NoMemory, Place, Text};
use std::alloc::{AllocError, Global};

/// The text that is written, and the status once it was.
#[derive(Drop)]
pub struct Answer {
    pub text: String,
    pub status: u8,
}

/// A word and a path.
fn put_at(out: &mut String, word: &str, path: &Text) -> Result<(), AllocError>
    ensures { OnOk result (string_bytes out.new ≡ string_bytes out.old ++ (word.now ++ path.now)) }
{
    write!(out, "{word}{}", path.as_str())
}

/// A word, a path and a number.
fn put_numbered(out: &mut String, word: &str, path: &Text, number: u64) -> Result<(), AllocError>
    ensures { OnOk result (string_bytes out.new ≡ string_bytes out.old
        ++ (word.now ++ (path.now ++ (codes " " ++ decimal number)))) }
{
    write!(out, "{word}{} {number}", path.as_str())
}

/// The line of what keeps an input from being a scenario.
pub fn put_fault(out: &mut String, error: &ScenarioError) -> Result<(), AllocError>
    ensures { OnOk result (string_bytes out.new ≡ string_bytes out.old ++ fault_text error.now) }
{
    match error {
        ScenarioError::NotJson => write!(out, "scenario: NotJson"),
        ScenarioError::Shape { path } => put_at(out, "scenario: Shape ", path),
        ScenarioError::Limit { path, limit } => {
            put_numbered(out, "scenario: Limit ", path, *limit)
        }
        ScenarioError::Sql { path, at } => { put_numbered(out, "scenario: Sql ", path, *at as u64) }
        ScenarioError::Mode { path } => put_at(out, "scenario: Mode ", path),
        ScenarioError::Name { path } => put_at(out, "scenario: Name ", path),
        ScenarioError::NoMemory => Ok(()),
    }
}

/// The line of what keeps an input from being a scenario, with its line feed.
fn fault_line(alloc: Global, error: &ScenarioError) -> Result<String, AllocError>
    ensures { IfOk result (λ text. string_bytes text ≡ line (fault_text error.now)) }
{
    let mut out = String::new(alloc);
    put_fault(&mut out, error)?;
    out.push_str("\n")?;
    Ok(out)
}

/// The answer to an input that is no scenario, or the status of want of memory.
pub fn refused(alloc: Global, error: &ScenarioError) -> Result<Answer, u8>
    ensures fault { IfOk result (λ answer. error.now ≢ ScenarioError.NoMemory) }
    ensures text { IfOk result (λ answer. string_bytes answer.text ≡ line (fault_text error.now)) }
    ensures status { IfOk result (λ answer. answer.status ≡ 3) }
    ensures memory { IfErr result (λ status. status ≡ 6) }
{
    if is_memory(error) {
        return Err(MEMORY);
    }
    match fault_line(alloc, error) {
        Ok(text) => Ok(Answer {
            text,
            status: INPUT,
        }),
        Err(AllocError) => Err(MEMORY),
    }
}

/// Whether memory was refused.
pub fn is_memory(error: &ScenarioError) -> bool
    ensures memory { result ≡ true → error.now ≡ ScenarioError.NoMemory }
    ensures other { result ≡ false → error.now ≢ ScenarioError.NoMemory }
{
    matches!(error, ScenarioError::NoMemory)
}

/// The line of disks that failed.
fn put_store(out: &mut String, place: Place, names: &Names) -> Result<(), AllocError>
    ensures { OnOk result
        (string_bytes out.new ≡ string_bytes out.old ++ store_text names.now place) }
{
    out.push_str("store: ")?;
    put_place(out, place, names)
}

/// The line of a record that doesn't fit on a disk.
fn put_full(out: &mut String, place: Place, full: Full, names: &Names) -> Result<(), AllocError>
    ensures { OnOk result
        (string_bytes out.new ≡ string_bytes out.old ++ full_text names.now place full) }
{
    let Full { needed, size } = full;
    out.push_str("full: ")?;
    put_place(out, place, names)?;
    write!(out, " needs {needed} of {size}")
}

/// The name of one of the two disks of a node.
fn put_disk(out: &mut String, place: Place, second: bool, names: &Names) -> Result<(), AllocError>
    ensures { OnOk result
        (string_bytes out.new ≡ string_bytes out.old ++ disk_text names.now place second) }
{
    put_place(out, place, names)?;
    if second {
        return out.push_str(".2");
    }
    Ok(())
}

/// The line of bytes that are no journal.
fn put_damaged(
    out: &mut String,
    place: Place,
    second: bool,
    at: u64,
    names: &Names,
) -> Result<(), AllocError>
    ensures { OnOk result
        (string_bytes out.new ≡ string_bytes out.old ++ damaged_text names.now place second at) }
{
    out.push_str("damaged: ")?;
    put_disk(out, place, second, names)?;
    write!(out, " at {at}")
}

/// The line of why a replay or a run ended early; none for want of memory.
fn put_end(out: &mut String, fault: RunFault, names: &Names) -> Result<(), AllocError>
    ensures { OnOk result
        (string_bytes out.new ≡ string_bytes out.old ++ end_text names.now fault) }
{
    match fault {
        RunFault::Store { place } => put_store(out, place, names),
        RunFault::Full { place, full } => put_full(out, place, full, names),
        RunFault::Damaged { place, second, at } => put_damaged(out, place, second, at, names),
        RunFault::Other => out.push_str("scenario: Other"),
        RunFault::NoMemory => Ok(()),
    }
}

/// The same, with its line feed.
pub fn end_line(alloc: Global, fault: RunFault, names: &Names) -> Result<String, AllocError>
    ensures { IfOk result (λ text. string_bytes text ≡ line (end_text names.now fault)) }
{
    let mut out = String::new(alloc);
    put_end(&mut out, fault, names)?;
    out.push_str("\n")?;
    Ok(out)
}

/// The status of why a replay or a run ended early.
pub fn end_status(fault: RunFault) -> u8
    ensures { result ≡ status_of fault }
{
    match fault {
        RunFault::Store { .. } => STORE,
        RunFault::Full { .. } => FULL,
        RunFault::Damaged { .. } => DAMAGED,
        RunFault::Other => INPUT,
        RunFault::NoMemory => MEMORY,
    }
}

/// The answer to a replay or a run that ended early.
pub fn ended(alloc: Global, scenario: &Scenario, fault: RunFault) -> Result<Answer, NoMemory>
    requires { fault ≢ RunFault.NoMemory }
    ensures { IfOk result (λ answer.
        IsEndText scenario.now (Err fault) (string_bytes answer.text) answer.status) }
{
    let names = node_names(alloc, scenario)?;
    let text = end_line(alloc, fault, &names)?;
    Ok(Answer {
        text,
        status: end_status(fault),
    })
}

/// Whether memory was refused.
pub fn is_out_of_memory(fault: RunFault) -> bool
    ensures memory { result ≡ true → fault ≡ RunFault.NoMemory }
    ensures other { result ≡ false → fault ≢ RunFault.NoMemory }
{
    matches!(fault, RunFault::NoMemory)
}

/// The report of a history over what the disks held. A run may make more entries than a report counts; there, memory is refused.
fn report_of(alloc: Global, scenario: &Scenario, played: Played) -> Result<Answer, NoMemory>
    requires { IsRunnable scenario.now }
    ensures { IfOk result (λ answer.
        IsEndText scenario.now (Ok played) (string_bytes answer.text) answer.status) }
{
    let Played { before, history } = played;
    if !before.counts(history.as_slice()) {
        drop(history);
        drop(before);
        return Err(NoMemory);
    }
    let text = write_report(alloc, scenario, before, history.as_slice())?;
    Ok(Answer { text, status: DONE })
}

/// The answer to a scenario that was replayed or run, once that ended so.
fn end_answer(
    alloc: Global,
    scenario: &Scenario,
    end: Result<Played, RunFault>,
) -> Result<Answer, NoMemory>
    requires { IsRunnable scenario.now }
    ensures { IfOk result (λ answer.
        IsEndText scenario.now end (string_bytes answer.text) answer.status) }
{
    match end {
        Ok(played) => report_of(alloc, scenario, played),
        Err(fault) => {
            if is_out_of_memory(fault) {
                return Err(NoMemory);
            }
            ended(alloc, scenario, fault)
        }
    }
}

/// The same, or the status of want of memory.
pub fn told(alloc: Global, scenario: &Scenario, end: Result<Played, RunFault>) -> Result<Answer, u8>
    requires { IsRunnable scenario.now }
    ensures { TellsEnd scenario.now end result }
{
    match end_answer(alloc, scenario, end) {
        Ok(answer) => Ok(answer),
        Err(NoMemory) => Err(MEMORY),
    }
}
