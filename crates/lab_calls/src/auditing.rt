//! What is written of a report that was judged.
ghost use Rattle.std.specs.Prelude.{◌≡◌, ◌++◌, IfErr, IfOk, OnOk, string_bytes};
ghost use Rattle.history_text.specs.Report.{line};
ghost use Rattle.lab_calls.specs.Auditing.{IsJudged, judgement_status, judgement_text};

use crate::answers::{Answer, put_fault};
use crate::statuses::{DONE, ILLEGAL, INPUT, MEMORY};
use report_judge::{Judgement, judge};
use seata_types::NoMemory;
use seata_types::limits::HISTORY_BYTES;
use std::alloc::{AllocError, Global};
use verdict_law::Rule;

/// The line of an entry that breaks a rule.
fn put_illegal(out: &mut String, number: usize, rule: Rule) -> Result<(), AllocError>
    ensures { OnOk result (string_bytes out.new ≡ string_bytes out.old
        ++ judgement_text (Judgement.Illegal number rule)) }
{
    write!(out, "illegal at {number} {rule}")
}

/// The line of what is found of an input.
fn put_judgement(out: &mut String, found: &Judgement) -> Result<(), AllocError>
    ensures { OnOk result
        (string_bytes out.new ≡ string_bytes out.old ++ judgement_text found.now) }
{
    match found {
        Judgement::TooLong => write!(out, "input: over {HISTORY_BYTES} bytes"),
        Judgement::NoScenario { error } => put_fault(out, error),
        Judgement::Unreadable { line } => write!(out, "history: {}", *line),
        Judgement::Illegal { number, rule } => put_illegal(out, *number, *rule),
        Judgement::IllegalReport => out.push_str("illegal report"),
        Judgement::Legal => out.push_str("legal"),
    }
}

/// The same, with its line feed.
fn judgement_line(alloc: Global, found: &Judgement) -> Result<String, AllocError>
    ensures { IfOk result (λ text. string_bytes text ≡ line (judgement_text found.now)) }
{
    let mut out = String::new(alloc);
    put_judgement(&mut out, found)?;
    out.push_str("\n")?;
    Ok(out)
}

/// The status with it.
fn judgement_status(found: &Judgement) -> u8
    ensures { result ≡ judgement_status found.now }
{
    match found {
        Judgement::TooLong | Judgement::NoScenario { .. } | Judgement::Unreadable { .. } => INPUT,
        Judgement::Illegal { .. } | Judgement::IllegalReport => ILLEGAL,
        Judgement::Legal => DONE,
    }
}

/// The line of what is found of an input, with its status, or the status of want of memory.
fn judged(alloc: Global, found: &Judgement) -> Result<Answer, u8>
    ensures text { IfOk result (λ answer.
        string_bytes answer.text ≡ line (judgement_text found.now)) }
    ensures status { IfOk result (λ answer. answer.status ≡ judgement_status found.now) }
    ensures memory { IfErr result (λ status. status ≡ 6) }
{
    match judgement_line(alloc, found) {
        Ok(text) => Ok(Answer {
            text,
            status: judgement_status(found),
        }),
        Err(AllocError) => Err(MEMORY),
    }
}

/// Judges an input: the line of what is found of it with its status, or the status of want of memory.
pub fn answer_judged(alloc: Global, bytes: &[u8]) -> Result<Answer, u8>
    ensures text { IfOk result (λ answer.
        IsJudged bytes.now (string_bytes answer.text) answer.status) }
    ensures memory { IfErr result (λ status. status ≡ 6) }
{
    match judge(alloc, bytes) {
        Ok(found) => judged(alloc, &found),
        Err(NoMemory) => Err(MEMORY),
    }
}
