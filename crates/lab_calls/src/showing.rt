//! What is written of what the disks of a shelf hold.
ghost use Rattle.std.specs.Prelude.{◌≡◌, IfErr, IfOk, codes, string_bytes};
ghost use Rattle.history_text.specs.Report.{line};
ghost use Rattle.lab_calls.specs.Answers.{end_text, status_of};
ghost use Rattle.lab_calls.specs.Showing.{AnswersShown, IsShownText};

use crate::answers::{Answer, end_line, end_status, refused};
use crate::statuses::{DONE, INPUT, MEMORY};
use disk_model::Shelf;
use history_text::Names;
use node_seat::RunFault;
use seata_types::NoMemory;
use std::alloc::{AllocError, Global};
use store_shown::{Shown, shown};

/// The line of disks that keep no text, or the status of want of memory.
fn empty(alloc: Global) -> Result<Answer, u8>
    ensures text { IfOk result (λ answer. string_bytes answer.text ≡ line (codes "store: empty")) }
    ensures status { IfOk result (λ answer. answer.status ≡ 3) }
    ensures memory { IfErr result (λ status. status ≡ 6) }
{
    match String::from_str(alloc, "store: empty\n") {
        Ok(text) => Ok(Answer {
            text,
            status: INPUT,
        }),
        Err(AllocError) => Err(MEMORY),
    }
}

/// The line of why disks weren't read, or the status of want of memory.
fn unread(alloc: Global, fault: RunFault, names: &Names) -> Result<Answer, u8>
    ensures text { IfOk result (λ answer.
        string_bytes answer.text ≡ line (end_text names.now fault)) }
    ensures status { IfOk result (λ answer. answer.status ≡ status_of fault) }
    ensures memory { IfErr result (λ status. status ≡ 6) }
{
    match end_line(alloc, fault, names) {
        Ok(text) => Ok(Answer {
            text,
            status: end_status(fault),
        }),
        Err(AllocError) => Err(MEMORY),
    }
}

/// The text of what was found, with its status, or the status of want of memory.
fn found_answer(alloc: Global, found: Shown) -> Result<Answer, u8>
    ensures text { IfOk result (λ answer.
        IsShownText found (string_bytes answer.text) answer.status) }
    ensures memory { IfErr result (λ status. status ≡ 6) }
{
    match found {
        Shown::State(text) => Ok(Answer {
            text: text.into_string(),
            status: DONE,
        }),
        Shown::Empty => empty(alloc),
        Shown::NoScenario(error) => refused(alloc, &error),
        Shown::Unread { fault, names } => unread(alloc, fault, &names),
    }
}

/// Reads what the disks of a shelf hold: the text with its status, or the status of want of memory.
pub fn answer_shown<H: Shelf>(alloc: Global, shelf: &mut H) -> Result<Answer, u8>
    ensures { AnswersShown H.D.state H.state shelf.old shelf.new result }
{
    match shown(alloc, shelf) {
        Ok(found) => found_answer(alloc, found),
        Err(NoMemory) => Err(MEMORY),
    }
}
