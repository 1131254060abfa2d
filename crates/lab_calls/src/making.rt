//! What is written for a made scenario.
ghost use Rattle.std.specs.Prelude.{◌≡◌, ◌≤◌, IfOk, string_bytes};
ghost use Rattle.lab_calls.specs.Making.{AnswersMade, made_text};

use crate::answers::Answer;
use crate::statuses::{DONE, MEMORY};
use scenario_maker::make;
use seata_types::NoMemory;
use std::alloc::Global;

/// The made scenario, with a line feed.
fn made_line(alloc: Global, number: u64, size: u32) -> Result<String, NoMemory>
    requires least { 1 ≤ size }
    requires most { size ≤ 256 }
    ensures { IfOk result (λ text. string_bytes text ≡ made_text number size) }
{
    let mut text = make(alloc, number, size)?;
    text.push_str("\n")?;
    Ok(text)
}

/// The text that is written, or the status of want of memory.
pub fn answer_made(alloc: Global, number: u64, size: u32) -> Result<Answer, u8>
    requires least { 1 ≤ size }
    requires most { size ≤ 256 }
    ensures { AnswersMade number size result }
{
    match made_line(alloc, number, size) {
        Ok(text) => Ok(Answer { text, status: DONE }),
        Err(NoMemory) => Err(MEMORY),
    }
}
