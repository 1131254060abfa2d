//! The answer whose comparisons nobody counts.
ghost use Rattle.std.specs.Prelude.{◌≡◌, ◌<◌, IfOk};
ghost use Rattle.coordinator_rules.specs.Answers.{AnswersBy, HearsFrom};

use crate::answers::Answer;
use crate::moments::Moments;
use crate::{ruling, telling, turning};
use lock_table::Steps;
use seata_types::{Act, Input, Message, NoMemory, Place};
use session_memory::Memory;
use std::alloc::Global;
use std::marker::Brand;
use std::sync::ledger::{Blank, Ledger};

fn hear_by<L: Ledger, P: Ledger>(
    alloc: Global,
    memory: &Memory,
    from: Place,
    message: &Message,
    now: u64,
    blank: Blank,
    other: Blank,
) -> Result<Answer, NoMemory>
    requires name { blank.name ≡ L.name }
    requires parts { blank.parts ≡ L.parts }
    requires some { 0 < blank.parts }
    requires other_name { other.name ≡ P.name }
    requires other_parts { other.parts ≡ P.parts }
    requires other_some { 0 < other.parts }
    ensures { IfOk result (HearsFrom memory.now from message.now now) }
{
    let mut steps = Steps::<L>::new(blank);
    let mut passes = Steps::<P>::new(other);
    ruling::hear(alloc, memory, from, message, now, &mut steps, &mut passes)
}

// Answers a message.
fn hear(
    alloc: Global,
    memory: &Memory,
    from: Place,
    message: &Message,
    now: u64,
) -> Result<Answer, NoMemory>
    ensures { IfOk result (HearsFrom memory.now from message.now now) }
{
    hear_by::<Brand, Brand>(
        alloc,
        memory,
        from,
        message,
        now,
        Blank::new(1),
        Blank::new(1),
    )
}

/// Answers an input by the rules of the coordinator, which forgets a finished transaction after `forget` ticks, or never where that
/// is 0. Nothing changes, and without memory there is no answer.
pub fn answer(
    alloc: Global,
    memory: &Memory,
    moments: &Moments,
    forget: u64,
    given: &Input,
    now: u64,
) -> Result<Answer, NoMemory>
    ensures { IfOk result (AnswersBy forget memory.now moments.now given.now now) }
{
    match given {
        Input::Turn => Ok(turning::turn(memory, moments, forget, now)),
        Input::Message { from, message } => hear(alloc, memory, *from, message.get(), now),
        Input::Local { .. } | Input::Outside { .. } => Ok(telling::rests(Act::Ignored, None)),
    }
}
