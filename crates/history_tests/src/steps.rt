//! Steps of nodes as their entries' lines.
ghost use Rattle.std.specs.Prelude.{◌≡◌};
ghost use Rattle.seata_types.specs.declared.messages.Input.{Input as Given};

use crate::errors::Fail;
use history_text::{Cause, Entry, Names, Sent, note_of, write_entry};
use node_steps::Node;
use seata_types::{Boxed, Input, List, NoMemory, NodeError, Outgoing, Place, Step};
use std::alloc::Global;

fn sent_of(alloc: Global, sent: Option<Outgoing>) -> Result<Option<Sent>, NoMemory> {
    match sent {
        Some(Outgoing { to, message }) => Ok(Some(Sent {
            to,
            note: Boxed::new(alloc, note_of(message))?,
        })),
        None => Ok(None),
    }
}

fn entry_of(alloc: Global, place: Place, step: Step) -> Result<Entry, NoMemory> {
    let Step { act, sent } = step;
    let sent = sent_of(alloc, sent)?;
    Ok(Entry {
        stamp: 1,
        place,
        now: 0,
        cause: Cause::Turn,
        act,
        sent,
    })
}

/// The line of a step at a place, as the first entry, at moment 0.
fn line_of(alloc: Global, place: Place, step: Step) -> Result<String, NoMemory> {
    let names = Names {
        resources: List::of(Vec::new(alloc)),
        managers: List::of(Vec::new(alloc)),
    };
    let entry = entry_of(alloc, place, step)?;
    let line = write_entry(alloc, &entry, &names);
    drop(entry);
    line
}

/// The line of what a node answered.
fn answer_line(
    alloc: Global,
    place: Place,
    answer: Result<Step, NodeError>,
) -> Result<String, Fail> {
    match answer {
        Ok(step) => Ok(line_of(alloc, place, step)?),
        Err(_) => Err(Fail::Other("no step")),
    }
}

/// Whether this is the line of what a node answered.
pub fn has_line(
    alloc: Global,
    place: Place,
    answer: Result<Step, NodeError>,
    wanted: &'static str,
) -> Result<(), Fail> {
    if answer_line(alloc, place, answer)?.as_str() != wanted {
        return Err(Fail::Other(wanted));
    }
    Ok(())
}

/// Whether this is the line of a node's next step.
pub fn steps<N: Node>(
    alloc: Global,
    node: &mut N,
    input: Input,
    now: u32,
    wanted: &'static str,
) -> Result<(), Fail>
    requires { (N.state node.old).serves input }
    ensures { (given : Given) →
        (N.state node.old).serves given → (N.state node.new).serves given }
{
    if node.is_down() || node.steps_left() == 0 {
        drop(input);
        return Err(Fail::Other("no step is left"));
    }
    let place = node.place();
    has_line(
        alloc,
        place,
        node.step(alloc, input, u64::from(now)),
        wanted,
    )
}
