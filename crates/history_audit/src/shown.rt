//! What an entry shows of what was sent.
ghost use Rattle.std.specs.Prelude.{◌≡◌, IfOk, option_map};
ghost use Rattle.std.specs.Bool.{Decides};
ghost use Rattle.history_text.specs.Notes.{sent_of};

use history_text::{Sent, note_of};
use seata_types::{Boxed, Duplicate, NoMemory, Outgoing};
use std::alloc::Global;

// A message on its way, as its line shows it.
fn shown(alloc: Global, out: &Outgoing) -> Result<Sent, NoMemory>
    ensures { IfOk result (λ sent. sent ≡ sent_of out.now) }
{
    let message = out.message.copy(alloc)?;
    Ok(Sent {
        to: out.to,
        note: Boxed::new(alloc, note_of(message))?,
    })
}

// Whether two messages are the same as lines show them.
fn same_sent(a: &Sent, b: &Sent) -> bool
    ensures { Decides result (a.now ≡ b.now) }
{
    a == b
}

// Whether a line shows this message.
fn shows_message(alloc: Global, out: &Outgoing, seen: &Sent) -> Result<bool, NoMemory>
    ensures { IfOk result (λ same. Decides same (sent_of out.now ≡ seen.now)) }
{
    let sent = shown(alloc, out)?;
    let same = same_sent(&sent, seen);
    drop(sent);
    Ok(same)
}

/// Whether a line shows what was sent, and shows nothing where nothing was.
pub(crate) fn shows(
    alloc: Global,
    sent: &Option<Outgoing>,
    seen: &Option<Sent>,
) -> Result<bool, NoMemory>
    ensures { IfOk result (λ same. Decides same (option_map sent_of sent.now ≡ seen.now)) }
{
    match (sent, seen) {
        (Some(out), Some(seen)) => shows_message(alloc, out, seen),
        (None, None) => Ok(true),
        _ => Ok(false),
    }
}
