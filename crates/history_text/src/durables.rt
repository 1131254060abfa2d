//! The text of durable acts.
ghost use Rattle.std.specs.Prelude.{◌≡◌, ◌++◌, OnOk, string_bytes};
ghost use Rattle.history_text.specs.Lines as lines;

use crate::words::{add_after_space, add_word_leg, add_word_number, add_word_status, add_word_xid};
use seata_types::{Decision, Durable};
use std::alloc::AllocError;

/// A durable act.
pub(crate) fn add_durable(out: &mut String, done: Durable) -> Result<(), AllocError>
    ensures { OnOk result (string_bytes out.new ≡ string_bytes out.old ++ lines.durable_text done) }
{
    match done {
        Durable::Begun { xid } => add_word_xid(out, "begun ", xid),
        Durable::Granted { xid, branch } => add_word_leg(out, "granted ", xid, branch),
        Durable::Late { xid } => add_word_xid(out, "late ", xid),
        Durable::Decided { xid, how } => {
            add_word_xid(out, "decided ", xid)?;
            write!(out, " {}", decision_word(how))
        }
        Durable::Ended { xid, branch } => add_word_leg(out, "ended ", xid, branch),
        Durable::Retrying { xid, branch } => add_word_leg(out, "retrying ", xid, branch),
        Durable::Failed { xid, branch, stmt } => {
            add_word_leg(out, "failed ", xid, branch)?;
            write!(out, " stmt {stmt}")
        }
        Durable::Finished { xid, status } => add_word_status(out, "finished ", xid, status),
        Durable::Forgot { xid } => add_word_xid(out, "forgot ", xid),
        Durable::Committed {
            xid,
            branch,
            ticket,
        } => {
            add_word_leg(out, "committed ", xid, branch)?;
            add_after_space(out, ticket)
        }
        Durable::Tried {
            xid,
            branch,
            ticket,
        } => {
            add_word_leg(out, "tried ", xid, branch)?;
            add_after_space(out, ticket)
        }
        Durable::Cleared { xid, branch } => add_word_leg(out, "cleared ", xid, branch),
        Durable::Undone { xid, branch } => add_word_leg(out, "undone ", xid, branch),
        Durable::Marked { xid, branch } => add_word_leg(out, "marked ", xid, branch),
        Durable::Confirmed { xid, branch } => add_word_leg(out, "confirmed ", xid, branch),
        Durable::Cancelled { xid, branch } => add_word_leg(out, "cancelled ", xid, branch),
        Durable::Suspended { xid, branch } => add_word_leg(out, "suspended ", xid, branch),
        Durable::LocalCommitted { number, ticket } => {
            add_word_number(out, "local-committed ", number)?;
            add_after_space(out, ticket)?;
            Ok(())
        }
        Durable::Outside { number } => write!(out, "outside {number}"),
        Durable::Boot => out.push_str("boot"),
    }
}

/// A durable act after a word, where there is one.
pub(crate) fn add_with(
    out: &mut String,
    word: &str,
    done: Option<Durable>,
) -> Result<(), AllocError>
    ensures { OnOk result (string_bytes out.new ≡ string_bytes out.old ++
        lines.with_durable word.now done) }
{
    match done {
        Some(done) => {
            write!(out, "{word}")?;
            add_durable(out, done)
        }
        None => Ok(()),
    }
}

/// A decision.
fn decision_word(how: Decision) -> &'static str
    ensures { result.now ≡ lines.decision_text how }
{
    match how {
        Decision::Commit => "commit",
        Decision::Rollback => "rollback",
        Decision::Timeout => "timeout",
    }
}
