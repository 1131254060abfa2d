//! The text of what a step did.
ghost use Rattle.std.specs.Prelude.{◌≡◌, ◌++◌, codes, OnOk, string_bytes};
ghost use Rattle.history_text.specs.Lines as lines;

use crate::durables::{add_durable, add_with};
use crate::entries::Names;
use crate::locks::{add_held, add_lock, add_opener};
use crate::parts::{add_key, add_option_row};
use crate::reasons::{add_error, add_why};
use crate::words::{
    add_after_space, add_word_call, add_word_leg, add_word_number, add_word_status, add_word_xid,
};
use seata_types::{Act, Durable, Row, RowKey};
use std::alloc::AllocError;

/// What a step did.
pub(crate) fn add_act(out: &mut String, act: &Act, names: &Names) -> Result<(), AllocError>
    ensures { OnOk result (string_bytes out.new ≡ string_bytes out.old ++
        lines.act_text names.now act.now) }
{
    match act {
        Act::Durable(done) => add_durable(out, *done),
        Act::Known { xid } => add_word_xid(out, "known ", *xid),
        Act::Regranted { xid, branch } => add_word_leg(out, "regranted ", *xid, *branch),
        Act::Conflict {
            xid,
            key,
            holder,
            rolling,
        } => {
            add_word_xid(out, "conflict ", *xid)?;
            add_held(out, key, *holder, *rolling, names)
        }
        Act::Closed { xid, status } => add_word_status(out, "closed ", *xid, *status),
        Act::Told { xid, status } => add_word_status(out, "told ", *xid, *status),
        Act::Asked { xid, branch } => add_word_leg(out, "asked ", *xid, *branch),
        Act::Retry { xid, branch } => add_word_leg(out, "retry ", *xid, *branch),
        Act::Held { key, holder } => {
            out.push_str("held")?;
            add_lock(out, key, *holder, names)
        }
        Act::Free => out.push_str("free"),
        Act::Opened { xid, call, ticket } => {
            add_word_call(out, "opened ", *xid, *call)?;
            add_after_space(out, *ticket)
        }
        Act::Waiting { xid, call } => add_word_call(out, "waiting ", *xid, *call),
        Act::Again { xid, call, branch } => {
            add_word_call(out, "again ", *xid, *call)?;
            write!(out, " b{}", branch.0)
        }
        Act::Busy { xid, call, key, by } => {
            add_word_call(out, "busy ", *xid, *call)?;
            add_opener(out, key, *by, names)
        }
        Act::Refused { xid, call, why } => {
            add_word_call(out, "refused ", *xid, *call)?;
            out.push_str(" ")?;
            add_why(out, why, names)
        }
        Act::Resent { ticket } => {
            out.push_str("resent")?;
            add_after_space(out, *ticket)
        }
        Act::Conflicted { ticket, count } => {
            out.push_str("conflicted")?;
            add_after_space(out, *ticket)?;
            write!(out, " {count}")
        }
        Act::Dropped {
            xid,
            call,
            ticket,
            why,
        } => {
            add_word_call(out, "dropped ", *xid, *call)?;
            add_after_space(out, *ticket)?;
            out.push_str(" ")?;
            add_why(out, why, names)
        }
        Act::Empty { xid, branch } => add_word_leg(out, "empty ", *xid, *branch),
        Act::Remarked { xid, branch } => add_word_leg(out, "remarked ", *xid, *branch),
        Act::Blocked {
            xid,
            branch,
            key,
            by,
        } => {
            add_word_leg(out, "blocked ", *xid, *branch)?;
            add_opener(out, key, *by, names)
        }
        Act::Dirty {
            xid,
            branch,
            key,
            after,
            now,
        } => {
            add_word_leg(out, "dirty ", *xid, *branch)?;
            add_change(out, key.get(), after.get(), now.get(), names)
        }
        Act::Already { xid, branch } => add_word_leg(out, "already ", *xid, *branch),
        Act::Unfenced { xid, branch } => add_word_leg(out, "unfenced ", *xid, *branch),
        Act::Unable {
            xid,
            branch,
            index,
            why,
        } => {
            add_word_leg(out, "unable ", *xid, *branch)?;
            write!(out, " stmt {index} ")?;
            add_error(out, why, names)
        }
        Act::WaitingLocal { number } => write!(out, "waiting-local {number}"),
        Act::RefusedLocal { number, why } => {
            add_word_number(out, "refused-local ", *number)?;
            out.push_str(" ")?;
            add_why(out, why, names)?;
            Ok(())
        }
        Act::BusyLocal { number, key, by } => {
            write!(out, "busy-local {number}")?;
            add_opener(out, key, *by, names)
        }
        Act::OpenedLocal { number, ticket } => {
            add_word_number(out, "opened-local ", *number)?;
            add_after_space(out, *ticket)?;
            Ok(())
        }
        Act::DroppedLocal {
            number,
            ticket,
            key,
            holder,
        } => {
            write!(out, "dropped-local {number}")?;
            add_after_space(out, *ticket)?;
            add_lock(out, key, *holder, names)
        }
        Act::Starts => out.push_str("starts"),
        Act::Repeats => out.push_str("repeats"),
        Act::GoesOn => out.push_str("goes on"),
        Act::GivesUp => out.push_str("gives up"),
        Act::CallBusy { count } => write!(out, "busy {count}"),
        Act::Closes { status } => write!(out, "closes {}", status.code()),
        Act::Polls => out.push_str("polls"),
        Act::Learns { status } => write!(out, "learns {}", status.code()),
        Act::Silent => out.push_str("silent"),
        Act::Nothing => out.push_str("none"),
        Act::Ignored => out.push_str("ignored"),
        Act::Lost => out.push_str("lost"),
        Act::Armed => out.push_str("armed"),
        Act::Down { kept, at } => {
            out.push_str("down")?;
            add_with(out, " kept ", *kept)?;
            add_with(out, " at ", *at)
        }
        Act::Restarted { kept } => {
            out.push_str("restarted")?;
            add_with(out, " kept ", *kept)
        }
    }
}

/// A row's key, its after-image and the present row.
fn add_change(
    out: &mut String,
    key: &RowKey,
    after: &Option<Row>,
    now: &Option<Row>,
    names: &Names,
) -> Result<(), AllocError>
    ensures { OnOk result (string_bytes out.new ≡ string_bytes out.old ++
        (codes " " ++ lines.change_text names.now key.now after.now now.now)) }
{
    out.push_str(" ")?;
    add_key(out, key, names)?;
    out.push_str(" ")?;
    add_option_row(out, after)?;
    out.push_str(" ")?;
    add_option_row(out, now)
}
