//! The text of what brought an entry about.
ghost use Rattle.std.specs.Prelude.{◌≡◌, ◌++◌, OnOk, string_bytes};
ghost use Rattle.history_text.specs.Lines as lines;

use crate::entries::{Cause, Names};
use crate::parts::add_place;
use crate::words::add_numbered;
use std::alloc::AllocError;

/// The cause of an entry.
pub(crate) fn add_cause(out: &mut String, cause: &Cause, names: &Names) -> Result<(), AllocError>
    ensures { OnOk result (string_bytes out.new ≡ string_bytes out.old ++
        lines.cause_text names.now cause.now) }
{
    match cause {
        Cause::Turn => out.push_str("turn"),
        Cause::Deliver { stamp, from } => {
            add_numbered(out, "deliver ", u64::from(*stamp))?;
            out.push_str(" ")?;
            add_place(out, *from, names)
        }
        Cause::Missing { stamp } => write!(out, "deliver {stamp}"),
        Cause::Wait { ticks } => write!(out, "wait {ticks}"),
        Cause::Stop { calls } => write!(out, "stop {calls}"),
        Cause::Crash => out.push_str("crash"),
        Cause::Restart { pick, calls: None } => write!(out, "restart {pick}"),
        Cause::Restart {
            pick,
            calls: Some(calls),
        } => write!(out, "restart {pick} {calls}"),
        Cause::Local { number } => write!(out, "local {number}"),
        Cause::Outside { number } => write!(out, "outside {number}"),
    }
}
