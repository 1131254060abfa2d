//! The text of why a statement or a call has no meaning or fails.
ghost use Rattle.std.specs.Prelude.{◌≡◌, ◌++◌, OnOk, string_bytes};
ghost use Rattle.history_text.specs.Lines as lines;

use crate::entries::Names;
use crate::parts::add_key;
use seata_types::{StmtError, Why};
use std::alloc::AllocError;

/// Why a statement has no meaning.
pub(crate) fn add_error(
    out: &mut String,
    error: &StmtError,
    names: &Names,
) -> Result<(), AllocError>
    ensures { OnOk result (string_bytes out.new ≡ string_bytes out.old ++
        lines.error_text names.now error.now) }
{
    match error {
        StmtError::NoTable => out.push_str("NoTable"),
        StmtError::NoColumn => out.push_str("NoColumn"),
        StmtError::Columns => out.push_str("Columns"),
        StmtError::KeyChanged => out.push_str("KeyChanged"),
        StmtError::TypeMismatch => out.push_str("TypeMismatch"),
        StmtError::TooManyRows => out.push_str("TooManyRows"),
        StmtError::Overflow { key } => {
            out.push_str("Overflow ")?;
            add_key(out, key.get(), names)
        }
        StmtError::Duplicate { key } => {
            out.push_str("Duplicate ")?;
            add_key(out, key.get(), names)
        }
        StmtError::TableFull => out.push_str("TableFull"),
    }
}

/// Why a call failed.
pub(crate) fn add_why(out: &mut String, why: &Why, names: &Names) -> Result<(), AllocError>
    ensures { OnOk result (string_bytes out.new ≡ string_bytes out.old ++
        lines.why_text names.now why.now) }
{
    match why {
        Why::Stmt { index, why } => {
            write!(out, "stmt {index} ")?;
            add_error(out, why, names)
        }
        Why::Tries => out.push_str("tries"),
        Why::Rolling { holder } => write!(out, "rolling tc:{}", holder.0),
        Why::Closed { status } => write!(out, "closed {}", status.code()),
        Why::Late => out.push_str("late"),
        Why::Marker => out.push_str("marker"),
        Why::NoRow { index } => write!(out, "norow {index}"),
        Why::Fence => out.push_str("fence"),
    }
}
