//! Locked rows with their holders.
ghost use Rattle.std.specs.Prelude.{◌≡◌, ◌++◌, codes, OnOk, string_bytes};
ghost use Rattle.history_text.specs.Lines as lines;

use crate::entries::Names;
use crate::parts::add_key;
use crate::words::add_after_space;
use seata_types::{RowKey, Ticket, Xid};
use std::alloc::AllocError;

/// A locked row, its holder, and whether that rolls back.
pub(crate) fn add_held(
    out: &mut String,
    key: &RowKey,
    holder: Xid,
    rolling: bool,
    names: &Names,
) -> Result<(), AllocError>
    ensures { OnOk result (string_bytes out.new ≡ string_bytes out.old ++
        (codes " " ++ lines.held_text names.now key.now holder rolling)) }
{
    out.push_str(" ")?;
    add_key(out, key, names)?;
    write!(out, " tc:{} {}", holder.0, holding_word(rolling))
}

/// A space, a locked row and its holder.
pub(crate) fn add_lock(
    out: &mut String,
    key: &RowKey,
    holder: Xid,
    names: &Names,
) -> Result<(), AllocError>
    ensures { OnOk result (string_bytes out.new ≡ string_bytes out.old ++
        (codes " " ++ lines.lock_text names.now key.now holder)) }
{
    out.push_str(" ")?;
    add_key(out, key, names)?;
    write!(out, " tc:{}", holder.0)
}

/// A row that is open in a local transaction, and its ticket.
pub(crate) fn add_opener(
    out: &mut String,
    key: &RowKey,
    by: Ticket,
    names: &Names,
) -> Result<(), AllocError>
    ensures { OnOk result (string_bytes out.new ≡ string_bytes out.old ++
        (codes " " ++ lines.opener_text names.now key.now by)) }
{
    out.push_str(" ")?;
    add_key(out, key, names)?;
    add_after_space(out, by)
}

/// Whether the holder of a lock is rolling back.
fn holding_word(rolling: bool) -> &'static str
    ensures { result.now ≡ lines.holding_text rolling }
{
    if rolling { "rolling" } else { "held" }
}
