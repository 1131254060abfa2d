//! A word with the identities behind it.
ghost use Rattle.std.specs.Prelude.{◌≡◌, ◌++◌, codes, OnOk, string_bytes};
ghost use Rattle.std.specs.Fmt.{decimal, signed_decimal};
ghost use Rattle.seata_types.specs.Statuses.{code_of};
ghost use Rattle.history_text.specs.Lines as lines;

use itoa::Buffer;
use seata_types::{BranchId, GlobalStatus, Ticket, Xid};
use std::alloc::AllocError;

/// A number.
pub(crate) fn add_number(out: &mut String, number: u64) -> Result<(), AllocError>
    ensures { OnOk result (string_bytes out.new ≡ string_bytes out.old ++ decimal number) }
{
    let mut digits = Buffer::new();
    out.push_str(digits.format(number))
}

/// A number that may be below zero.
pub(crate) fn add_signed(out: &mut String, number: i64) -> Result<(), AllocError>
    ensures { OnOk result (string_bytes out.new ≡ string_bytes out.old ++ signed_decimal number) }
{
    let mut digits = Buffer::new();
    out.push_str(digits.format(number))
}

/// A word and a number.
pub(crate) fn add_numbered(out: &mut String, word: &str, number: u64) -> Result<(), AllocError>
    ensures { OnOk result (string_bytes out.new ≡ string_bytes out.old ++
        (word.now ++ decimal number)) }
{
    out.push_str(word)?;
    add_number(out, number)
}

/// A word and a transaction.
pub(crate) fn add_word_xid(out: &mut String, word: &str, xid: Xid) -> Result<(), AllocError>
    ensures { OnOk result (string_bytes out.new ≡ string_bytes out.old ++
        (word.now ++ lines.xid_text xid)) }
{
    out.push_str(word)?;
    add_numbered(out, "tc:", xid.0)
}

/// A word, a transaction and its status.
pub(crate) fn add_word_status(
    out: &mut String,
    word: &str,
    xid: Xid,
    status: GlobalStatus,
) -> Result<(), AllocError>
    ensures { OnOk result (string_bytes out.new ≡ string_bytes out.old ++
        (word.now ++ (lines.xid_text xid ++ (codes " " ++ decimal (code_of status))))) }
{
    add_word_xid(out, word, xid)?;
    add_numbered(out, " ", u64::from(status.code()))
}

/// A word, a transaction and its branch.
pub(crate) fn add_word_leg(
    out: &mut String,
    word: &str,
    xid: Xid,
    branch: BranchId,
) -> Result<(), AllocError>
    ensures { OnOk result (string_bytes out.new ≡ string_bytes out.old ++
        (word.now ++ lines.leg_text xid branch)) }
{
    add_word_xid(out, word, xid)?;
    add_numbered(out, " b", branch.0)
}

/// A word, a transaction and its call.
pub(crate) fn add_word_call(
    out: &mut String,
    word: &str,
    xid: Xid,
    call: u16,
) -> Result<(), AllocError>
    ensures { OnOk result (string_bytes out.new ≡ string_bytes out.old ++
        (word.now ++ lines.call_text xid call)) }
{
    add_word_xid(out, word, xid)?;
    add_numbered(out, " c", u64::from(call))
}

/// A word and a number of 16 bits.
pub(crate) fn add_word_number(out: &mut String, word: &str, number: u16) -> Result<(), AllocError>
    ensures { OnOk result (string_bytes out.new ≡ string_bytes out.old ++
        (word.now ++ decimal number)) }
{
    add_numbered(out, word, u64::from(number))
}

/// A space and a ticket.
pub(crate) fn add_after_space(out: &mut String, ticket: Ticket) -> Result<(), AllocError>
    ensures { OnOk result (string_bytes out.new ≡ string_bytes out.old ++
        (codes " " ++ lines.ticket_text ticket)) }
{
    add_numbered(out, " t", u64::from(ticket.boot))?;
    add_numbered(out, ".", u64::from(ticket.seq))
}
