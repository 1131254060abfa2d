//! Single pieces: numbers, identities, words, statuses and places. What doesn't fit is read as
//! something all the same, since the entry is written again and compared with its line.
ghost use Rattle.std.specs.Prelude.{◌≡◌, nat_lt};
ghost use Rattle.std.specs.List.{list_all};
ghost use Rattle.entry_reader.specs.Parts as spec;

use crate::cutting::behind;
use seata_types::{BranchId, BranchKind, BranchStatus, Decision, GlobalStatus, Ticket, Xid};

/// The number at the front; one that is too large stays at the greatest.
#[tactic(auto, unfolding(crate::specs::Parts::number))]
pub fn number(text: &[u8]) -> u64
    ensures { result ≡ spec.number text.now }
{
    let mut number = 0u64;
    for digit in text {
        if !digit.is_ascii_digit() {
            return number;
        }
        number = number
            .saturating_mul(10)
            .saturating_add((*digit as u64).saturating_sub(b'0' as u64));
    }
    number
}

/// What stands behind the number at the front.
fn behind_number(text: &[u8]) -> &[u8]
    ensures { result.now ≡ spec.behind_number text.now }
{
    let mut rest = text;
    while let [digit, more @ ..] = rest {
        if !digit.is_ascii_digit() {
            return rest;
        }
        rest = more;
    }
    rest
}

pub fn number_16(text: &[u8]) -> u16
    ensures { result ≡ spec.number_16 text.now }
{
    number(text).min(u16::MAX as u64) as u16
}

pub fn number_32(text: &[u8]) -> u32
    ensures { result ≡ spec.number_32 text.now }
{
    number(text).min(u32::MAX as u64) as u32
}

/// `tc:1`.
pub fn xid(text: &[u8]) -> Xid
    ensures { result ≡ spec.xid_of text.now }
{
    Xid(number(behind(text, 3)))
}

/// `b1`.
pub fn branch(text: &[u8]) -> BranchId
    ensures { result ≡ spec.branch_of text.now }
{
    BranchId(number(behind(text, 1)))
}

/// `c1`.
pub fn call(text: &[u8]) -> u16
    ensures { result ≡ spec.call_of text.now }
{
    number_16(behind(text, 1))
}

/// `t1.2`.
pub fn ticket(text: &[u8]) -> Ticket
    ensures { result ≡ spec.ticket_of text.now }
{
    let numbers = behind(text, 1);
    Ticket {
        boot: number_32(numbers),
        seq: number_32(behind(behind_number(numbers), 1)),
    }
}

fn is_ascii(text: &[u8]) -> bool
    ensures { result ≡ list_all (λ b. nat_lt b 128) text.now }
{
    text.iter().all(|b| *b < 128)
}

/// A word; what has other characters than ASCII is read as none.
pub fn word(text: &[u8]) -> &str
    ensures { result.now ≡ spec.word_in text.now }
{
    if !is_ascii(text) {
        return "";
    }
    match str::from_utf8(text) {
        Ok(word) => word,
        Err(_) => "",
    }
}

pub fn kind(text: &[u8]) -> BranchKind
    ensures { result ≡ spec.kind_of text.now }
{
    match word(text) {
        "TCC" => BranchKind::Tcc,
        _ => BranchKind::At,
    }
}

pub fn decision(text: &[u8]) -> Decision
    ensures { result ≡ spec.decision_of text.now }
{
    match word(text) {
        "commit" => Decision::Commit,
        "rollback" => Decision::Rollback,
        _ => Decision::Timeout,
    }
}

/// Whether a lock's holder rolls back.
pub fn rolling(text: &[u8]) -> bool
    ensures { result ≡ spec.rolling_of text.now }
{
    match word(text) {
        "rolling" => true,
        _ => false,
    }
}

/// A session's status, by its number.
pub fn status(text: &[u8]) -> GlobalStatus
    ensures { result ≡ spec.status_of text.now }
{
    match GlobalStatus::from_code(number(text).min(15) as u8) {
        Some(status) => status,
        None => GlobalStatus::UnKnown,
    }
}

/// A branch's status, by its number.
pub fn branch_status(text: &[u8]) -> BranchStatus
    ensures { result ≡ spec.branch_status_of text.now }
{
    match BranchStatus::from_code(number(text).min(10) as u8) {
        Some(status) => status,
        None => BranchStatus::Unknown,
    }
}
