//! Which entries are printed: those whose numbers have names, whose keys are whole, and whose lock
//! texts are of their own place.
ghost use Rattle.std.specs.Prelude.{◌≡◌};
ghost use Rattle.std.specs.List.{list_all};
ghost use Rattle.entry_reader.specs.Notes.{resource_at};
ghost use Rattle.entry_reader.specs.Writable as spec;

use history_text::{Cause, Entry, Names, Note, Sent};
use seata_types::limits::{KEY_PARTS, NAME_BYTES};
use seata_types::{Act, CallAnswer, List, Place, Registered, RowKey, StmtError, Text, Why, Xid};

fn is_name_byte(byte: u8) -> bool
    ensures { result ≡ spec.is_name_byte byte }
{
    byte.is_ascii_lowercase() || (byte.is_ascii_digit() || byte == b'_')
}

fn has_name_bytes(text: &[u8]) -> bool
    ensures { result ≡ list_all spec.is_name_byte text.now }
{
    text.iter().all(|byte| is_name_byte(*byte))
}

fn is_keyword(name: &str) -> bool
    ensures { result ≡ spec.is_keyword name.now }
{
    match name {
        "insert"
        | "into"
        | "values"
        | "update"
        | "set"
        | "where"
        | "delete"
        | "from"
        | "select"
        | "for"
        | "and"
        | "or"
        | "not" => true,
        _ => false,
    }
}

/// Whether statements may name a table so.
#[tactic(auto, unfolding(crate::specs::Writable::is_table_name))]
fn is_table_name(name: &str) -> bool
    ensures { result ≡ spec.is_table_name name.now }
{
    let bytes = name.as_bytes();
    match bytes {
        [] => false,
        [first, ..] => {
            first.is_ascii_lowercase()
                && (has_name_bytes(bytes) && (bytes.len() <= NAME_BYTES && !is_keyword(name)))
        }
    }
}

/// Whether a number, counted from 1, has a name.
fn is_named(names: &[Text], number: u16) -> bool
    ensures { result ≡ spec.is_named names.now number }
{
    number > 0 && number as usize <= names.len()
}

fn is_place(names: &Names, place: Place) -> bool
    ensures { result ≡ spec.is_place names.now place }
{
    match place {
        Place::Net | Place::Tc => true,
        Place::Res(number) => is_named(names.resources.as_slice(), number),
        Place::Man(number) => is_named(names.managers.as_slice(), number),
    }
}

#[tactic(auto, unfolding(crate::specs::Writable::is_key))]
fn is_key(names: &Names, key: &RowKey) -> bool
    ensures { result ≡ spec.is_key names.now key.now }
{
    let parts = key.pk.as_slice().len();
    is_named(names.resources.as_slice(), key.resource)
        && (is_table_name(key.table.as_str()) && (parts > 0 && parts <= KEY_PARTS))
}

#[tactic(auto, unfolding(crate::specs::Writable::is_error))]
fn is_error(names: &Names, error: &StmtError) -> bool
    ensures { result ≡ spec.is_error names.now error.now }
{
    match error {
        StmtError::Overflow { key } | StmtError::Duplicate { key } => is_key(names, key.get()),
        StmtError::NoTable
        | StmtError::NoColumn
        | StmtError::Columns
        | StmtError::KeyChanged
        | StmtError::TypeMismatch
        | StmtError::TooManyRows
        | StmtError::TableFull => true,
    }
}

#[tactic(auto, unfolding(crate::specs::Writable::is_why))]
fn is_why(names: &Names, why: &Why) -> bool
    ensures { result ≡ spec.is_why names.now why.now }
{
    match why {
        Why::Stmt { index: _, why } => is_error(names, why),
        _ => true,
    }
}

#[tactic(auto, unfolding(crate::specs::Writable::is_cause))]
fn is_cause(names: &Names, cause: &Cause) -> bool
    ensures { result ≡ spec.is_cause names.now cause.now }
{
    match cause {
        Cause::Deliver { stamp: _, from } => is_place(names, *from),
        _ => true,
    }
}

#[tactic(auto, unfolding(crate::specs::Writable::is_act))]
fn is_act(names: &Names, act: &Act) -> bool
    ensures { result ≡ spec.is_act names.now act.now }
{
    match act {
        Act::Conflict { key, .. }
        | Act::Held { key, .. }
        | Act::Busy { key, .. }
        | Act::Blocked { key, .. }
        | Act::BusyLocal { key, .. }
        | Act::DroppedLocal { key, .. } => is_key(names, key),
        Act::Dirty { key, .. } => is_key(names, key.get()),
        Act::Refused { why, .. } | Act::Dropped { why, .. } | Act::RefusedLocal { why, .. } => {
            is_why(names, why)
        }
        Act::Unable { why, .. } => is_error(names, why),
        _ => true,
    }
}

/// Whether each key stands above the one before it.
#[tactic(auto, unfolding(crate::specs::Writable::rises))]
fn rises(keys: &[RowKey]) -> bool
    ensures { result ≡ spec.rises keys.now }
{
    let Some((first, rest)) = keys.split_first() else {
        return true;
    };
    let mut last = first;
    for key in rest {
        if !last.cmp(key).is_lt() {
            return false;
        }
        last = key;
    }
    true
}

fn is_key_of(names: &Names, resource: u16, key: &RowKey) -> bool
    ensures { result ≡ spec.is_key_of names.now resource key.now }
{
    key.resource == resource && is_key(names, key)
}

fn are_keys_of(names: &Names, resource: u16, keys: &[RowKey]) -> bool
    ensures { result ≡ list_all (spec.is_key_of names.now resource) keys.now }
{
    keys.iter().all(|key| is_key_of(names, resource, key))
}

/// Whether the keys are those of a lock text: rising keys of one resource.
#[tactic(auto, unfolding(crate::specs::Writable::are_locks))]
fn are_locks(names: &Names, resource: u16, keys: &List<RowKey>) -> bool
    ensures { result ≡ spec.are_locks names.now resource keys.now }
{
    are_keys_of(names, resource, keys.as_slice()) && rises(keys.as_slice())
}

#[tactic(auto, unfolding(crate::specs::Writable::is_registered))]
fn is_registered(names: &Names, answer: &Registered) -> bool
    ensures { result ≡ spec.is_registered names.now answer.now }
{
    match answer {
        Registered::Conflict { key, .. } => is_key(names, key),
        Registered::Granted { .. } | Registered::Closed { .. } | Registered::Late => true,
    }
}

#[tactic(auto, unfolding(crate::specs::Writable::is_reply))]
fn is_reply(names: &Names, answer: &CallAnswer) -> bool
    ensures { result ≡ spec.is_reply names.now answer.now }
{
    match answer {
        CallAnswer::Done { .. } => true,
        CallAnswer::Busy { key, .. } => is_key(names, key),
        CallAnswer::Failed { why } => is_why(names, why),
    }
}

#[tactic(auto, unfolding(crate::specs::Writable::is_held))]
fn is_held(names: &Names, held: &Option<(RowKey, Xid)>) -> bool
    ensures { result ≡ spec.is_held names.now held.now }
{
    match held {
        Some((key, _)) => is_key(names, key),
        None => true,
    }
}

#[tactic(auto, unfolding(crate::specs::Writable::is_note))]
fn is_note(names: &Names, resource: u16, note: &Note) -> bool
    ensures { result ≡ spec.is_note names.now resource note.now }
{
    match note {
        Note::Begin { manager, .. } => is_named(names.managers.as_slice(), *manager),
        Note::Register { hold, check, .. } => {
            are_locks(names, resource, hold) && are_locks(names, resource, check)
        }
        Note::RegisterAnswer { answer, .. } => is_registered(names, answer),
        Note::LockQuery { check, .. } => are_locks(names, resource, check),
        Note::LockAnswer { held, .. } => is_held(names, held),
        Note::Answer { answer, .. } => is_reply(names, answer),
        _ => true,
    }
}

#[tactic(auto, unfolding(crate::specs::Writable::is_sent))]
fn is_sent(names: &Names, resource: u16, sent: &Option<Sent>) -> bool
    ensures { result ≡ spec.is_sent names.now resource sent.now }
{
    match sent {
        Some(sent) => is_place(names, sent.to) && is_note(names, resource, sent.note.get()),
        None => true,
    }
}

/// The resource at a place; 0 for none.
pub fn resource_at(place: Place) -> u16
    ensures { result ≡ resource_at place }
{
    match place {
        Place::Res(number) => number,
        Place::Net | Place::Tc | Place::Man(_) => 0,
    }
}

/// Whether the entry is printed with these names.
#[tactic(auto, unfolding(crate::specs::Writable::is_entry))]
pub fn is_entry(names: &Names, entry: &Entry) -> bool
    ensures { result ≡ spec.is_entry names.now entry.entry.now }
{
    is_place(names, entry.place)
        && (is_cause(names, &entry.cause)
            && (is_act(names, &entry.act) && is_sent(names, resource_at(entry.place), &entry.sent)))
}
