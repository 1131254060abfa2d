//! Where the entries stand that sent a message.
ghost use Rattle.std.specs.Prelude.{◌≡◌, option_map};
ghost use Rattle.std.specs.Option.{option_copied};
ghost use Rattle.report_text.specs.SentIndex.{note_in, sent_in};

use history_text::{Cause, Entry, Note, Origin, origin_of};
use seata_types::{NoMemory, Place};
use std::alloc::Global;
use std::collections::BTreeMap;
use std::marker::Model;

/// The entries of a history that sent a message, each with its place among all, counted from 0.
#[derive(Drop)]
pub(crate) struct SentIndex {
    places: BTreeMap<Origin, usize>,
}

impl Model for SentIndex {
    ghost use Rattle.report_text.specs.SentIndex.{Index};

    ghost Value = { Index };

    ghost view = { λ s. s.places.entries };
}

impl SentIndex {
    ghost use Rattle.std.specs.Prelude.{◌≡◌, [], OnOk};
    ghost use Rattle.std.specs.Option.{option_copied};
    ghost use Rattle.report_text.specs.SentIndex.{place_of, with_entry, delivered_note};

    /// No entry was read; takes no memory.
    pub(crate) fn new(alloc: Global) -> SentIndex
        ensures { result ≡ [] }
    {
        SentIndex {
            places: BTreeMap::new(alloc),
        }
    }

    /// The next entry, which stands at this place.
    pub(crate) fn add(&mut self, at: usize, next: &Entry) -> Result<(), NoMemory>
        ensures { OnOk result (self.new ≡ with_entry self.old at next.entry.now) }
    {
        if next.sent.is_some() {
            let origin = origin_of(next.stamp, next.place);
            self.places.insert(origin, at)?;
        }
        Ok(())
    }

    /// Where the entry of this number and place stands; none where it sent nothing. Takes no memory.
    fn place(&self, stamp: u32, from: Place) -> Option<usize>
        ensures { result ≡ place_of self.now stamp from }
    {
        self.places.get(&origin_of(stamp, from)).copied()
    }

    /// The note of the message that a cause delivers, of these entries; takes no memory.
    pub(crate) fn note<'a>(&self, before: &'a [Entry], cause: &Cause) -> Option<&'a Note>
        ensures { option_copied result ≡ delivered_note self.now before.now cause.now }
    {
        let Cause::Deliver { stamp, from } = cause else {
            return None;
        };
        match self.place(*stamp, *from) {
            Some(at) => note_at(before, at),
            None => None,
        }
    }
}

/// The note of what one of these entries sent.
fn note_at(before: &[Entry], at: usize) -> Option<&Note>
    ensures { option_copied result ≡ option_map note_in (sent_in before.now at) }
{
    match before.get(at) {
        Some(entry) => note_of(entry),
        None => None,
    }
}

/// The note of what an entry sent.
fn note_of(found: &Entry) -> Option<&Note>
    ensures { option_copied result ≡ option_map note_in found.entry.now.sent }
{
    match &found.sent {
        Some(sent) => Some(sent.note.get()),
        None => None,
    }
}
