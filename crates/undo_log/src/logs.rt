//! The undo log.
ghost use Rattle.std.specs.Prelude.{◌≡◌, ◌++◌, List as Items, None, if◌then◌else◌, OnOk};
ghost use Rattle.std.specs.Option.{option_copied};
ghost use Rattle.undo_log.specs.Entries.{is_of_call, record_in, with_record, leg_at, IsPast};
ghost use Rattle.undo_log.specs.declared.records.UndoRecord.{UndoRecord as Record};

use crate::records::{UndoEntry, UndoError, UndoRecord};
use seata_types::{BranchId, Duplicate, Leg, List, NoMemory, Xid};
use std::alloc::Global;
use std::collections::BTreeMap;
use std::marker::Model;
use std::ops::Bound;

/// The undo log of one resource, after Seata's `undo_log`, whose key is transaction and branch. Contracts see its entries
/// in this order.
#[derive(Drop)]
pub struct UndoLog {
    entries: BTreeMap<Leg, UndoEntry>,
}

impl Model for UndoLog {
    ghost use Rattle.undo_log.specs.Entries.{Log, IsInOrder};

    ghost Value = { Log };

    ghost view = { λ l. l.entries.entries };

    ghost invariant = { λ l. IsInOrder l.entries.entries };
}

impl UndoLog {
    ghost use Rattle.std.specs.Prelude.{◌≡◌, [], length, IfOk};
    ghost use Rattle.std.specs.Option.{option_copied};
    ghost use Rattle.undo_log.specs.Entries.{IsInOrder, Puts, entry_at, record_of_call, records, without_entry};

    /// No branch has an entry; takes no memory.
    pub fn new(alloc: Global) -> UndoLog
        ensures { result ≡ [] }
    {
        UndoLog {
            entries: BTreeMap::new(alloc),
        }
    }

    /// Gives a branch its entry, where it has none. After an error all is as before.
    pub fn put(&mut self, leg: Leg, entry: UndoEntry) -> Result<(), UndoError>
        ensures { Puts self.old leg entry result self.new }
    {
        if self.entries.contains_key(&leg) {
            return Err(UndoError::Taken);
        }
        match self.entries.insert(leg, entry) {
            Ok(_) => Ok(()),
            Err(_) => Err(UndoError::NoMemory),
        }
    }

    /// The entry of a branch; takes no memory.
    pub fn find(&self, leg: Leg) -> Option<&UndoEntry>
        ensures { option_copied result ≡ entry_at self.now leg }
    {
        self.entries.get(&leg)
    }

    /// The undo record of a call of a transaction, counted from 1; of several the one with the least branch. Takes no
    /// memory.
    pub fn find_call(&self, xid: Xid, call: u16) -> Option<&UndoRecord>
        ensures found { option_copied result ≡ record_of_call xid.0 call self.now }
        ensures in_order { IsInOrder self.now }
    {
        let first = Bound::Included(first_leg(xid.0));
        for (leg, entry) in self.entries.range((first, past(xid))) {
            if let Some(record) = of_call(*leg, entry, xid, call) {
                return Some(record);
            }
        }
        None
    }

    /// Takes the entry of a branch out: none where it has none. Takes no memory.
    pub fn remove(&mut self, leg: Leg) -> Option<UndoEntry>
        ensures removed { result ≡ entry_at self.old leg }
        ensures left { self.new ≡ without_entry self.old leg }
    {
        self.entries.remove(&leg)
    }

    /// How many entries there are; takes no memory.
    pub fn len(&self) -> usize
        ensures { result ≡ length self.now }
    {
        self.entries.len()
    }

    /// All entries, the markers too, by transaction and branch.
    pub fn entries(&self, alloc: Global) -> Result<List<(Leg, UndoEntry)>, NoMemory>
        ensures all { IfOk result (λ all. all ≡ self.now) }
        ensures in_order { IsInOrder self.now }
    {
        let mut all = Vec::new(alloc);
        for (leg, entry) in &self.entries {
            all.push((*leg, entry.copy(alloc)?))?;
        }
        Ok(List::of(all))
    }

    /// All undo records, without the markers, by transaction and branch.
    pub fn list(&self, alloc: Global) -> Result<List<UndoRecord>, NoMemory>
        ensures all { IfOk result (λ all. all ≡ records self.now) }
        ensures in_order { IsInOrder self.now }
    {
        let mut all = Vec::new(alloc);
        for (_leg, entry) in &self.entries {
            add_record(alloc, &mut all, entry)?;
        }
        Ok(List::of(all))
    }
}

/// Where the branches of a transaction begin.
fn first_leg(xid: u64) -> Leg
    ensures { result ≡ leg_at xid 0 }
{
    Leg {
        xid: Xid(xid),
        branch: BranchId(0),
    }
}

/// Where the branches of a transaction end.
fn past(xid: Xid) -> Bound<Leg>
    ensures { IsPast xid.0 result }
{
    match xid.0.checked_add(1) {
        Some(next) => Bound::Excluded(first_leg(next)),
        None => Bound::Unbounded,
    }
}

/// The undo record of a branch, where it has one and it is of this call.
fn of_call<'a>(leg: Leg, entry: &'a UndoEntry, xid: Xid, call: u16) -> Option<&'a UndoRecord>
    ensures { option_copied result ≡ if is_of_call xid.0 call leg entry.now then record_in entry.now else None }
{
    match entry {
        UndoEntry::Normal(record) if leg.xid == xid && record.call == call => Some(record),
        _ => None,
    }
}

/// Adds a copy of an entry's undo record, where it has one.
fn add_record(alloc: Global, all: &mut Vec<UndoRecord>, entry: &UndoEntry) -> Result<(), NoMemory>
    ensures { OnOk result ((rest : Items Record) → all.new.items ++ rest ≡ all.old.items ++ with_record entry.now rest) }
{
    if let UndoEntry::Normal(record) = entry {
        all.push(record.copy(alloc)?)?;
    }
    Ok(())
}
