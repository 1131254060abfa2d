//! Calls of a memory whose comparisons nobody counts. The others are methods of `Memory`.
ghost use Rattle.std.specs.Prelude.{◌≡◌, ◌<◌, ◌+◌, ◌^◌, true, OnOk, OnErr};
ghost use Rattle.session_log.specs.Soundness.{all_differ, same_ticket_key, tickets};
ghost use Rattle.session_memory.specs.Changes.{after, may_come, MayTake, TakesIn};
ghost use Rattle.session_memory.specs.Loading.{LoadsSnapshot};
ghost use Rattle.session_memory.specs.Order.{IsCounted};

use crate::errors::LoadError;
use crate::memory::Memory;
use durable_records::SessionRecord;
use lock_table::Steps;
use seata_types::NoMemory;
use session_log::Snapshot;
use std::alloc::Global;
use std::marker::Brand;
use std::sync::ledger::{Blank, Ledger};

fn allows_by<L: Ledger>(memory: &Memory, item: &SessionRecord, blank: Blank) -> bool
    requires name { blank.name ≡ L.name }
    requires parts { blank.parts ≡ L.parts }
    requires some { 0 < blank.parts }
    ensures { result ≡ may_come memory.now item.now }
{
    let mut steps = Steps::<L>::new(blank);
    memory.allows(item, &mut steps)
}

/// Whether a record may come.
pub fn allows(memory: &Memory, item: &SessionRecord) -> bool
    ensures { result ≡ may_come memory.now item.now }
{
    allows_by::<Brand>(memory, item, Blank::new(1))
}

fn apply_by<L: Ledger>(
    alloc: Global,
    memory: &mut Memory,
    item: &SessionRecord,
    blank: Blank,
) -> Result<(), NoMemory>
    requires name { blank.name ≡ L.name }
    requires parts { blank.parts ≡ L.parts }
    requires some { 0 < blank.parts }
    requires may { MayTake memory.old item.now }
    ensures { TakesIn item.now result memory.old memory.new }
{
    let mut steps = Steps::<L>::new(blank);
    memory.apply(alloc, item, &mut steps)
}

/// Takes in one more record that may come. After an error all is as before.
pub fn apply(alloc: Global, memory: &mut Memory, item: &SessionRecord) -> Result<(), NoMemory>
    requires allowed { may_come memory.old item.now ≡ true }
    requires room { memory.old.acts + 1 < 2 ^ 32 }
    ensures ok { OnOk result (memory.new ≡ after item.now memory.old) }
    ensures err { OnErr result (memory.new ≡ memory.old) }
{
    apply_by::<Brand>(alloc, memory, item, Blank::new(1))
}

fn load_by<L: Ledger>(alloc: Global, snapshot: Snapshot, blank: Blank) -> Result<Memory, LoadError>
    requires name { blank.name ≡ L.name }
    requires parts { blank.parts ≡ L.parts }
    requires some { 0 < blank.parts }
    requires counted { IsCounted snapshot }
    requires tickets { all_differ same_ticket_key (tickets snapshot) ≡ true }
    ensures { LoadsSnapshot snapshot result }
{
    let mut steps = Steps::<L>::new(blank);
    Memory::load(alloc, snapshot, &mut steps)
}

/// A memory of a snapshot in which no two AT branches of a resource have one ticket, unless a row has two holders in it.
pub fn load(alloc: Global, snapshot: Snapshot) -> Result<Memory, LoadError>
    requires counted { IsCounted snapshot }
    requires tickets { all_differ same_ticket_key (tickets snapshot) ≡ true }
    ensures { LoadsSnapshot snapshot result }
{
    load_by::<Brand>(alloc, snapshot, Blank::new(1))
}
