//! Values by the keys of rows.
ghost use Rattle.std.specs.Prelude.{◌≡◌, ◌≤◌, length, IfOk, IfErr, OnOk, OnErr};
ghost use Rattle.std.specs.List.{insert};
ghost use Rattle.local_tables.specs.Lookups.{IsRising};
ghost use Rattle.local_tables.specs.Places.{IsPlace, IsGap};

use seata_types::{NoMemory, RowKey};
use std::alloc::Global;
use std::cmp::Ordering;
use std::marker::Model;

/// Values by the keys of rows. A call touches few rows, so they stand in a list. Contracts see the entries, in rising order
/// of keys.
#[derive(Drop)]
pub struct RowMap<V> {
    entries: Vec<(RowKey, V)>,
}

impl<V> Model for RowMap<V> {
    ghost use Rattle.local_tables.specs.Lookups.{IsRising};
    ghost use Rattle.local_tables.specs.Places.{Entries};

    ghost Value = { Entries V };

    ghost view = { λ m. m.entries.items };

    ghost invariant = { λ m. IsRising m.entries.items };
}

impl<V> RowMap<V> {
    ghost use Rattle.std.specs.Prelude.{◌≡◌, []};
    ghost use Rattle.std.specs.Option.{option_copied};
    ghost use Rattle.std.specs.Map.{lookup};
    ghost use Rattle.local_tables.specs.Lookups.{IsRising};
    ghost use Rattle.local_tables.specs.Rows.{is_key};

    /// No entries; takes no memory.
    pub fn new(alloc: Global) -> RowMap<V>
        ensures { result ≡ [] }
    {
        RowMap {
            entries: Vec::new(alloc),
        }
    }

    /// The entries, in rising order of keys; takes no memory.
    pub fn entries(&self) -> &[(RowKey, V)]
        ensures all { result.now ≡ self.now }
        ensures in_order { IsRising self.now }
    {
        self.entries.as_slice()
    }

    /// The entries, given away; takes no memory.
    pub fn into_entries(self) -> Vec<(RowKey, V)>
        ensures all { result.items ≡ self }
        ensures in_order { IsRising self }
    {
        let RowMap { entries } = self;
        entries
    }

    /// The value at a key; takes no memory.
    pub fn get(&self, key: &RowKey) -> Option<&V>
        ensures { option_copied result ≡ lookup (is_key key.now) self.now }
    {
        let entries = self.entries.as_slice();
        match place(entries, key) {
            Ok(at) => Some(&entries[at].1),
            Err(_) => None,
        }
    }
}

impl<V: Drop> RowMap<V> {
    ghost use Rattle.std.specs.Prelude.{◌≡◌, OnOk, OnErr};
    ghost use Rattle.std.specs.BTreeMap.{insert_entry};
    ghost use Rattle.seata_types.specs.Orders.{key_cmp};
    ghost use Rattle.local_tables.specs.Lookups.{IsRising};

    /// Puts a value at a key. Without memory all is as before.
    pub fn put(&mut self, key: RowKey, value: V) -> Result<(), NoMemory>
        ensures ok { OnOk result (self.new ≡ insert_entry key_cmp self.old key value) }
        ensures err { OnErr result (self.new ≡ self.old) }
        ensures in_order { IsRising self.new }
    {
        match place(self.entries.as_slice(), &key) {
            Ok(at) => {
                self.entries[at] = (key, value);
                Ok(())
            }
            Err(at) => {
                insert_at(&mut self.entries, at, (key, value))?;
                Ok(())
            }
        }
    }
}

/// Puts an entry at a place. Without memory all is as before.
fn insert_at<V: Drop>(
    entries: &mut Vec<(RowKey, V)>,
    place: usize,
    entry: (RowKey, V),
) -> Result<(), NoMemory>
    requires { place ≤ length entries.old.items }
    ensures ok { OnOk result (entries.new.items ≡ insert entries.old.items place entry) }
    ensures err { OnErr result (entries.new.items ≡ entries.old.items) }
{
    entries.insert(place, entry)?;
    Ok(())
}

/// The place of a key, or else the place where it belongs.
fn place<V>(entries: &[(RowKey, V)], key: &RowKey) -> Result<usize, usize>
    requires { IsRising entries.now }
    ensures found { IfOk result (λ i. IsPlace entries.now key.now i) }
    ensures missing { IfErr result (λ i. IsGap entries.now key.now i) }
{
    let mut low = 0;
    let mut high = entries.len();
    while low < high {
        let middle = low + (high - low) / 2;
        match key.cmp(&entries[middle].0) {
            Ordering::Less => high = middle,
            Ordering::Greater => low = middle + 1,
            Ordering::Equal => return Ok(middle),
        }
    }
    Err(low)
}
