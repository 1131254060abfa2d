//! The rows that are held, in the order of their keys, each with its holder.
ghost use Rattle.std.specs.Prelude.{◌≡◌, ◌≤◌, ◌<◌, ◌+◌, ◌^◌, ℕ, Some, None, IfOk, IfErr, length, slice_get, if◌then◌else◌};
ghost use Rattle.std.specs.Vec.{vec_len, vec_capacity};
ghost use Rattle.seata_types.specs.Orders.{key_cmp};
ghost use Rattle.local_tables.specs.Rows.{is_key};
ghost use Rattle.local_tables.specs.Lookups.{IsRising};
ghost use Rattle.lock_table.specs.Locks.{locked};
ghost use Rattle.lock_table.specs.Counts.{held_at, locks_of, once_more, once_less};
ghost use Rattle.seata_types.specs.declared.rows.RowKey.{RowKey as Key};
ghost use Rattle.lock_table.specs.declared.holder.Holder.{Holder as Held};
ghost use Rattle.lock_table.specs.Searches.{IsPlace, IsGap};

use crate::holder::Holder;
use crate::steps::{Count, Uncounted};
use seata_types::{RowKey, Xid};
use std::cmp::Ordering;

// One comparison of two keys, which is a step.
fn compare<C: Count>(key: &RowKey, other: &RowKey, steps: &mut C) -> Ordering
    ensures order { result ≡ key_cmp key.now other.now }
    ensures counted { C.count steps.new ≡
        (if C.counts then C.count steps.old + 1 else C.count steps.old) }
    ensures cost { C.count steps.new ≤ C.count steps.old + 1 }
{
    steps.step();
    key.cmp(other)
}

/// The place of a key, or else the place where it belongs, in at most as many steps as the number of rows has binary digits.
fn place<C: Count>(rows: &[(RowKey, Holder)], key: &RowKey, steps: &mut C) -> Result<usize, usize>
    requires { IsRising rows.now }
    ensures found { IfOk result (λ i. IsPlace rows.now key.now i) }
    ensures missing { IfErr result (λ i. IsGap rows.now key.now i) }
    ensures cost { (d : ℕ) → length rows.now < 2 ^ d → C.count steps.new ≤ C.count steps.old + d }
{
    let mut low = 0;
    let mut high = rows.len();
    while low < high {
        let middle = low + (high - low) / 2;
        match compare(key, &rows[middle].0, steps) {
            Ordering::Less => high = middle,
            Ordering::Greater => low = middle + 1,
            Ordering::Equal => return Ok(middle),
        }
    }
    Err(low)
}

/// Who holds a row.
pub(crate) fn holder<C: Count>(
    rows: &[(RowKey, Holder)],
    key: &RowKey,
    steps: &mut C,
) -> Option<Xid>
    requires { IsRising rows.now }
    ensures holder { result ≡ locked (locks_of rows.now) key.now }
    ensures cost { (d : ℕ) → length rows.now < 2 ^ d → C.count steps.new ≤ C.count steps.old + d }
{
    match place(rows, key, steps) {
        Ok(at) => Some(rows[at].1.xid),
        Err(_) => None,
    }
}

/// Puts a row once more, where there is room for one that wasn't there.
pub(crate) fn put<C: Count>(rows: &mut Vec<(RowKey, Holder)>, key: RowKey, xid: Xid, steps: &mut C)
    requires order { IsRising rows.old.items }
    requires room { vec_len rows.old < vec_capacity rows.old }
    requires few { (h : Held) → held_at rows.old.items key ≡ Some h → h.more + 1 < 2 ^ 128 }
    ensures order { IsRising rows.new.items }
    ensures there { (q : Key) → held_at rows.new.items q ≡
        (if is_key key q then Some (once_more xid (held_at rows.old.items key))
        else held_at rows.old.items q) }
    ensures length { vec_len rows.new ≤ vec_len rows.old + 1 }
    ensures size { length rows.new.items ≤ length rows.old.items + 1 }
    ensures room { vec_capacity rows.old ≤ vec_capacity rows.new }
    ensures cost { (d : ℕ) → length rows.old.items < 2 ^ d →
        C.count steps.new ≤ C.count steps.old + d }
{
    match place(rows, &key, steps) {
        Ok(at) => rows[at].1.more += 1,
        Err(at) => {
            let inserted = rows.insert(at, (key, Holder { xid, more: 0 }));
            prove!(inserted.is_ok());
            drop(inserted);
        }
    }
}

/// Gives a row back once.
pub(crate) fn give_back(rows: &mut Vec<(RowKey, Holder)>, key: &RowKey)
    requires { IsRising rows.old.items }
    ensures order { IsRising rows.new.items }
    ensures there { (q : Key) → held_at rows.new.items q ≡
        (if is_key key.now q then once_less (held_at rows.old.items key.now)
        else held_at rows.old.items q) }
{
    if let Ok(at) = place(rows, key, &mut Uncounted) {
        if rows[at].1.more == 0 {
            drop(rows.remove(at));
        } else {
            rows[at].1.more -= 1;
        }
    }
}
