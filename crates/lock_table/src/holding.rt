//! The parts of taking rows and of giving them back.
ghost use Rattle.std.specs.Prelude.{◌≡◌, ◌≤◌, ◌<◌, ◌+◌, ◌^◌, ◌++◌, ◌==◌, ℕ, IfOk, OnOk, length, if◌then◌else◌};
ghost use Rattle.std.specs.Vec.{vec_len, vec_capacity};
ghost use Rattle.std.specs.Option.{option_copied, unwrap_or};
ghost use Rattle.local_tables.specs.Lookups.{IsRising};
ghost use Rattle.lock_table.specs.Locks.{rows_of, least_leg, leg_of, without_leg, without_xid, TakesAtMost};
ghost use Rattle.lock_table.specs.Counts.{locks_of, count_key, times_at, IsIndex, AreFree};
ghost use Rattle.lock_table.specs.Answers.{IsHeld, FindsConflict};
ghost use Rattle.seata_types.specs.declared.rows.RowKey.{RowKey as Key};
ghost use Rattle.seata_types.specs.declared.ids.Xid.{Xid as Owner};

use crate::errors::HoldError;
use crate::holder::Holder;
use crate::index;
use crate::steps::Count;
use seata_types::{BranchId, Duplicate, Leg, List, NoMemory, RowKey, Xid};
use std::alloc::Global;
use std::collections::BTreeMap;

fn held(alloc: Global, key: &RowKey, by: Xid) -> HoldError
    ensures { IsHeld key.now by result }
{
    match key.copy(alloc) {
        Ok(key) => HoldError::Held { key, by },
        Err(_) => HoldError::NoMemory,
    }
}

/// Whether another transaction holds one of these rows, and the first one.
pub(crate) fn conflict<C: Count>(
    alloc: Global,
    rows: &[(RowKey, Holder)],
    xid: Xid,
    keys: &[RowKey],
    steps: &mut C,
) -> Result<(), HoldError>
    requires { IsRising rows.now }
    ensures found { FindsConflict (locks_of rows.now) xid keys.now result }
    ensures cost { TakesAtMost (length keys.now) (length rows.now) (C.count steps.old)
        (C.count steps.new) }
{
    for key in keys {
        if let Some(by) = index::holder(rows, key, steps) {
            if by.0 != xid.0 {
                return Err(held(alloc, key, by));
            }
        }
    }
    Ok(())
}

/// Appends copies of these keys.
fn push_copies(alloc: Global, out: &mut Vec<RowKey>, keys: &[RowKey]) -> Result<(), NoMemory>
    ensures { OnOk result (out.new.items ≡ out.old.items ++ keys.now) }
{
    for key in keys {
        out.push(key.copy(alloc)?)?;
    }
    Ok(())
}

/// Copies of these keys.
pub(crate) fn copies(alloc: Global, keys: &[RowKey]) -> Result<Vec<RowKey>, NoMemory>
    ensures { IfOk result (λ copied. copied.items ≡ keys.now) }
{
    let mut copied = Vec::new(alloc);
    push_copies(alloc, &mut copied, keys)?;
    Ok(copied)
}

/// Copies of the rows that a branch holds and of these.
pub(crate) fn with_rows(
    alloc: Global,
    legs: &BTreeMap<Leg, List<RowKey>>,
    leg: Leg,
    keys: &[RowKey],
) -> Result<List<RowKey>, NoMemory>
    ensures { IfOk result (λ all. all ≡ rows_of legs.now.entries leg ++ keys.now) }
{
    let mut all = Vec::new(alloc);
    if let Some(old) = legs.get(&leg) {
        push_copies(alloc, &mut all, old.as_slice())?;
    }
    push_copies(alloc, &mut all, keys)?;
    Ok(List::of(all))
}

/// Puts rows that no other transaction holds, where there is room for all.
pub(crate) fn put_all<C: Count>(
    rows: &mut Vec<(RowKey, Holder)>,
    keys: Vec<RowKey>,
    xid: Xid,
    steps: &mut C,
)
    requires order { IsRising rows.old.items }
    requires room { vec_len rows.old + length keys.items ≤ vec_capacity rows.old }
    requires free { AreFree rows.old.items xid keys.items }
    requires few { (q : Key) → times_at rows.old.items xid q + count_key keys.items q < 2 ^ 128 }
    ensures order { IsRising rows.new.items }
    ensures there { (x : Owner) (q : Key) → times_at rows.new.items x q ≡
        times_at rows.old.items x q + (if xid.0 == x.0 then count_key keys.items q else 0) }
    ensures cost { TakesAtMost (length keys.items) (length rows.old.items + length keys.items)
        (C.count steps.old) (C.count steps.new) }
{
    for key in keys {
        index::put(rows, key, xid, steps);
    }
}

// The least branch that a transaction may have; branches stand in order of their transactions.
fn least_leg(xid: Xid) -> Leg
    ensures { result ≡ least_leg xid }
{
    Leg {
        xid,
        branch: BranchId(0),
    }
}

/// The first branch of a transaction that holds rows.
fn leg_of(legs: &BTreeMap<Leg, List<RowKey>>, xid: Xid) -> Option<Leg>
    ensures { result ≡ leg_of legs.now.entries xid }
{
    match legs.range(least_leg(xid)..).next() {
        Some((leg, _)) if leg.xid.0 == xid.0 => Some(*leg),
        _ => None,
    }
}

/// Takes out a branch and gives its rows back.
pub(crate) fn give_leg(
    rows: &mut Vec<(RowKey, Holder)>,
    legs: &mut BTreeMap<Leg, List<RowKey>>,
    leg: Leg,
)
    requires { IsIndex rows.old.items legs.old.entries }
    ensures index { IsIndex rows.new.items legs.new.entries }
    ensures legs { legs.new.entries ≡ without_leg legs.old.entries leg }
{
    if let Some(keys) = legs.remove(&leg) {
        for key in keys.as_slice() {
            index::give_back(rows, key);
        }
    }
}

/// Takes out all branches of a transaction and gives their rows back.
pub(crate) fn give_all(
    rows: &mut Vec<(RowKey, Holder)>,
    legs: &mut BTreeMap<Leg, List<RowKey>>,
    xid: Xid,
)
    requires { IsIndex rows.old.items legs.old.entries }
    ensures index { IsIndex rows.new.items legs.new.entries }
    ensures legs { legs.new.entries ≡ without_xid legs.old.entries xid }
{
    while let Some(leg) = leg_of(legs, xid) {
        give_leg(rows, legs, leg);
    }
}

/// Copies of the rows with their transactions.
pub(crate) fn listed(
    alloc: Global,
    rows: &[(RowKey, Holder)],
) -> Result<List<(RowKey, Xid)>, NoMemory>
    ensures { IfOk result (λ listed. listed ≡ locks_of rows.now) }
{
    let mut listed = Vec::new(alloc);
    for (key, holder) in rows {
        listed.push((key.copy(alloc)?, holder.xid))?;
    }
    Ok(List::of(listed))
}
