//! Merging traces.
ghost use Rattle.std.specs.Prelude.{◌≡◌, ◌++◌, IfOk, OnOk};
ghost use Rattle.std.specs.List.Sorted.{IsPermutation, IsSorted};
ghost use Rattle.trace_merge.specs.Merges.{IsMerged, entry_cmp, joined};

use history_text::Entry;
use seata_types::{List, NoMemory};
use std::alloc::Global;

// Moves a trace behind other entries.
fn add(all: &mut Vec<Entry>, trace: List<Entry>) -> Result<(), NoMemory>
    ensures { OnOk result (all.new.items ≡ all.old.items ++ trace) }
{
    all.append(&mut trace.into_vec())?;
    Ok(())
}

/// The entries of these traces, one trace after the other.
fn joined_entries(alloc: Global, traces: List<List<Entry>>) -> Result<Vec<Entry>, NoMemory>
    ensures { IfOk result (λ all. all.items ≡ joined traces) }
{
    let mut all = Vec::new(alloc);
    for trace in traces.into_vec() {
        add(&mut all, trace)?;
    }
    Ok(all)
}

/// Puts entries in order.
fn sort(all: &mut Vec<Entry>)
    ensures same { IsPermutation all.old.items all.new.items }
    ensures sorted { IsSorted entry_cmp all.new.items }
{
    all.sort_unstable_by_key(|entry| (entry.stamp, entry.place));
}

/// All entries of these traces by stamp, and those of one stamp by place: the network, the coordinator, resources, managers.
/// Each trace is the entries of one node; where memory is refused they are lost.
pub fn merge(alloc: Global, traces: List<List<Entry>>) -> Result<List<Entry>, NoMemory>
    ensures { IfOk result (IsMerged traces) }
{
    let mut all = joined_entries(alloc, traces)?;
    sort(&mut all);
    Ok(List::of(all))
}
