//! What holds of every merge of traces.
ghost use Rattle.trace_merge.specs.Merges.{MergesEntries};

/// The printed entries of the traces of nodes, merged, are those of the one history that the traces merge to.
pub fn merged_entries_are_of_the_history()
    ensures { MergesEntries }
{}
