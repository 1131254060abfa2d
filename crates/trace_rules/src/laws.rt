//! What is proved of traces and their merge.
ghost use Rattle.trace_rules.specs.Merged.{MergesAll};
ghost use Rattle.trace_rules.specs.Runs.{MergesLegally, MergesToRun};
ghost use Rattle.trace_rules.specs.Settling.{SettlesAll, SettlesBroken};

/// Traces of places that differ, each with rising stamps, have a merge.
pub fn traces_have_a_merge()
    ensures { MergesAll }
{}

/// Traces that are legal each for its node alone, and whose nodes received only what the others sent them, in that order and
/// none twice, merge to a legal history.
pub fn traces_merge_to_a_legal_history()
    ensures { MergesLegally }
{}

/// Where moreover each node is stopped and restarted as a run does it, has the clock of a run, and received of each other the
/// first of what went over their link, that history follows the rules of a run.
pub fn traces_merge_to_a_run()
    ensures { MergesToRun }
{}

/// All nodes of a run at their ends, with their links joined, make one legal history, which follows the rules of a run.
pub fn ended_nodes_make_a_run()
    ensures { SettlesAll }
{}

/// So they do where a fault ended the run, but that a node may not have begun, and messages may be lost in any number.
pub fn ended_nodes_make_a_history()
    ensures { SettlesBroken }
{}
