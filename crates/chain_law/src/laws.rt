//! What one call leaves, and the next one begins with.
ghost use Rattle.chain_law.specs.Chained.{CallsGoOn, ReplaysAreChained, RunsAreChained};

use disk_model::Shelf;

/// What a replay leaves on disks that tell their bytes, the next call of the scenario may begin with: over whatever the disks
/// held before it, where it is done and where a fault ended it, they hold records that its history may leave. So both histories
/// are a chain.
pub fn replays_are_chained<H: Shelf>()
    ensures { ReplaysAreChained H.D.state H.state }
{}

/// The same of a run.
pub fn runs_are_chained<H: Shelf>()
    ensures { RunsAreChained H.D.state H.state }
{}

/// So calls of a scenario in a row, from a shelf on that was never used for its nodes, are a chain: each replay and each run, with
/// whatever stops and schedule, adds its history to those before it, and its disks hold what the longer chain may leave. One
/// whose nodes weren't opened adds none, and its disks hold what the chain of before may leave.
pub fn calls_go_on<H: Shelf>()
    ensures { CallsGoOn H.D.state H.state }
{}
