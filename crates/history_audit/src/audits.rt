//! The verdict on entries.
ghost use Rattle.std.specs.Prelude.{IfOk};
ghost use Rattle.scenario_form.specs.Runnable.{IsRunnable};
ghost use Rattle.history_rules.specs.Nodes.{no_past};
ghost use Rattle.history_text.specs.Worlds.{world_of};
ghost use Rattle.verdict_law.specs.Verdicts.{IsVerdict};

use crate::kept::Judge;
use history_text::Entry;
use judged_devices::limits::OWN_ENTRIES;
use scenario_form::Scenario;
use seata_types::NoMemory;
use std::alloc::Global;
use verdict_law::Rule;

/// Judges entries, on disks without records: none where they are those of a legal history, else the number of the first entry that
/// breaks a rule after those before it, counted from 1, and the first rule that it breaks. Of entries beyond 2^31, which nothing
/// prints, want of memory is answered.
pub fn audit(
    alloc: Global,
    scenario: &Scenario,
    entries: &[Entry],
) -> Result<Option<(usize, Rule)>, NoMemory>
    requires runnable { IsRunnable scenario.now }
    ensures { IfOk result (IsVerdict (world_of scenario.now) no_past entries.now) }
{
    if entries.len() > OWN_ENTRIES as usize {
        return Err(NoMemory);
    }
    let mut judge = Judge::new(alloc, scenario)?;
    let verdict = judge.judge_all(alloc, entries);
    drop(judge);
    verdict
}
