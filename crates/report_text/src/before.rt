//! What the disks of a scenario's nodes held before a history.
ghost use Rattle.std.specs.Prelude.{◌≡◌, ◌<◌, ◌^◌, length, All, IfOk};
ghost use Rattle.scenario_form.specs.Contents.{IsResource};
ghost use Rattle.local_tables.specs.Rows.{IsOpening};
ghost use Rattle.report_text.specs.Following.{most_of, unused_from, unused_kept};

use history_text::Entry;
use resource_memory::Memory as ResourceMemory;
use scenario_form::{ResourceDef, Scenario};
use seata_types::{Duplicate, NoMemory};
use session_memory::Memory as SessionMemory;
use std::alloc::Global;

/// What the records say that the disks of the coordinator and of each resource held before a history, as an opening reads
/// them: no boot of the history's is among them.
#[derive(Drop)]
pub struct Before {
    pub sessions: SessionMemory,
    pub resources: Vec<ResourceMemory>,
}

impl Before {
    ghost use Rattle.std.specs.Prelude.{◌≡◌, ◌≤◌, ◌+◌, ◌^◌, true, false, length, IfOk};
    ghost use Rattle.scenario_form.specs.declared.scenarios.Scenario.{Scenario as ScenarioValue};
    ghost use Rattle.scenario_form.specs.Runnable.{IsRunnable};
    ghost use Rattle.history_rules.specs.Nodes.{Past, no_past};
    ghost use Rattle.report_text.specs.Following.{AreCounted, IsRead, most_acts};

    /// That of disks without records.
    pub fn none(alloc: Global, scenario: &Scenario) -> Result<Before, NoMemory>
        requires { IsRunnable scenario.now }
        ensures { IfOk result (λ before. IsRead scenario.now before no_past) }
    {
        let resources = unused(alloc, scenario.resources.as_slice())?;
        Ok(Before {
            sessions: SessionMemory::new(alloc),
            resources,
        })
    }

    /// Whether entries over it are so few that a report counts them, which does so in 32 bits for each node.
    pub fn counts(&self, history: &[Entry]) -> bool
        ensures counted { result ≡ true → (s : ScenarioValue) (past : Past) →
            IsRead s self.now past →
            AreCounted s past history.now }
        ensures full { result ≡ false → 2 ^ 32 ≤ most_acts self.now + length history.now + 1 }
    {
        let most = most_of(self.sessions.snapshot().acts, self.resources.as_slice());
        history.len() < (u32::MAX - most) as usize
    }
}

/// The most of this number and of those of the records of resources.
fn most_of(first: u32, resources: &[ResourceMemory]) -> u32
    ensures { result ≡ most_of first resources.now }
{
    let mut most = first;
    for resource in resources {
        most = most.max(resource.acts());
    }
    most
}

/// Resources without records, counted from 1.
fn unused(alloc: Global, defs: &[ResourceDef]) -> Result<Vec<ResourceMemory>, NoMemory>
    requires each { All IsResource defs.now }
    requires few { length defs.now < 2 ^ 16 }
    ensures { IfOk result (λ made. made.items ≡ unused_from 1 defs.now) }
{
    let mut made = Vec::new(alloc);
    for (k, def) in defs.iter().enumerate() {
        let resource = unused_resource(alloc, k as u16 + 1, def)?;
        made.push(resource)?;
    }
    Ok(made)
}

/// A resource without records.
fn unused_resource(
    alloc: Global,
    number: u16,
    def: &ResourceDef,
) -> Result<ResourceMemory, NoMemory>
    requires { IsOpening number def.now.schema def.now.opening }
    ensures { IfOk result (λ made. made ≡ unused_kept number def.now) }
{
    let schema = def.schema.copy(alloc)?;
    let opening = def.opening.copy(alloc)?;
    let made = ResourceMemory::new(alloc, number, schema, opening)?;
    Ok(made)
}
