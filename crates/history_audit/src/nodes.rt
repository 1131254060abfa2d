//! What is kept of the nodes of a scenario.
ghost use Rattle.std.specs.Prelude.{◌≡◌, Some, [], List, IfOk};
ghost use Rattle.history_rules.specs.Nodes.{World};
ghost use Rattle.history_rules.specs.Histories.{Moment};
ghost use Rattle.judged_devices.specs.Taking.{event_of};
ghost use Rattle.seata_types.specs.declared.ids.Place.TheVariants as place;
ghost use Rattle.scenario_form.specs.Runnable.{IsRunnable};
ghost use Rattle.history_text.specs.Worlds.{setup_of, world_of};
ghost use Rattle.scenario_form.specs.Contents.{resource_numbered};
ghost use Rattle.judged_bench.specs.Following as bench;
ghost use Rattle.judged_bench.specs.Leaving.{ServesEvent};
ghost use Rattle.verdict_law.specs.Verdicts.{event_at};
ghost use Rattle.history_audit.specs.Nodes.{AreBenches, AreTalks, BenchesCan, TalksCan};
ghost use Rattle.history_audit.specs.Finding.{Finds, found_of};

use crate::kept::{Found, Nodes};
use history_text::Entry;
use judged_bench::Bench;
use judged_desk::Desk;
use judged_devices::{Event, given_in};
use judged_talk::Talk;
use scenario_form::{ResourceDef, Scenario};
use scenario_setups::put;
use seata_types::{Duplicate, NoMemory, Place, Step};
use std::alloc::Global;
use verdict_law::Rule;

// The step that a node does, if one may be done with the act of an entry.
fn found(step: Option<Step>) -> Found
    ensures { result ≡ found_of step }
{
    match step {
        Some(step) => Found::Does(step),
        None => Found::Breaks(Rule::Act),
    }
}

// The resource with a number, counted from 1, and a definition.
fn new_bench(
    alloc: Global,
    scenario: &Scenario,
    number: u16,
    def: &ResourceDef,
) -> Result<Bench, NoMemory>
    requires runnable { IsRunnable scenario.now }
    requires there { resource_numbered scenario.now.resources number ≡ Some def.now }
    ensures { IfOk result (bench.Follows (setup_of scenario.now number def.now) []) }
{
    let schema = def.schema.copy(alloc)?;
    let opening = def.opening.copy(alloc)?;
    let setup = scenario_setups::setup_of(alloc, scenario, number)?;
    Bench::new(alloc, setup, schema, opening)
}

// The resources of a scenario.
fn new_benches(alloc: Global, scenario: &Scenario) -> Result<Vec<Bench>, NoMemory>
    requires { IsRunnable scenario.now }
    ensures { IfOk result (λ benches. AreBenches (world_of scenario.now) benches.items []) }
{
    let mut benches = Vec::new(alloc);
    for (k, def) in scenario.resources.as_slice().iter().enumerate() {
        let bench = new_bench(alloc, scenario, k as u16 + 1, def)?;
        put(&mut benches, bench)?;
    }
    Ok(benches)
}

// Its managers.
fn new_talks(alloc: Global, scenario: &Scenario) -> Result<Vec<Talk>, NoMemory>
    requires { IsRunnable scenario.now }
    ensures { IfOk result (λ talks. AreTalks (world_of scenario.now) talks.items []) }
{
    let mut talks = Vec::new(alloc);
    for (k, def) in scenario.managers.as_slice().iter().enumerate() {
        let talk = Talk::new(alloc, scenario.lock_tries, k as u16 + 1, def)?;
        put(&mut talks, talk)?;
    }
    Ok(talks)
}

// What is found of an entry that brings this to a resource.
fn at_resource(
    alloc: Global,
    benches: &mut Vec<Bench>,
    number: u16,
    event: &Event,
    next: &Entry,
) -> Result<Found, NoMemory>
    requires can { BenchesCan benches.old.items }
    requires served { ServesEvent event.now }
    requires here { next.now.place ≡ place.Res number }
    ensures { IfOk result (λ found. (w : World) (ms : List Moment) →
        AreBenches w benches.old.items ms →
        event_at ms next.entry.now ≡ Some (event_of event.now) →
        Finds w ms next.entry.now (AreBenches w benches.new.items) found) }
{
    if number == 0 || number as usize > benches.len() {
        return Ok(Found::Breaks(Rule::Cause));
    }
    let step = benches[number as usize - 1].take(alloc, event, &next.act)?;
    Ok(found(step))
}

// What is found of an entry that brings this to a manager, which has no disk.
fn at_manager(
    alloc: Global,
    talks: &mut Vec<Talk>,
    number: u16,
    event: &Event,
    next: &Entry,
) -> Result<Found, NoMemory>
    requires can { TalksCan talks.old.items }
    requires here { next.now.place ≡ place.Man number }
    ensures { IfOk result (λ found. (w : World) (ms : List Moment) → AreTalks w talks.old.items ms →
        event_at ms next.entry.now ≡ Some (event_of event.now) →
        Finds w ms next.entry.now (AreTalks w talks.new.items) found) }
{
    let Some(input) = given_in(false, event) else {
        return Ok(Found::Breaks(Rule::Cause));
    };
    if number == 0 || number as usize > talks.len() {
        return Ok(Found::Breaks(Rule::Cause));
    }
    let step = talks[number as usize - 1].take(alloc, input, &next.act)?;
    Ok(found(step))
}

impl Nodes {
    ghost use Rattle.std.specs.Prelude.{◌≡◌, Some, [], List, IfOk};
    ghost use Rattle.scenario_form.specs.Runnable.{IsRunnable};
    ghost use Rattle.history_rules.specs.Nodes.{World};
    ghost use Rattle.history_rules.specs.Histories.{Moment};
    ghost use Rattle.history_text.specs.Worlds.{world_of};
    ghost use Rattle.judged_devices.specs.Taking.{event_of};
    ghost use Rattle.judged_bench.specs.Leaving.{ServesEvent};
    ghost use Rattle.verdict_law.specs.Verdicts.{event_at};
    ghost use Rattle.history_audit.specs.Nodes.{AreNodes, NodesCan};
    ghost use Rattle.history_audit.specs.Finding.{Finds};

    /// The nodes of a scenario without entries.
    pub(crate) fn new(alloc: Global, scenario: &Scenario) -> Result<Nodes, NoMemory>
        requires { IsRunnable scenario.now }
        ensures { IfOk result (λ nodes. AreNodes (world_of scenario.now) nodes []) }
    {
        let benches = new_benches(alloc, scenario)?;
        let talks = new_talks(alloc, scenario)?;
        let desk = Desk::new(alloc, scenario.retry, scenario.forget);
        Ok(Nodes {
            desk,
            benches,
            talks,
        })
    }

    /// What is found of an entry that brings this to its place.
    pub(crate) fn take(
        &mut self,
        alloc: Global,
        event: &Event,
        next: &Entry,
    ) -> Result<Found, NoMemory>
        requires can { NodesCan self.old }
        requires served { ServesEvent event.now }
        ensures { IfOk result (λ found. (w : World) (ms : List Moment) → AreNodes w self.old ms →
            event_at ms next.entry.now ≡ Some (event_of event.now) →
            Finds w ms next.entry.now (AreNodes w self.new) found) }
    {
        match next.place {
            Place::Tc => {
                let step = self.desk.take(alloc, event, next.now, &next.act)?;
                Ok(found(step))
            }
            Place::Res(number) => at_resource(alloc, &mut self.benches, number, event, next),
            Place::Man(number) => at_manager(alloc, &mut self.talks, number, event, next),
            Place::Net => Ok(Found::Breaks(Rule::Cause)),
        }
    }
}
