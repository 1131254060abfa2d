//! The texts of a schedule.
ghost use Rattle.std.specs.Prelude.{◌≡◌, ◌≤◌, ◌+◌, [], List as Items, option_map, option_copied, length, IfOk};
ghost use Rattle.seata_types.specs.declared.limits.TheConstants.{LOCALS, MANAGERS, RESOURCES, SCHEDULE_MEMBERS, STEPS};
ghost use Rattle.serde_json.specs.View.{view, items_view};
ghost use Rattle.scenario_form.specs.Runnable as plan;
ghost use Rattle.scenario_reader.specs.Steps as form;
ghost use Rattle.scenario_reader.specs.Faults.{Answers, AnswersAs, each, vec_of};

use crate::errors::ScenarioError;
use crate::names::is_word;
use crate::nodes::{node, server};
use crate::numbers::{is_plain, number_of_text, plain_number};
use crate::shapes::{list, text_in};
use disk_model::LAST_PICK;
use scenario_form::{ManagerDef, ResourceDef, ScheduleItem};
use seata_types::List;
use seata_types::limits::{SCHEDULE_MEMBERS, STEPS, STOP_CALLS, TICKS};
use serde_json::Value;
use std::alloc::Global;

/// What stands before the first space of a text, and behind it; without a space, all of it and nothing.
fn cut(text: &str) -> (&str, &str)
    ensures front { result.0.now ≡ form.front text.now }
    ensures behind { result.1.now ≡ form.behind text.now }
{
    text.split_once(' ').unwrap_or((text, ""))
}

fn has_space(text: &str) -> bool
    ensures { result ≡ form.has_space text.now }
{
    text.as_bytes().iter().any(|byte| *byte == b' ')
}

#[tactic(auto, unfolding(crate::specs::Steps::turn))]
fn turn(
    alloc: Global,
    resources: &[ResourceDef],
    managers: &[ManagerDef],
    rest: &str,
) -> Result<ScheduleItem, ScenarioError>
    requires resources { length resources.now ≤ RESOURCES }
    requires managers { length managers.now ≤ MANAGERS }
    ensures { Answers (form.turn resources.now managers.now rest.now) result }
{
    if !is_word(rest) {
        return Err(ScenarioError::shape(alloc));
    }
    let place = node(alloc, resources, managers, rest)?;
    Ok(ScheduleItem::Turn { place })
}

#[tactic(auto, unfolding(crate::specs::Steps::deliver))]
fn deliver(alloc: Global, rest: &str) -> Result<ScheduleItem, ScenarioError>
    ensures { Answers (form.deliver rest.now) result }
{
    if !is_plain(rest) {
        return Err(ScenarioError::shape(alloc));
    }
    let stamp = plain_number(alloc, 1, STEPS as u64, rest)? as u32;
    Ok(ScheduleItem::Deliver { stamp })
}

#[tactic(auto, unfolding(crate::specs::Steps::wait))]
fn wait(alloc: Global, rest: &str) -> Result<ScheduleItem, ScenarioError>
    ensures { Answers (form.wait rest.now) result }
{
    if !is_plain(rest) {
        return Err(ScenarioError::shape(alloc));
    }
    let ticks = plain_number(alloc, 1, TICKS, rest)?;
    Ok(ScheduleItem::Wait { ticks })
}

#[tactic(auto, unfolding(crate::specs::Steps::auto))]
fn auto(alloc: Global, rest: &str) -> Result<ScheduleItem, ScenarioError>
    ensures exact { Answers (form.auto rest.now) result }
{
    if !is_plain(rest) {
        return Err(ScenarioError::shape(alloc));
    }
    let steps = plain_number(alloc, 1, STEPS as u64, rest)? as u32;
    Ok(ScheduleItem::Auto { steps })
}

#[tactic(auto, unfolding(crate::specs::Steps::stop))]
fn stop(alloc: Global, resources: &[ResourceDef], rest: &str) -> Result<ScheduleItem, ScenarioError>
    requires { length resources.now ≤ RESOURCES }
    ensures { Answers (form.stop resources.now rest.now) result }
{
    let (name, number) = cut(rest);
    if !is_word(name) || !is_plain(number) {
        return Err(ScenarioError::shape(alloc));
    }
    let place = server(alloc, resources, name)?;
    let calls = plain_number(alloc, 0, STOP_CALLS as u64, number)? as u32;
    Ok(ScheduleItem::Stop { place, calls })
}

#[tactic(auto, unfolding(crate::specs::Steps::crash))]
fn crash(
    alloc: Global,
    resources: &[ResourceDef],
    rest: &str,
) -> Result<ScheduleItem, ScenarioError>
    requires { length resources.now ≤ RESOURCES }
    ensures { Answers (form.crash resources.now rest.now) result }
{
    if !is_word(rest) {
        return Err(ScenarioError::shape(alloc));
    }
    let place = server(alloc, resources, rest)?;
    Ok(ScheduleItem::Crash { place })
}

/// A restart whose disks fail after some calls, by what follows the node's name.
#[tactic(auto, unfolding(crate::specs::Steps::armed_restart))]
fn armed_restart(
    alloc: Global,
    resources: &[ResourceDef],
    name: &str,
    more: &str,
) -> Result<ScheduleItem, ScenarioError>
    requires { length resources.now ≤ RESOURCES }
    ensures { Answers (form.armed_restart resources.now name.now more.now) result }
{
    let (picked, number) = cut(more);
    if !is_word(name) || !is_plain(picked) || !is_plain(number) {
        return Err(ScenarioError::shape(alloc));
    }
    let place = server(alloc, resources, name)?;
    let pick = plain_number(alloc, 0, LAST_PICK as u64, picked)? as u16;
    let calls = plain_number(alloc, 0, STOP_CALLS as u64, number)? as u32;
    Ok(ScheduleItem::Restart {
        place,
        pick,
        calls: Some(calls),
    })
}

#[tactic(auto, unfolding(crate::specs::Steps::plain_restart))]
fn plain_restart(
    alloc: Global,
    resources: &[ResourceDef],
    name: &str,
    more: &str,
) -> Result<ScheduleItem, ScenarioError>
    requires { length resources.now ≤ RESOURCES }
    ensures { Answers (form.plain_restart resources.now name.now more.now) result }
{
    if !is_word(name) || !is_plain(more) {
        return Err(ScenarioError::shape(alloc));
    }
    let place = server(alloc, resources, name)?;
    let pick = plain_number(alloc, 0, LAST_PICK as u64, more)? as u16;
    Ok(ScheduleItem::Restart {
        place,
        pick,
        calls: None,
    })
}

#[tactic(auto, unfolding(crate::specs::Steps::restart))]
fn restart(
    alloc: Global,
    resources: &[ResourceDef],
    rest: &str,
) -> Result<ScheduleItem, ScenarioError>
    requires { length resources.now ≤ RESOURCES }
    ensures { Answers (form.restart resources.now rest.now) result }
{
    let (name, more) = cut(rest);
    if has_space(more) {
        return armed_restart(alloc, resources, name, more);
    }
    plain_restart(alloc, resources, name, more)
}

/// The number of one of so many locals, counted from 1.
#[tactic(auto, unfolding(crate::specs::Steps::local_number))]
fn local_number(alloc: Global, count: usize, rest: &str) -> Result<u16, ScenarioError>
    requires { count ≤ MANAGERS }
    ensures { Answers (form.local_number count rest.now) result }
{
    if !is_plain(rest) {
        return Err(ScenarioError::shape(alloc));
    }
    let number = number_of_text(rest.as_bytes());
    if number < 1 {
        return Err(ScenarioError::name(alloc));
    }
    if number > count as u64 {
        return Err(ScenarioError::name(alloc));
    }
    Ok(number as u16)
}

/// A step of this word, by what follows it.
#[tactic(auto, unfolding(crate::specs::Steps::step_of))]
fn step_of(
    alloc: Global,
    resources: &[ResourceDef],
    managers: &[ManagerDef],
    locals: usize,
    word: &str,
    rest: &str,
) -> Result<ScheduleItem, ScenarioError>
    requires resources { length resources.now ≤ RESOURCES }
    requires managers { length managers.now ≤ MANAGERS }
    requires locals { locals ≤ LOCALS }
    ensures { Answers (form.step_of resources.now managers.now locals word.now rest.now) result }
{
    match word {
        "turn" => turn(alloc, resources, managers, rest),
        "deliver" => deliver(alloc, rest),
        "wait" => wait(alloc, rest),
        "stop" => stop(alloc, resources, rest),
        "crash" => crash(alloc, resources, rest),
        "restart" => restart(alloc, resources, rest),
        "auto" => auto(alloc, rest),
        "local" => {
            let number = local_number(alloc, locals, rest)?;
            Ok(ScheduleItem::Local { number })
        }
        "outside" => {
            let number = local_number(alloc, locals, rest)?;
            Ok(ScheduleItem::Outside { number })
        }
        _ => Err(ScenarioError::shape(alloc)),
    }
}

/// A step of the schedule.
#[tactic(auto, unfolding(crate::specs::Steps::item_of))]
fn item_of(
    alloc: Global,
    resources: &[ResourceDef],
    managers: &[ManagerDef],
    locals: usize,
    value: &Value,
) -> Result<ScheduleItem, ScenarioError>
    requires resources { length resources.now ≤ RESOURCES }
    requires managers { length managers.now ≤ MANAGERS }
    requires locals { locals ≤ LOCALS }
    ensures { Answers (form.item_of resources.now managers.now locals (view value.now)) result }
{
    let text = text_in(alloc, value)?;
    let (word, rest) = cut(text);
    step_of(alloc, resources, managers, locals, word, rest)
}

/// The single steps that an item stands for.
fn steps_of(item: ScheduleItem) -> usize
    ensures { result ≡ plan.steps_of item }
{
    match item {
        ScheduleItem::Auto { steps } => steps as usize,
        _ => 1,
    }
}

/// A step of the schedule, behind so many single steps.
#[tactic(auto, using(crate::proofs::Counted::item_fits, crate::proofs::Counted::item_is_beyond), unfolding(crate::specs::Steps::next_item))]
fn next_item(
    alloc: Global,
    resources: &[ResourceDef],
    managers: &[ManagerDef],
    locals: usize,
    steps: usize,
    value: &Value,
) -> Result<ScheduleItem, ScenarioError>
    requires resources { length resources.now ≤ RESOURCES }
    requires managers { length managers.now ≤ MANAGERS }
    requires locals { locals ≤ LOCALS }
    requires steps { steps ≤ STEPS }
    ensures exact { (items : Items ScheduleItem) → steps ≡ plan.all_steps items → Answers (form.next_item resources.now managers.now locals items (view value.now)) result }
    ensures few { IfOk result (λ item. steps + plan.steps_of item ≤ STEPS) }
{
    let item = item_of(alloc, resources, managers, locals, value)?;
    if steps_of(item) > STEPS - steps {
        return Err(ScenarioError::beyond(alloc, STEPS as u64));
    }
    Ok(item)
}

#[tactic(auto, using(crate::proofs::Counted::all_steps_push))]
fn each_item(
    alloc: Global,
    resources: &[ResourceDef],
    managers: &[ManagerDef],
    locals: usize,
    values: &[Value],
) -> Result<Vec<ScheduleItem>, ScenarioError>
    requires resources { length resources.now ≤ RESOURCES }
    requires managers { length managers.now ≤ MANAGERS }
    requires locals { locals ≤ LOCALS }
    ensures exact { AnswersAs vec_of (each (form.next_item resources.now managers.now locals) [] (items_view values.now)) result }
    ensures short { IfOk result (λ items. plan.all_steps items.items ≤ STEPS) }
    ensures whole { IfOk result (λ items. length items.items ≡ length values.now) }
{
    let mut items = Vec::new(alloc);
    let mut steps = 0;
    for value in values {
        let item = match next_item(alloc, resources, managers, locals, steps, value) {
            Ok(item) => item,
            Err(fault) => return Err(fault.in_item(alloc, items.len())),
        };
        steps += steps_of(item);
        items.push(item)?;
    }
    Ok(items)
}

/// The schedule, of so many single steps at the most.
#[tactic(auto, unfolding(crate::specs::Steps::schedule))]
pub fn schedule(
    alloc: Global,
    resources: &[ResourceDef],
    managers: &[ManagerDef],
    locals: usize,
    found: Option<&Value>,
) -> Result<List<ScheduleItem>, ScenarioError>
    requires resources { length resources.now ≤ RESOURCES }
    requires managers { length managers.now ≤ MANAGERS }
    requires locals { locals ≤ LOCALS }
    ensures exact { Answers (form.schedule resources.now managers.now locals (option_map view (option_copied found.entry))) result }
    ensures few { IfOk result (λ items. plan.all_steps items ≤ STEPS) }
    ensures short { IfOk result (λ items. length items ≤ SCHEDULE_MEMBERS) }
{
    let values = list(alloc, SCHEDULE_MEMBERS, found)?;
    let items = each_item(alloc, resources, managers, locals, values)?;
    Ok(List::of(items))
}
