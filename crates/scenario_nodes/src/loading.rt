//! The resources of a scenario: the disks of all are read, and then each writes its boot.
ghost use Rattle.std.specs.Prelude.{◌≡◌, ◌-◌, ◌+◌, ◌≤◌, [], ◌∷◌, Some, map, length, slice_get, vec_capacity, vec_len, IfOk, IfErr, OnErr, OnOk};
ghost use Rattle.std.specs.List.{AllByRecursion};
ghost use Rattle.std.specs.VecDeque.{deque_capacity, deque_len};
ghost use Rattle.disk_model.specs.Shelf.{KeepsOthers};
ghost use Rattle.scenario_form.specs.Contents.{IsBetween};
ghost use Rattle.scenario_form.specs.Runnable.{IsRunnable, resource_name};
ghost use Rattle.resource_core.specs.NodeOpening.{IsUp};
ghost use Rattle.scenario_nodes.specs.Shelves.{IsDiskName, ReturnsAll, second_name};
ghost use Rattle.scenario_nodes.specs.Together.{AreSecondNames, Takes, TakesOrReturns, numbered};
ghost use Rattle.scenario_nodes.specs.Nodes.{Held, IsLoadedResource, resource_server, resource_servers};
ghost use Rattle.scenario_nodes.specs.Opening.{IsNotLoaded, StopsLoading};
ghost use Rattle.scenario_nodes.specs.Loading.{AreLoaded, WriteBoots};

use crate::closings::close_loaded;
use crate::disks::{give_disks, take_disks};
use crate::setups::setup_of;
use disk_model::{Disk, Shelf};
use node_seat::{RunFault, open_fault};
use resource_core::{Loaded, Resource};
use scenario_form::{ResourceDef, Scenario};
use seata_types::{NoMemory, OpenError, Place};
use std::alloc::Global;
use std::collections::VecDeque;

/// Takes the two disks of a resource from the shelf, under its name and its second name, and reads them: it has a number,
/// counted from 1, and a definition. Where they can't be read they are given back.
fn load_resource<H: Shelf>(
    alloc: Global,
    scenario: &Scenario,
    shelf: &mut H,
    number: u16,
    def: &ResourceDef,
    second: &str,
) -> Result<Loaded<H::D>, RunFault>
    requires runnable { IsRunnable scenario.now }
    requires counted { IsBetween 1 (length scenario.now.resources) number }
    requires there { slice_get scenario.now.resources (number - 1) ≡ Some def.now }
    requires second { second.now ≡ second_name def.now.name }
    ensures loaded { IfOk result (IsLoadedResource H.D.state (H.state shelf.old)
        scenario.now number def.now) }
    ensures takes { OnOk result (Takes (def.now.name ∷ [])
        (H.state shelf.old) (H.state shelf.new)) }
    ensures refused { IfErr result (λ fault. (held : Held) →
        IsNotLoaded H.D.state scenario.now (H.state shelf.old) (H.state shelf.new)
        (resource_server scenario.now held (number, def.now)) fault) }
    ensures keeps { KeepsOthers (IsDiskName def.now.name) (H.state shelf.old) (H.state shelf.new) }
    ensures returned { OnErr result (ReturnsAll (H.state shelf.old) (H.state shelf.new)) }
{
    let setup = match setup_of(alloc, scenario, number, def) {
        Ok(setup) => setup,
        Err(NoMemory) => return Err(RunFault::NoMemory),
    };
    let place = Place::Res(number);
    let name = def.name.as_str();
    let (first, other) = match take_disks(alloc, shelf, place, name, second, scenario.disk) {
        Ok(disks) => disks,
        Err(fault) => {
            drop(setup);
            return Err(fault);
        }
    };
    match Resource::load(alloc, first, other, number, setup) {
        Ok(loaded) => Ok(loaded),
        Err((error, first, other)) => {
            give_disks(shelf, name, second, (first, other));
            Err(open_fault(place, error))
        }
    }
}

/// Loads the resources of a scenario one by one. Where one isn't loaded the disks of those before it are given back.
pub(crate) fn load_resources<H: Shelf>(
    alloc: Global,
    scenario: &Scenario,
    shelf: &mut H,
    seconds: &[String],
    mut loaded: VecDeque<Loaded<H::D>>,
) -> Result<VecDeque<Loaded<H::D>>, RunFault>
    requires runnable { IsRunnable scenario.now }
    requires seconds { AreSecondNames (map resource_name scenario.now.resources) seconds.now }
    requires none { loaded.items ≡ [] }
    requires room { length scenario.now.resources ≤ deque_capacity loaded }
    ensures loaded { IfOk result (λ loaded. AreLoaded H.D.state (H.state shelf.old)
        scenario.now (numbered 1 scenario.now.resources) loaded.items) }
    ensures refused { IfErr result (λ fault. (held : Held) →
        StopsLoading H.D.state scenario.now (resource_servers scenario.now held)
        (H.state shelf.old) (H.state shelf.new) fault) }
    ensures shelf { TakesOrReturns (map resource_name scenario.now.resources)
        (H.state shelf.old) (H.state shelf.new) result }
{
    let defs = scenario.resources.as_slice();
    for (k, def) in defs.iter().enumerate() {
        let second = seconds[k].as_str();
        match load_resource(alloc, scenario, shelf, k as u16 + 1, def, second) {
            Ok(one) => loaded.push_back_reserved(one),
            Err(fault) => {
                close_loaded(shelf, &defs[..k], &seconds[..k], loaded);
                return Err(fault);
            }
        }
    }
    Ok(loaded)
}

/// Lets each resource that was loaded write its boot, in their order, until one fails.
pub(crate) fn start_resources<D: Disk>(
    alloc: Global,
    loaded: &mut VecDeque<Loaded<D>>,
    started: &mut Vec<Resource<D>>,
) -> Result<(), (OpenError, D, D)>
    requires up { AllByRecursion IsUp loaded.old.items }
    requires none { started.old.items ≡ [] }
    requires room { deque_len loaded.old + vec_len started.old ≤ vec_capacity started.old }
    ensures { WriteBoots D.state loaded.old.items loaded.new.items started.new.items result }
{
    while let Some(one) = loaded.pop_front() {
        match one.start(alloc) {
            Ok(resource) => started.push_reserved(resource),
            Err(failed) => return Err(failed),
        }
    }
    Ok(())
}
