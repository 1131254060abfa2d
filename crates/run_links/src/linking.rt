//! The links of a run, made one after the other.
ghost use Rattle.std.specs.Prelude.{◌≡◌, ◌≤◌, All, length, IfOk, OnOk};
ghost use Rattle.std.specs.List.{AllByRecursion};
ghost use Rattle.seata_types.specs.declared.limits.TheConstants.{MANAGERS, RESOURCES};
ghost use Rattle.scenario_form.specs.Contents.{IsBetween};
ghost use Rattle.scenario_form.specs.Runnable.{IsRunnable};
ghost use Rattle.run_links.specs.Linked.{AreLinks, AreLinksOf, HasCallsAmong, HaveMade, IsCallAmong, IsUnlinked};
ghost use Rattle.run_links.specs.Routes as routes;

use crate::joining::{join, put};
use crate::links::{NodeLinks, RunLinks};
use scenario_form::{ManagerDef, Scenario};
use seata_types::{NoMemory, Place, Work};
use std::alloc::Global;

/// A node without links.
fn unlinked(alloc: Global) -> NodeLinks
    ensures { IsUnlinked result }
{
    NodeLinks {
        takers: Vec::new(alloc),
        senders: Vec::new(alloc),
    }
}

/// So many nodes without links.
fn unlinked_nodes(alloc: Global, count: usize) -> Result<Vec<NodeLinks>, NoMemory>
    ensures count { IfOk result (λ nodes. length nodes.items ≡ count) }
    ensures none { IfOk result (λ nodes. AllByRecursion IsUnlinked nodes.items) }
{
    let mut nodes = Vec::new(alloc);
    for _ in 0..count {
        put(&mut nodes, unlinked(alloc))?;
    }
    Ok(nodes)
}

/// Links the coordinator with each resource.
fn link_resources(alloc: Global, links: &mut RunLinks) -> Result<(), NoMemory>
    requires few { length links.old.resources.items ≤ RESOURCES }
    requires links { AreLinks links.old }
    ensures { OnOk result
        (HaveMade (routes.resource_routes (length links.old.resources.items)) links.old links.new) }
{
    for k in 0..links.resources.len() {
        let resource = &mut links.resources[k];
        let there = Place::Res(k as u16 + 1);
        join(alloc, &mut links.coordinator, resource, Place::Tc, there)?;
    }
    Ok(())
}

/// Links a manager with the resources of its calls.
fn link_calls(
    alloc: Global,
    links: &mut RunLinks,
    number: u16,
    calls: &[(u16, Work)],
) -> Result<(), NoMemory>
    requires counted { IsBetween 1 (length links.old.managers.items) number }
    requires calls { All (IsCallAmong (length links.old.resources.items)) calls.now }
    requires links { AreLinks links.old }
    ensures { OnOk result (HaveMade (routes.call_routes number calls.now) links.old links.new) }
{
    let here = Place::Man(number);
    for (at, _) in calls {
        let manager = &mut links.managers[number as usize - 1];
        let resource = &mut links.resources[*at as usize - 1];
        join(alloc, manager, resource, here, Place::Res(*at))?;
    }
    Ok(())
}

/// Links a manager with the coordinator, and with the resources of its calls.
fn link_manager(
    alloc: Global,
    links: &mut RunLinks,
    number: u16,
    calls: &[(u16, Work)],
) -> Result<(), NoMemory>
    requires counted { IsBetween 1 (length links.old.managers.items) number }
    requires calls { All (IsCallAmong (length links.old.resources.items)) calls.now }
    requires links { AreLinks links.old }
    ensures { OnOk result (HaveMade (routes.routes_by number calls.now) links.old links.new) }
{
    let there = Place::Man(number);
    let manager = &mut links.managers[number as usize - 1];
    join(alloc, &mut links.coordinator, manager, Place::Tc, there)?;
    link_calls(alloc, links, number, calls)?;
    Ok(())
}

/// Links each manager so.
fn link_managers(alloc: Global, links: &mut RunLinks, defs: &[ManagerDef]) -> Result<(), NoMemory>
    requires few { length defs.now ≤ MANAGERS }
    requires count { length links.old.managers.items ≡ length defs.now }
    requires calls { All (HasCallsAmong (length links.old.resources.items)) defs.now }
    requires links { AreLinks links.old }
    ensures { OnOk result (HaveMade (routes.manager_routes 1 defs.now) links.old links.new) }
{
    for (k, def) in defs.iter().enumerate() {
        link_manager(alloc, links, k as u16 + 1, def.calls.as_slice())?;
    }
    Ok(())
}

/// The links of a run of a scenario, each of them new: the coordinator with each resource and each manager, and a manager with
/// each resource that one of its calls is at. Want of memory is the only error.
pub fn link_nodes(alloc: Global, scenario: &Scenario) -> Result<RunLinks, NoMemory>
    requires { IsRunnable scenario.now }
    ensures { IfOk result (AreLinksOf scenario.now) }
{
    let coordinator = unlinked(alloc);
    let resources = unlinked_nodes(alloc, scenario.resources.as_slice().len())?;
    let managers = unlinked_nodes(alloc, scenario.managers.as_slice().len())?;
    let mut links = RunLinks {
        coordinator,
        resources,
        managers,
    };
    link_resources(alloc, &mut links)?;
    link_managers(alloc, &mut links, scenario.managers.as_slice())?;
    Ok(links)
}
