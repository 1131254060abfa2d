//! The disks of the nodes of a scenario, given back together.
ghost use Rattle.std.specs.Prelude.{◌≡◌, ◌+◌, ◌++◌, ◌∷◌, map, length};
ghost use Rattle.disk_model.specs.Shelf.{KeepsOthers, SamePlaces};
ghost use Rattle.scenario_form.specs.Runnable.{IsRunnable, resource_name};
ghost use Rattle.resource_core.specs.NodeOpening.{loaded_disks};
ghost use Rattle.scenario_nodes.specs.Nodes.{resource_disks, server_disks, server_names};
ghost use Rattle.scenario_nodes.specs.Shelves.{AreGivenBack, HasBoth, IsDiskName, ReturnsAll, second_name};
ghost use Rattle.scenario_nodes.specs.Together.{AreApart, AreSecondNames, GivesBack, HaveBoth};

use crate::coordinators::close_coordinator;
use crate::disks::give_disks;
use crate::servers::Servers;
use disk_model::Shelf;
use resource_core::{Loaded, Resource};
use scenario_form::{ResourceDef, Scenario};
use std::collections::VecDeque;

/// Gives back the disks of resources that were loaded, one for each definition.
pub(crate) fn close_loaded<H: Shelf>(
    shelf: &mut H,
    defs: &[ResourceDef],
    seconds: &[String],
    mut loaded: VecDeque<Loaded<H::D>>,
)
    requires seconds { AreSecondNames (map resource_name defs.now) seconds.now }
    requires apart { AreApart (map resource_name defs.now) }
    requires whole { length loaded.items ≡ length defs.now }
    requires taken { HaveBoth (H.state shelf.old) (map resource_name defs.now) }
    ensures { GivesBack (map resource_name defs.now) (map loaded_disks loaded.items)
        (H.state shelf.old) (H.state shelf.new) }
{
    for (k, def) in defs.iter().enumerate() {
        if let Some(one) = loaded.pop_front() {
            give_disks(
                shelf,
                def.name.as_str(),
                seconds[k].as_str(),
                one.into_disks(),
            );
        }
    }
}

/// Gives the two disks of a resource back, under its name and its second name.
fn close_resource<H: Shelf>(shelf: &mut H, name: &str, second: &str, resource: Resource<H::D>)
    requires second { second.now ≡ second_name name.now }
    requires both { HasBoth (H.state shelf.old) name.now }
    ensures back { AreGivenBack (H.state shelf.old) (H.state shelf.new)
        name.now (resource_disks resource) }
    ensures keeps { KeepsOthers (IsDiskName name.now) (H.state shelf.old) (H.state shelf.new) }
    ensures places { SamePlaces (H.state shelf.old) (H.state shelf.new) }
    ensures returned { ReturnsAll (H.state shelf.old) (H.state shelf.new) }
{
    give_disks(shelf, name, second, resource.into_disks());
}

/// Gives back the disks of resources, one for each definition.
pub(crate) fn close_resources<H: Shelf>(
    shelf: &mut H,
    defs: &[ResourceDef],
    seconds: &[String],
    resources: Vec<Resource<H::D>>,
)
    requires seconds { AreSecondNames (map resource_name defs.now) seconds.now }
    requires apart { AreApart (map resource_name defs.now) }
    requires whole { length resources.items ≡ length defs.now }
    requires taken { HaveBoth (H.state shelf.old) (map resource_name defs.now) }
    ensures { GivesBack (map resource_name defs.now) (map resource_disks resources.items)
        (H.state shelf.old) (H.state shelf.new) }
{
    for (k, resource) in resources.into_iter().enumerate() {
        close_resource(shelf, defs[k].name.as_str(), seconds[k].as_str(), resource);
    }
}

/// Gives back the disks of the first resources, which wrote their boots, those of the next one, and those of the others, which
/// were loaded.
pub(crate) fn close_all<H: Shelf>(
    shelf: &mut H,
    defs: &[ResourceDef],
    seconds: &[String],
    started: Vec<Resource<H::D>>,
    disks: (H::D, H::D),
    loaded: VecDeque<Loaded<H::D>>,
)
    requires seconds { AreSecondNames (map resource_name defs.now) seconds.now }
    requires apart { AreApart (map resource_name defs.now) }
    requires whole { length started.items + 1 + length loaded.items ≡ length defs.now }
    requires taken { HaveBoth (H.state shelf.old) (map resource_name defs.now) }
    ensures { GivesBack (map resource_name defs.now)
        (map resource_disks started.items ++ disks ∷ map loaded_disks loaded.items)
        (H.state shelf.old) (H.state shelf.new) }
{
    let count = started.len();
    close_resources(shelf, &defs[..count], &seconds[..count], started);
    give_disks(
        shelf,
        defs[count].name.as_str(),
        seconds[count].as_str(),
        disks,
    );
    close_loaded(shelf, &defs[count + 1..], &seconds[count + 1..], loaded);
}

/// Gives back the disks of all nodes of a scenario. These are the names of the second disks of its resources.
pub fn close_servers<H: Shelf>(
    shelf: &mut H,
    scenario: &Scenario,
    seconds: &[String],
    servers: Servers<H::D>,
)
    requires runnable { IsRunnable scenario.now }
    requires seconds { AreSecondNames (map resource_name scenario.now.resources) seconds.now }
    requires whole { length servers.resources.items ≡ length scenario.now.resources }
    requires taken { HaveBoth (H.state shelf.old) (server_names scenario.now) }
    ensures { GivesBack (server_names scenario.now) (server_disks servers)
        (H.state shelf.old) (H.state shelf.new) }
{
    let Servers {
        coordinator,
        resources,
    } = servers;
    close_coordinator(shelf, coordinator);
    close_resources(shelf, scenario.resources.as_slice(), seconds, resources);
}
