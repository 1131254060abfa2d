//! What the disks of a scenario's nodes hold: they are read, node by node, and given back as they were.
ghost use Rattle.std.specs.Prelude.{◌≡◌, ◌-◌, ◌≤◌, [], Some, All, map, length, slice_get, vec_capacity};
ghost use Rattle.disk_model.specs.Disk.{IsSettled};
ghost use Rattle.seata_types.specs.declared.ids.Place.TheVariants as place;
ghost use Rattle.scenario_form.specs.Runnable.{IsRunnable, resource_name};
ghost use Rattle.scenario_nodes.specs.Calls.{HasTypes};
ghost use Rattle.scenario_nodes.specs.Shelves.{coordinator_name};
ghost use Rattle.scenario_nodes.specs.Shelves.{second_name as name_of_second};
ghost use Rattle.scenario_nodes.specs.Nodes.{coordinator_server, resource_server};
ghost use Rattle.scenario_nodes.specs.Reading.{ReadsCoordinator, ReadsResource, ReadsResources, ReadsServers, ReadsTwo, SaysResource, SaysSessions, told_at};
ghost use Rattle.scenario_nodes.specs.Together.{AreSecondNames};

use crate::disks::{FIRST_DISK, SECOND_DISK, give_disks, take_disks};
use crate::openings::second_names;
use crate::types::tell_rows;
use disk_model::{Disk, Shelf};
use node_seat::{RunFault, open_fault};
use resource_memory::Memory as ResourceMemory;
use resource_store::Store;
use scenario_form::{ResourceDef, Scenario};
use seata_types::{Duplicate, OpenError, Place};
use session_memory::Memory as SessionMemory;
use session_store::Sessions;
use std::alloc::Global;

/// What the records say that the disks of the nodes hold: the coordinator's, and those of the resources in their order. No boot of
/// an opening is among them.
#[derive(Drop)]
pub struct Memories {
    pub sessions: SessionMemory,
    pub resources: Vec<ResourceMemory>,
}

/// Reads the two disks of the coordinator, which come back.
fn read_sessions<D: Disk>(
    alloc: Global,
    scenario: &Scenario,
    first: D,
    second: D,
) -> (Result<SessionMemory, OpenError>, D, D)
    requires runnable { IsRunnable scenario.now }
    requires first { IsSettled (D.state first) }
    requires second { IsSettled (D.state second) }
    ensures { ReadsTwo D.state scenario.now (coordinator_server scenario.now) SaysSessions
        place.Tc first second result }
{
    let read = Sessions::read(
        alloc,
        first,
        second,
        scenario.managers.as_slice().len() as u16,
        scenario.resources.as_slice().len() as u16,
    );
    match read {
        Ok(sessions) => {
            let (memory, first, second) = sessions.into_parts();
            (Ok(memory), first, second)
        }
        Err((error, first, second)) => (Err(error), first, second),
    }
}

/// Reads the two disks of the resource with a number, counted from 1, and a definition. They come back.
fn read_store<D: Disk>(
    alloc: Global,
    scenario: &Scenario,
    number: u16,
    def: &ResourceDef,
    first: D,
    second: D,
) -> (Result<ResourceMemory, OpenError>, D, D)
    requires runnable { IsRunnable scenario.now }
    requires there { slice_get scenario.now.resources (number - 1) ≡ Some def.now }
    requires typed { All HasTypes def.now.opening }
    requires first { IsSettled (D.state first) }
    requires second { IsSettled (D.state second) }
    ensures { ReadsTwo D.state scenario.now
        (λ held. resource_server scenario.now held (number, def.now))
        (SaysResource scenario.now (number, def.now)) (place.Res number) first second result }
{
    let Ok(schema) = def.schema.copy(alloc) else {
        return (Err(OpenError::NoMemory), first, second);
    };
    let Ok(opening) = def.opening.copy(alloc) else {
        drop(schema);
        return (Err(OpenError::NoMemory), first, second);
    };
    match Store::read(alloc, first, second, number, schema, opening) {
        Ok(store) => {
            let (memory, first, second) = store.into_parts();
            (Ok(memory), first, second)
        }
        Err((error, first, second)) => (Err(error), first, second),
    }
}

/// What was read, or the fault of the node at a place.
fn told<K>(place: Place, read: Result<K, OpenError>) -> Result<K, RunFault>
    ensures { result ≡ told_at place read }
{
    match read {
        Ok(memory) => Ok(memory),
        Err(error) => Err(open_fault(place, error)),
    }
}

/// Takes the coordinator's two disks from the shelf, reads them, and gives them back.
fn read_coordinator<H: Shelf>(
    alloc: Global,
    scenario: &Scenario,
    shelf: &mut H,
) -> Result<SessionMemory, RunFault>
    requires { IsRunnable scenario.now }
    ensures { ReadsCoordinator H.D.state scenario.now coordinator_name
        (H.state shelf.old) (H.state shelf.new) result }
{
    let (first, second) = match take_disks(
        alloc,
        shelf,
        Place::Tc,
        FIRST_DISK,
        SECOND_DISK,
        scenario.disk,
    ) {
        Ok(disks) => disks,
        Err(fault) => return Err(fault),
    };
    let (read, first, second) = read_sessions(alloc, scenario, first, second);
    give_disks(shelf, FIRST_DISK, SECOND_DISK, (first, second));
    told(Place::Tc, read)
}

/// Takes the two disks of a resource from the shelf, under its name and its second name, reads them, and gives them back.
fn read_resource<H: Shelf>(
    alloc: Global,
    scenario: &Scenario,
    shelf: &mut H,
    number: u16,
    def: &ResourceDef,
    second: &str,
) -> Result<ResourceMemory, RunFault>
    requires runnable { IsRunnable scenario.now }
    requires there { slice_get scenario.now.resources (number - 1) ≡ Some def.now }
    requires second { second.now ≡ name_of_second def.now.name }
    ensures { ReadsResource H.D.state scenario.now (number, def.now)
        (H.state shelf.old) (H.state shelf.new) result }
{
    tell_rows(def.opening.as_slice());
    let place = Place::Res(number);
    let name = def.name.as_str();
    let (one, two) = match take_disks(alloc, shelf, place, name, second, scenario.disk) {
        Ok(disks) => disks,
        Err(fault) => return Err(fault),
    };
    let (read, one, two) = read_store(alloc, scenario, number, def, one, two);
    give_disks(shelf, name, second, (one, two));
    told(place, read)
}

/// Reads the disks of the resources of a scenario, with this room for what they hold.
fn read_resources<H: Shelf>(
    alloc: Global,
    scenario: &Scenario,
    shelf: &mut H,
    seconds: &[String],
    mut read: Vec<ResourceMemory>,
) -> Result<Vec<ResourceMemory>, RunFault>
    requires runnable { IsRunnable scenario.now }
    requires seconds { AreSecondNames (map resource_name scenario.now.resources) seconds.now }
    requires none { read.items ≡ [] }
    requires room { length scenario.now.resources ≤ vec_capacity read }
    ensures { ReadsResources H.D.state scenario.now
        (H.state shelf.old) (H.state shelf.new) result }
{
    let defs = scenario.resources.as_slice();
    for (k, def) in defs.iter().enumerate() {
        let second = seconds[k].as_str();
        match read_resource(alloc, scenario, shelf, k as u16 + 1, def, second) {
            Ok(memory) => read.push_reserved(memory),
            Err(fault) => return Err(fault),
        }
    }
    Ok(read)
}

/// Reads what the disks of the nodes of a scenario hold: the two of each node are taken, read and given back, the coordinator's
/// first. No byte is changed. `Store` comes only by a fault that the shelf or a disk of the node counted, `Damaged` only where the
/// bytes of a disk are.
pub fn read_servers<H: Shelf>(
    alloc: Global,
    scenario: &Scenario,
    shelf: &mut H,
) -> Result<Memories, RunFault>
    requires { IsRunnable scenario.now }
    ensures { ReadsServers H.D.state scenario.now (H.state shelf.old) (H.state shelf.new) result }
{
    let defs = scenario.resources.as_slice();
    let Ok(seconds) = second_names(alloc, defs) else {
        return Err(RunFault::NoMemory);
    };
    let Ok(room) = Vec::with_capacity(alloc, defs.len()) else {
        return Err(RunFault::NoMemory);
    };
    let sessions = match read_coordinator(alloc, scenario, shelf) {
        Ok(sessions) => sessions,
        Err(fault) => return Err(fault),
    };
    match read_resources(alloc, scenario, shelf, seconds.as_slice(), room) {
        Ok(resources) => Ok(Memories {
            sessions,
            resources,
        }),
        Err(fault) => Err(fault),
    }
}
