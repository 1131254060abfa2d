//! What a resource without tables, on blank disks, shows of these.
ghost use Rattle.std.specs.Prelude.{◌≡◌, []};
ghost use Rattle.resource_core.specs.NodeOpening.{IsSetupWithin};

use crate::errors::Fail;
use disk_model::{Disk, MemDisk, MemShelf, Shelf};
use local_tables::Schema;
use resource_core::{Resource, Setup};
use seata_types::List;
use std::alloc::Global;

fn none<T>(alloc: Global) -> List<T>
    ensures { result ≡ [] }
{
    List::of(Vec::new(alloc))
}

fn setup(alloc: Global) -> Setup
    ensures { IsSetupWithin 1 result }
{
    Setup {
        schema: Schema {
            tables: none(alloc),
        },
        opening: none(alloc),
        tries: 30,
        actions: none(alloc),
        locals: none(alloc),
    }
}

fn open(alloc: Global) -> Result<Resource<MemDisk>, Fail> {
    let mut shelf = MemShelf::new(alloc);
    let (Ok(first), Ok(second)) = (shelf.take(alloc, "A", 4096), shelf.take(alloc, "A.2", 4096))
    else {
        return Err(Fail::NoMemory);
    };
    match Resource::open(alloc, first, second, 1, setup(alloc)) {
        Ok(resource) => Ok(resource),
        Err(_) => Err(Fail::Other("not open")),
    }
}

/// Whether it found no record, and lends a disk that no stop failed.
fn shows_blank(resource: &mut Resource<MemDisk>) -> Result<(), Fail> {
    if resource.found().is_some() {
        return Err(Fail::Other("a record on blank disks"));
    }
    let disk = resource.disk_mut();
    if disk.size() != 4096 || disk.is_stopped() {
        return Err(Fail::Other("the disk that it lends"));
    }
    Ok(())
}

fn opens_blank(alloc: Global) -> Result<(), Fail> {
    let mut resource = open(alloc)?;
    let shown = shows_blank(&mut resource);
    drop(resource);
    shown
}

#[test]
fn a_resource_shows_its_disk(rt: HostRuntime) -> Result<(), Fail> {
    opens_blank(rt.alloc())
}
