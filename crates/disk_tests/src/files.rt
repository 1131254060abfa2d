//! Disks in the files of a folder.
use crate::samples::{Fail, so};
use disk_model::{Disk, Shelf};
use file_shelf::FileShelf;
use std::alloc::Global;
use std::fs::Files;

// The first two bytes of the disk under a name, once these were written over its second one and the disk was given back.
fn through<S: Shelf>(
    shelf: &mut S,
    alloc: Global,
    name: &str,
    byte: &[u8],
) -> Result<[u8; 2], Fail> {
    let mut disk = shelf.take(alloc, name, 16)?;
    let mut bytes = [9; 2];
    if disk.size() < 2 {
        return Err(Fail::Differs("size"));
    }
    disk.read_at(0, &mut bytes)?;
    if byte.len() == 1 {
        disk.write_at(1, byte)?;
    }
    disk.sync()?;
    shelf.give(name, disk);
    Ok(bytes)
}

fn goes_on<S: Shelf>(shelf: &mut S, alloc: Global) -> Result<(), Fail> {
    so(through(shelf, alloc, "tc", &[7])? == [0, 0], "a new file")?;
    so(through(shelf, alloc, "tc", &[8])? == [0, 7], "a file again")?;
    so(
        through(shelf, alloc, "tc.2", &[])? == [0, 0],
        "another file",
    )?;
    so(shelf.take(alloc, "tc", 17).is_err(), "another size")
}

fn in_a_folder<R: Files + Drop>(files: R, alloc: Global) -> Result<(), Fail>
where
    R::File: Send,
{
    let mut shelf = FileShelf::new(alloc, files, "store")?;
    let done = goes_on(&mut shelf, alloc);
    drop(shelf);
    done
}

#[test]
fn a_folder_keeps_its_disks(rt: HostRuntime) -> Result<(), Fail> {
    let alloc = rt.alloc();
    in_a_folder(rt, alloc)
}
