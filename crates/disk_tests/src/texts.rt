//! A text on a disk of its own.
use crate::samples::{Fail, blank, so};
use base_disk::{BaseError, keep};
use disk_model::{Disk, MemDisk};
use std::alloc::Global;

// Keeps a text on a disk, after a crash of it.
fn kept(
    alloc: Global,
    mut disk: MemDisk,
    text: &[u8],
) -> Result<(Result<(), BaseError>, MemDisk), Fail> {
    disk.restart(0)?;
    Ok(keep(alloc, disk, text))
}

#[test]
fn a_text_is_kept_and_no_other_one(rt: HostRuntime) -> Result<(), Fail> {
    let alloc = rt.alloc();
    let disk = blank(alloc, 64)?;
    let (first, disk) = kept(alloc, disk, b"a scenario")?;
    let (again, disk) = kept(alloc, disk, b"a scenario")?;
    let (other, disk) = kept(alloc, disk, b"a schedule")?;
    let (still, _) = kept(alloc, disk, b"a scenario")?;
    so(
        first.is_ok() && again.is_ok() && still.is_ok(),
        "a text that is kept",
    )?;
    so(matches!(other, Err(BaseError::Other)), "another text")
}

#[test]
fn a_text_fits_or_is_refused(rt: HostRuntime) -> Result<(), Fail> {
    let alloc = rt.alloc();
    let disk = blank(alloc, 16)?;
    let (long, disk) = kept(alloc, disk, b"a scenario of many bytes")?;
    let (short, _) = kept(alloc, disk, b"short")?;
    so(matches!(long, Err(BaseError::Full(_))), "a long text")?;
    so(short.is_ok(), "a short text")
}
