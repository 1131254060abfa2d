//! A disk in a file.
ghost use Rattle.std.specs.Prelude.{◌≡◌, ◌^◌, ◌<◌, ◌≤◌, OnErr};
ghost use Rattle.disk_model.specs.Disk.{Rose};

use disk_model::{Disk, Failed};
use std::fs::OpenFile;
use std::io;
use std::io::{Read, Seek, SeekFrom, Write};

/// A disk in an open file, of a size in bytes. Each call that the system fails is counted. A restart keeps the present
/// bytes, whatever the pick: what the system took isn't lost by it.
#[derive(Drop)]
pub struct FileDisk<F> {
    file: F,
    size: u64,
    faults: u64,
    ghost small: { size < 2 ^ 32 },
}

impl<F> FileDisk<F> {
    ghost use Rattle.std.specs.Prelude.{◌≡◌, ◌^◌, ◌<◌};
    ghost use Rattle.file_shelf.specs.Shown.{faults_of, size_of};

    /// The disk in a file of this size.
    pub(crate) fn new(file: F, size: u64) -> FileDisk<F>
        requires { size < 2 ^ 32 }
        ensures size { size_of result ≡ size }
        ensures faults { faults_of result ≡ 0 }
    {
        FileDisk {
            file,
            size,
            faults: 0,
        }
    }
}

/// Counts a call that the system failed. The count stands still at its type's end.
pub(crate) fn count_failed<T: Drop>(done: io::Result<T>, faults: &mut u64) -> Result<T, Failed>
    ensures rose { OnErr result (Rose faults.old faults.new) }
    ensures never_falls { faults.old ≤ faults.new }
{
    match done {
        Ok(value) => Ok(value),
        Err(_) => {
            *faults = faults.saturating_add(1);
            Err(Failed)
        }
    }
}

/// Reads from an offset on.
fn read<F: Read + Seek>(file: &mut F, at: u64, into: &mut [u8]) -> io::Result<()> {
    file.seek(SeekFrom::Start(at))?;
    file.read_exact(into)
}

/// Writes from an offset on.
fn write<F: Write + Seek>(file: &mut F, at: u64, bytes: &[u8]) -> io::Result<()> {
    file.seek(SeekFrom::Start(at))?;
    file.write_all(bytes)
}

impl<F: Read + Write + Seek + OpenFile> Disk for FileDisk<F> {
    ghost use Rattle.file_shelf.specs.Shown.{disk_state, untold_is_lawful};

    ghost state = { disk_state };

    ghost lawful = { λ disk. untold_is_lawful disk.size disk.faults };

    fn size(&self) -> u64 {
        self.size
    }

    fn read_at(&mut self, at: u64, into: &mut [u8]) -> Result<(), Failed> {
        let done = read(&mut self.file, at, into);
        count_failed(done, &mut self.faults)
    }

    fn write_at(&mut self, at: u64, bytes: &[u8]) -> Result<(), Failed> {
        let done = write(&mut self.file, at, bytes);
        count_failed(done, &mut self.faults)
    }

    fn sync(&mut self) -> Result<(), Failed> {
        let done = self.file.sync_all();
        count_failed(done, &mut self.faults)
    }

    fn restart(&mut self, _pick: u16) -> Result<(), Failed> {
        Ok(())
    }
}
