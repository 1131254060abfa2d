//! A reader and a writer over memory, and a shelf of few disks.
ghost use Rattle.std.specs.Prelude.{◌≡◌, ◌≤◌};
ghost use Rattle.disk_model.specs.Disk.{Rose};

use disk_model::{MemDisk, Shelf, ShelfError};
use lab_calls::{Failed, MemSink, MemSource, Sink, Source};
use std::alloc::Global;
use std::io;
use std::io::{ErrorKind, Read, Write};

/// A reader of a source.
#[derive(Drop)]
pub struct Reader {
    pub source: MemSource,
}

impl Read for Reader {
    fn read(&mut self, buf: &mut [u8]) -> io::Result<usize> {
        match self.source.read(buf) {
            Ok(count) => Ok(count),
            Err(Failed) => Err(io::Error::from(ErrorKind::BrokenPipe)),
        }
    }
}

/// A writer to a sink.
#[derive(Drop)]
pub struct Writer {
    pub sink: MemSink,
}

impl Write for Writer {
    fn write(&mut self, buf: &[u8]) -> io::Result<usize> {
        match self.sink.write(buf) {
            Ok(count) => Ok(count),
            Err(Failed) => Err(io::Error::from(ErrorKind::BrokenPipe)),
        }
    }

    fn flush(&mut self) -> io::Result<()> {
        Ok(())
    }
}

/// A shelf that gives so many new disks, and at each later call fails, or refuses memory. It counts those that are given back, and
/// keeps none.
#[derive(Drop)]
pub struct FewDisks {
    disks: u32,
    refuses: bool,
    pub back: u32,
    pub faults: u64,
}

impl FewDisks {
    /// A shelf that gave no disk yet.
    pub fn new(disks: u32, refuses: bool) -> FewDisks {
        FewDisks {
            disks,
            refuses,
            back: 0,
            faults: 0,
        }
    }

    /// Why no disk is given.
    fn refusal(&mut self) -> ShelfError
        ensures failed { result ≡ ShelfError.Failed → Rose self.old.faults self.new.faults }
        ensures faults { self.old.faults ≤ self.new.faults }
    {
        if self.refuses {
            return ShelfError::NoMemory;
        }
        self.faults = self.faults.saturating_add(1);
        ShelfError::Failed
    }
}

impl Shelf for FewDisks {
    type D = MemDisk;

    ghost use Rattle.case_lab.specs.Few.{few_lawful, few_state};

    ghost state = { few_state };

    ghost lawful = { few_lawful };

    fn take(&mut self, alloc: Global, _name: &str, size: u64) -> Result<MemDisk, ShelfError> {
        if self.disks == 0 {
            return Err(self.refusal());
        }
        self.disks -= 1;
        let disk = MemDisk::new(alloc, size)?;
        Ok(disk)
    }

    fn give(&mut self, _name: &str, _disk: MemDisk) {
        self.back = self.back.saturating_add(1);
    }
}
