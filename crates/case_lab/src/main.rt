//! `case_lab`: runs the cases of standard input through the calls of `seata_lab`, and prints for each its title and words, its
//! status, and what was written.
#![tactic(auto)]

mod cases;
mod devices;
mod gates;
mod runs;

use cases::Case;
use disk_model::MemShelf;
use seata_types::NoMemory;
use std::io;
use std::io::{BufRead, BufReader, BufWriter, ErrorKind, Write};

fn main(rt: HostRuntime) -> io::Result<()> {
    let mut output = BufWriter::new(rt.alloc(), io::writer(&rt))?;
    let mut case = Case::new(rt.alloc());
    let mut kept = MemShelf::new(rt.alloc());
    for line in BufReader::new(rt.alloc(), rt.reader())?.lines(rt.alloc()) {
        match case.take(&rt, rt.alloc(), line?.as_str(), &mut kept) {
            Ok(text) => output.write_all(text.as_slice())?,
            Err(NoMemory) => return Err(io::Error::from(ErrorKind::OutOfMemory)),
        }
    }
    output.flush()
}
