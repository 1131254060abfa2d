//! `seata_lab`: reads a scenario from standard input, replays it, or runs it on threads, and prints the whole history; or judges such
//! a print; or shows what a folder holds; or reads frames and prints a line for each; or prints the scenario that is made of a
//! number. The disks of the nodes are in memory, or with `--store` in the files of a folder.
#![tactic(auto)]

use disk_model::MemShelf;
use file_shelf::FileShelf;
use lab_calls::{MEMORY, OpenGate, StdSink, StdSource, top};
use lab_words::store_of;
use seata_types::{NoMemory, Text};
use std::alloc::Global;
use std::env::Args;
use std::io::ErrorKind;
use std::process::ExitCode;
use std::{env, io};

/// The words behind the program's own name. Where they can't be read there are none, and the usage line answers that.
fn words_of(alloc: Global, given: io::Result<Args<Global>>) -> Result<Vec<Text>, NoMemory> {
    let mut words = Vec::new(alloc);
    match given {
        Ok(given) => {
            for word in given.skip(1) {
                words.push(Text::of(word))?;
            }
        }
        Err(error) if error.kind() == ErrorKind::OutOfMemory => return Err(NoMemory),
        Err(_) => {}
    }
    Ok(words)
}

fn main(rt: HostRuntime) -> ExitCode {
    let alloc = rt.alloc();
    let Ok(words) = words_of(alloc, env::args(&rt)) else {
        return ExitCode::from(MEMORY);
    };
    let words = words.as_slice();
    let mut source = StdSource::new(rt.stdin());
    let mut sink = StdSink::new(rt.stdout());
    let status = match store_of(words) {
        Some(folder) => match FileShelf::new(alloc, &rt, folder) {
            Ok(mut shelf) => top(
                &rt,
                alloc,
                words,
                &mut source,
                &mut sink,
                &mut shelf,
                &OpenGate,
            ),
            Err(_) => MEMORY,
        },
        None => {
            let mut shelf = MemShelf::new(alloc);
            top(
                &rt,
                alloc,
                words,
                &mut source,
                &mut sink,
                &mut shelf,
                &OpenGate,
            )
        }
    };
    ExitCode::from(status)
}
