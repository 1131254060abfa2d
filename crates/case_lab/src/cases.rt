//! A case, line by line. `= TITLE: WORD WORD` begins one, and `.` runs it, which may be done again with other settings. Before
//! that, `! NAME NUMBER` is a setting, `? TEXT` a text that is looked for in what is written, `*N TEXT` is N times this text,
//! `xN DIGITS` N times the bytes of hexadecimal digits, and each other line is a line of the input.
use crate::runs::run;
use disk_model::MemShelf;
use hex::{FromHexError, decode};
use seata_types::{NoMemory, Text};
use std::alloc::Global;
use std::collections::BTreeMap;
use std::sync::Wait;
use std::thread::Threads;

/// What the lines so far said.
#[derive(Drop)]
pub struct Case {
    pub words: Vec<Text>,
    pub input: Vec<u8>,
    pub part: String,
    numbers: BTreeMap<String, u32>,
}

impl Case {
    /// A case of no words and no input; takes no memory.
    pub fn new(alloc: Global) -> Case {
        Case {
            words: Vec::new(alloc),
            input: Vec::new(alloc),
            part: String::new(alloc),
            numbers: BTreeMap::new(alloc),
        }
    }

    /// The number of a setting, or this one where it wasn't set.
    pub fn number(&self, name: &str, usual: u32) -> u32 {
        match self.numbers.get(name) {
            Some(number) => *number,
            None => usual,
        }
    }

    /// Takes a line, and gives what is printed for it: the heading of a case, or what a run came to, also on a shelf that is kept
    /// from one run to the next.
    pub fn take<R: Threads + Wait + Sync>(
        &mut self,
        rt: &R,
        alloc: Global,
        line: &str,
        kept: &mut MemShelf,
    ) -> Result<Vec<u8>, NoMemory> {
        if line == "." {
            return run(rt, alloc, self, kept);
        }
        if let Some(heading) = line.strip_prefix("= ") {
            *self = Case::new(alloc);
            self.words = words_of(alloc, heading)?;
            let mut text = Vec::from_slice(alloc, line.as_bytes())?;
            text.push(b'\n')?;
            return Ok(text);
        }
        self.put(alloc, line)?;
        Ok(Vec::new(alloc))
    }

    /// Takes a setting, the text that is looked for, or a piece of the input.
    fn put(&mut self, alloc: Global, line: &str) -> Result<(), NoMemory> {
        if let Some(setting) = line.strip_prefix("! ") {
            return self.set(alloc, setting);
        }
        if let Some(part) = line.strip_prefix("? ") {
            self.part = String::from_str(alloc, part)?;
            return Ok(());
        }
        if let Some((times, text)) = times(line, "*") {
            return self.put_times(times, text.as_bytes());
        }
        if let Some((times, digits)) = times(line, "x") {
            let bytes = bytes_of(alloc, digits)?;
            return self.put_times(times, bytes.as_slice());
        }
        self.put_times(1, line.as_bytes())?;
        self.put_times(1, b"\n")
    }

    /// Takes the number of a setting.
    fn set(&mut self, alloc: Global, setting: &str) -> Result<(), NoMemory> {
        if let Some((name, number)) = setting.split_once(' ') {
            let name = String::from_str(alloc, name)?;
            self.numbers
                .insert(name, number.parse::<u32>().unwrap_or(0))?;
        }
        Ok(())
    }

    /// Puts bytes so many times behind the input.
    fn put_times(&mut self, times: u32, bytes: &[u8]) -> Result<(), NoMemory> {
        for _ in 0..times {
            self.input.extend_from_slice(bytes)?;
        }
        Ok(())
    }
}

/// The words of a heading.
fn words_of(alloc: Global, heading: &str) -> Result<Vec<Text>, NoMemory> {
    let mut words = Vec::new(alloc);
    if let Some((_, rest)) = heading.split_once(": ") {
        for word in rest.split_whitespace() {
            words.push(Text::of(String::from_str(alloc, word)?))?;
        }
    }
    Ok(words)
}

/// The number behind this mark, and what stands behind the blank after it.
fn times<'a>(line: &'a str, mark: &str) -> Option<(u32, &'a str)> {
    let (number, rest) = line.strip_prefix(mark)?.split_once(' ')?;
    match number.parse::<u32>() {
        Ok(number) => Some((number, rest)),
        Err(_) => None,
    }
}

/// The bytes of hexadecimal digits; none where they are no such digits.
fn bytes_of(alloc: Global, digits: &str) -> Result<Vec<u8>, NoMemory> {
    match decode(alloc, digits.as_bytes()) {
        Ok(bytes) => Ok(bytes),
        Err(FromHexError::OutOfMemory) => Err(NoMemory),
        Err(_) => Ok(Vec::new(alloc)),
    }
}
