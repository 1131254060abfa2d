//! The entries of a history, as they are printed.
use crate::notes::Note;
use seata_types::{Act, Boxed, List, Place, Text};

/// What brought an entry about. `Missing` is the delivery of a message that isn't there; `Local` and
/// `Outside` give a resource the scenario's local transaction of that number, counted from 1.
#[derive(Clone, Copy)]
pub enum Cause {
    Turn,
    Deliver { stamp: u32, from: Place },
    Missing { stamp: u32 },
    Wait { ticks: u64 },
    Stop { calls: u32 },
    Crash,
    Restart { pick: u16, calls: Option<u32> },
    Local { number: u16 },
    Outside { number: u16 },
}

/// A message that an entry sent, as its line shows it.
#[derive(Drop, PartialEq, Eq)]
pub struct Sent {
    pub to: Place,
    pub note: Boxed<Note>,
}

/// One event at one place: its number, where and when, why, what was done and what was sent.
#[derive(Drop)]
pub struct Entry {
    pub stamp: u32,
    pub place: Place,
    pub now: u64,
    pub cause: Cause,
    pub act: Act,
    pub sent: Option<Sent>,
}

/// Where an entry stands among all: entries rise by their numbers, and those of one number by the kinds of their places and
/// the numbers of these.
#[derive(Clone, Copy, PartialEq, Eq, PartialOrd, Ord)]
pub struct Origin {
    pub stamp: u32,
    pub kind: u8,
    pub number: u16,
}

/// The names of the resources and of the managers, each counted from 1.
#[derive(Drop)]
pub struct Names {
    pub resources: List<Text>,
    pub managers: List<Text>,
}
