//! A scenario, with its defaults filled in.
use local_tables::Schema;
use seata_types::{Ending, List, Place, Row, Stmt, Text, Work};

/// What a run is made of. The timeout, the retry and the age `forget` are in ticks, the disk is in
/// bytes; with `forget` 0 no session is forgotten. Resources, managers and locals are counted from 1.
/// A local has the number of its resource and its statements. A stop arms the active disk of a node
/// with a count of calls and has the pick of the restart after it. `base` is the text under which the
/// scenario is kept: its compact JSON with an empty schedule and without stops, which reads as this
/// scenario with these two empty where it is no longer than what may be read.
#[derive(Drop)]
pub struct Scenario {
    pub timeout: u64,
    pub lock_tries: u32,
    pub retry: u64,
    pub forget: u64,
    pub disk: u64,
    pub resources: List<ResourceDef>,
    pub managers: List<ManagerDef>,
    pub locals: List<(u16, List<Stmt>)>,
    pub stops: List<(Place, u32, u16)>,
    pub schedule: List<ScheduleItem>,
    pub base: Text,
}

/// A resource: its tables, and the rows that these have at the opening, each with its table's name,
/// table by table in the order of the form.
#[derive(Drop)]
pub struct ResourceDef {
    pub name: Text,
    pub schema: Schema,
    pub opening: List<(Text, Row)>,
}

/// A manager: the one transaction that it runs, call by call, and how it ends it. A call has the
/// number of its resource, counted from 1. A silent manager stops after that many messages. With
/// `poll` it asks for the status once its transaction is closed.
#[derive(Drop)]
pub struct ManagerDef {
    pub name: Text,
    pub timeout: u64,
    pub calls: List<(u16, Work)>,
    pub ending: Ending,
    pub silent: Option<u32>,
    pub poll: bool,
}

/// One item of the schedule: a single step, or as many steps as `Auto` says that the replay chooses
/// itself. Ticks and calls are counts, a stamp is that of an earlier entry, a pick says what a disk
/// reads as after a crash, and a number is that of a local, counted from 1.
#[derive(Clone, Copy)]
pub enum ScheduleItem {
    Turn {
        place: Place,
    },
    Deliver {
        stamp: u32,
    },
    Wait {
        ticks: u64,
    },
    Stop {
        place: Place,
        calls: u32,
    },
    Crash {
        place: Place,
    },
    Restart {
        place: Place,
        pick: u16,
        calls: Option<u32>,
    },
    Local {
        number: u16,
    },
    Outside {
        number: u16,
    },
    Auto {
        steps: u32,
    },
}
