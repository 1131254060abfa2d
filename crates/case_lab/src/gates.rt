//! A gate at which two workers of a run meet.
use lab_calls::Gate;
use seata_types::Place;
use std::sync::atomic::AtomicBool;
use std::sync::atomic::Ordering::SeqCst;
use std::thread::yield_now;

/// How often a worker that waits lets others run.
const YIELDS: u32 = 50_000_000;

/// Holds worker 0 before its first turn of the first resource until worker 1 has come to a turn of the second one, and worker 1
/// there until worker 0 has come. After so many yields it gives up, and lets all go on. So only workers that are at work at once
/// meet.
#[derive(Drop)]
pub struct Meeting {
    at_first: AtomicBool,
    at_second: AtomicBool,
    gave_up: AtomicBool,
}

impl Meeting {
    /// A gate that nobody has come to.
    pub fn new() -> Meeting {
        Meeting {
            at_first: AtomicBool::new(false),
            at_second: AtomicBool::new(false),
            gave_up: AtomicBool::new(false),
        }
    }

    /// Whether both workers have come, and it didn't give up.
    pub fn is_met(&self) -> bool {
        self.at_first.load(SeqCst) && self.at_second.load(SeqCst) && !self.gave_up.load(SeqCst)
    }

    /// Notes that one has come, and holds it until the other has.
    fn wait(&self, own: &AtomicBool, other: &AtomicBool) {
        own.store(true, SeqCst);
        for _ in 0..YIELDS {
            if other.load(SeqCst) || self.gave_up.load(SeqCst) {
                return;
            }
            yield_now();
        }
        self.gave_up.store(true, SeqCst);
    }
}

impl Gate for Meeting {
    fn turn(&self, worker: u32, place: Place, _turn: u64) {
        match (worker, place) {
            (0, Place::Res(1)) => self.wait(&self.at_first, &self.at_second),
            (1, Place::Res(2)) => self.wait(&self.at_second, &self.at_first),
            _ => {}
        }
    }
}
