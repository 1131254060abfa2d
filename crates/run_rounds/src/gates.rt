//! What a worker calls before it takes the lock of a seat.
use seata_types::Place;

/// Is called by a worker before it takes the lock of the seat at a place, with the number of turns that the worker has made.
pub trait Gate: Sync {
    fn turn(&self, worker: u32, place: Place, turn: u64);
}

/// Does nothing.
pub struct OpenGate;

impl Gate for OpenGate {
    fn turn(&self, _worker: u32, _place: Place, _turn: u64) {}
}
