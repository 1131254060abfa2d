//! What the act of an entry shows of its node's disk.
use seata_types::Durable;

/// How an entry shows what its node's rule answers: done, or cut short as the node went down with it in flight.
#[derive(Clone, Copy)]
pub enum Shown {
    Done,
    Cut { flight: Durable },
}

/// What is shown of the restart of a node that is down: what was kept of what was in flight, and whether its boot failed.
#[derive(Clone, Copy)]
pub struct Back {
    pub kept: Option<Durable>,
    pub cut: bool,
}

/// What a node does by itself: what comes while it is down is lost; a stop arms its disk, a crash takes it down, and a restart brings
/// it back, or does nothing where it is up.
#[derive(Clone, Copy)]
pub enum Plain {
    Lost,
    Armed,
    Crashed,
    Rests,
    Back(Back),
}
