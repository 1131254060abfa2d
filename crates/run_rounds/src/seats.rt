//! The seats of all nodes of a run, and the locks behind which they lie while a round is made.
use crate::begun::Begun;
use node_seat::RunName;
use node_steps::Node;
use seata_types::Place;
use std::sync::Mutex;

/// The seats of the coordinator, of the resources and of the managers, these two in order. Each is there, but while a round is
/// made.
#[derive(Drop)]
pub struct Seats<C: Node, S: Node, M: Node, K: RunName> {
    pub coordinator: Option<Begun<C, K>>,
    pub resources: Vec<Option<Begun<S, K>>>,
    pub managers: Vec<Option<Begun<M, K>>>,
}

/// The lock of a seat, and the place of the seat's node. Outside of a round no seat lies behind it.
#[derive(Drop)]
pub struct Shared<N: Node, K: RunName> {
    pub place: Option<Place>,
    pub lock: Mutex<Option<Begun<N, K>>>,
}

/// The locks of the seats of a run.
#[derive(Drop)]
pub struct Locks<C: Node, S: Node, M: Node, K: RunName> {
    pub coordinator: Shared<C, K>,
    pub resources: Vec<Shared<S, K>>,
    pub managers: Vec<Shared<M, K>>,
}
