//! The ends of links, node by node.
use link_queue::{SendSeat, TakeSeat};

/// The ends of a node's links: those that take, and those that send.
#[derive(Drop)]
pub struct NodeLinks {
    pub takers: Vec<TakeSeat>,
    pub senders: Vec<SendSeat>,
}

/// The ends of the links of all nodes of a run. Resources and managers are counted from 1.
#[derive(Drop)]
pub struct RunLinks {
    pub coordinator: NodeLinks,
    pub resources: Vec<NodeLinks>,
    pub managers: Vec<NodeLinks>,
}
