//! What a judge keeps, and what it finds of an entry.
use history_text::Origin;
use judged_bench::Bench;
use judged_desk::Desk;
use judged_talk::Talk;
use seata_types::{Outgoing, Step};
use std::collections::{BTreeMap, BTreeSet};
use verdict_law::Rule;

/// What is found of an entry: the step that its node does, or the rule that it breaks.
#[derive(Drop)]
pub(crate) enum Found {
    Does(Step),
    Breaks(Rule),
}

/// The messages that were sent, each by its entry's number and place, and the numbers of these entries.
#[derive(Drop)]
pub(crate) struct Letters {
    pub sent: BTreeMap<Origin, Outgoing>,
    pub numbers: BTreeSet<u32>,
}

/// What is kept of the nodes of a scenario. Resources and managers are counted from 1.
#[derive(Drop)]
pub(crate) struct Nodes {
    pub desk: Desk,
    pub benches: Vec<Bench>,
    pub talks: Vec<Talk>,
}

/// What is kept of the entries that were judged legal: where the newest one stands, the coordinator's clock, the messages that were
/// sent, and the nodes.
#[derive(Drop)]
pub(crate) struct Judge {
    pub newest: Option<Origin>,
    pub clock: u64,
    pub letters: Letters,
    pub nodes: Nodes,
}
