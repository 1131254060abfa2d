//! A judge of printed histories: whether entries are those of a history that is legal by the rules of all nodes, over disks without
//! records, or which entry breaks which rule first. It keeps what its entries leave of each node, and the messages that were sent.
#![tactic(auto)]

mod audits;
mod judge;
mod kept;
mod letters;
mod nodes;
mod order;
mod shown;

pub use audits::audit;
pub use verdict_law::Rule;
