//! What a node of a run goes by.
use seata_types::List;

/// What a node of a run goes by: its stops in order, each with the calls of its disk that it lets pass and the pick of the
/// restart after it; where its clock begins, in ticks, 0 but at the coordinator; and how many managers and resources there are.
#[derive(Drop)]
pub struct Plan {
    pub stops: List<(u32, u16)>,
    pub from: u64,
    pub managers: usize,
    pub resources: usize,
}
