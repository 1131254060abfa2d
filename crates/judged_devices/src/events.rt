//! What happens to a node.
use seata_types::Input;

/// What an entry brings to its node.
#[derive(Drop)]
pub enum Event {
    Given { input: Input },
    Stopped { calls: u32 },
    Crashed,
    Restarted { pick: u16, calls: Option<u32> },
}
