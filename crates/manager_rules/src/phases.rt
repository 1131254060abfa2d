//! What a manager waits for.

use seata_types::{Ending, Xid};

/// What a manager waits for: its first turn, the number of its transaction, the answer of its present call, the status of
/// the end that it asked for, or nothing more. Of its calls so many are done, and so often the present one was busy.
#[derive(Clone, Copy)]
pub enum Phase {
    Unstarted,
    Beginning,
    Calling { xid: Xid, done: u16, busy: u32 },
    Closing { xid: Xid, how: Ending },
    Closed { xid: Xid },
}
