//! Who calls.
use seata_types::Xid;

/// A call of a transaction, by its manager; calls are counted from 1.
#[derive(Clone, Copy)]
pub(crate) struct Caller {
    pub manager: u16,
    pub xid: Xid,
    pub call: u16,
}
