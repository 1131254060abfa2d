//! Who holds a row, and how often.
use seata_types::Xid;

/// The transaction whose branches hold a row, and how many times more than once they do.
#[derive(Clone, Copy)]
pub(crate) struct Holder {
    pub(crate) xid: Xid,
    // Fewer than 2^64 branches hold fewer than 2^64 rows each, so that 128 bits hold every count.
    pub(crate) more: u128,
}
