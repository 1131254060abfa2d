//! The identities of transactions, branches, local transactions and nodes. All are counted from 1.

use crate::copies::{Duplicate, NoMemory};
use std::alloc::Global;

/// A global transaction, printed as Seata's XID with the coordinator's name: `tc:1`.
#[derive(Clone, Copy, PartialEq, Eq, PartialOrd, Ord)]
pub struct Xid(pub u64);

impl Duplicate for Xid {
    fn copy(&self, _alloc: Global) -> Result<Self, NoMemory> {
        Ok(*self)
    }
}

/// A branch, counted over all transactions.
#[derive(Clone, Copy, PartialEq, Eq, PartialOrd, Ord)]
pub struct BranchId(pub u64);

/// A local transaction that a resource has open: the resource's boot, and the count since that
/// boot. Tickets are this project's own.
#[derive(Clone, Copy, PartialEq, Eq, PartialOrd, Ord)]
pub struct Ticket {
    pub boot: u32,
    pub seq: u32,
}

/// A branch with its transaction: the key of Seata's `undo_log` and `tcc_fence_log`.
#[derive(Clone, Copy, PartialEq, Eq, PartialOrd, Ord)]
pub struct Leg {
    pub xid: Xid,
    pub branch: BranchId,
}

/// Where an entry happened: the network, the coordinator, a resource or a manager. Entries with
/// one stamp stand in this order.
#[derive(Clone, Copy, PartialEq, Eq, PartialOrd, Ord)]
pub enum Place {
    Net,
    Tc,
    Res(u16),
    Man(u16),
}
