//! The records of a resource.
use seata_types::{BranchId, Duplicate, Image, List, NoMemory, ReadRow, Xid};
use std::alloc::Global;

/// A durable act of a resource, with what its journal keeps of it. Images and reads stand in rising order of their keys;
/// calls and local transactions are counted from 1. The records are this project's own.
#[derive(Drop)]
pub enum ResourceRecord {
    /// The resource was opened, for the `number`th time.
    Boot {
        number: u32,
    },
    /// An AT branch committed locally: its undo record, after a row of Seata's `undo_log` with log_status 0.
    Committed {
        xid: Xid,
        branch: BranchId,
        call: u16,
        images: List<Image>,
        reads: List<ReadRow>,
    },
    /// The rows of an undo record were put back, and the record taken out.
    Undone {
        xid: Xid,
        branch: BranchId,
    },
    /// A branch was rolled back before it committed locally, after log_status 1 of Seata's `undo_log`.
    Marked {
        xid: Xid,
        branch: BranchId,
    },
    /// The undo record of a committed branch was taken out.
    Cleared {
        xid: Xid,
        branch: BranchId,
    },
    /// A Try ran, after status 1 of Seata's `tcc_fence_log`.
    Tried {
        xid: Xid,
        branch: BranchId,
        call: u16,
        images: List<Image>,
    },
    /// A Confirm ran, after its status 2.
    Confirmed {
        xid: Xid,
        branch: BranchId,
        images: List<Image>,
    },
    /// A Cancel ran, after its status 3.
    Cancelled {
        xid: Xid,
        branch: BranchId,
        images: List<Image>,
    },
    /// A Cancel came to a branch that was never tried, after its status 4.
    Suspended {
        xid: Xid,
        branch: BranchId,
    },
    /// A local transaction committed whose rows no transaction held.
    LocalCommitted {
        number: u16,
        images: List<Image>,
    },
    /// A local transaction wrote without asking for the global lock.
    Outside {
        number: u16,
        images: List<Image>,
    },
}

impl Duplicate for ResourceRecord {
    fn copy(&self, alloc: Global) -> Result<Self, NoMemory> {
        match self {
            ResourceRecord::Boot { number } => Ok(ResourceRecord::Boot { number: *number }),
            ResourceRecord::Committed {
                xid,
                branch,
                call,
                images,
                reads,
            } => Ok(ResourceRecord::Committed {
                xid: *xid,
                branch: *branch,
                call: *call,
                images: images.copy(alloc)?,
                reads: reads.copy(alloc)?,
            }),
            ResourceRecord::Undone { xid, branch } => Ok(ResourceRecord::Undone {
                xid: *xid,
                branch: *branch,
            }),
            ResourceRecord::Marked { xid, branch } => Ok(ResourceRecord::Marked {
                xid: *xid,
                branch: *branch,
            }),
            ResourceRecord::Cleared { xid, branch } => Ok(ResourceRecord::Cleared {
                xid: *xid,
                branch: *branch,
            }),
            ResourceRecord::Tried {
                xid,
                branch,
                call,
                images,
            } => Ok(ResourceRecord::Tried {
                xid: *xid,
                branch: *branch,
                call: *call,
                images: images.copy(alloc)?,
            }),
            ResourceRecord::Confirmed {
                xid,
                branch,
                images,
            } => Ok(ResourceRecord::Confirmed {
                xid: *xid,
                branch: *branch,
                images: images.copy(alloc)?,
            }),
            ResourceRecord::Cancelled {
                xid,
                branch,
                images,
            } => Ok(ResourceRecord::Cancelled {
                xid: *xid,
                branch: *branch,
                images: images.copy(alloc)?,
            }),
            ResourceRecord::Suspended { xid, branch } => Ok(ResourceRecord::Suspended {
                xid: *xid,
                branch: *branch,
            }),
            ResourceRecord::LocalCommitted { number, images } => Ok(
                ResourceRecord::LocalCommitted {
                    number: *number,
                    images: images.copy(alloc)?,
                },
            ),
            ResourceRecord::Outside { number, images } => Ok(ResourceRecord::Outside {
                number: *number,
                images: images.copy(alloc)?,
            }),
        }
    }
}
