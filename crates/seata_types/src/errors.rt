//! Why a statement, a call, an opening, a store or a node answers otherwise than asked.
use crate::acts::Durable;
use crate::boxes::Boxed;
use crate::copies::{Duplicate, NoMemory};
use crate::ids::Xid;
use crate::rows::RowKey;
use crate::statuses::GlobalStatus;
use std::alloc::Global;

/// Why a statement has no meaning, in the order in which the causes are tested.
#[derive(Drop, PartialEq, Eq)]
pub enum StmtError {
    NoTable,
    NoColumn,
    Columns,
    KeyChanged,
    TypeMismatch,
    TooManyRows,
    Overflow { key: Boxed<RowKey> },
    Duplicate { key: Boxed<RowKey> },
    TableFull,
}

impl Duplicate for StmtError {
    fn copy(&self, alloc: Global) -> Result<Self, NoMemory> {
        match self {
            StmtError::NoTable => Ok(StmtError::NoTable),
            StmtError::NoColumn => Ok(StmtError::NoColumn),
            StmtError::Columns => Ok(StmtError::Columns),
            StmtError::KeyChanged => Ok(StmtError::KeyChanged),
            StmtError::TypeMismatch => Ok(StmtError::TypeMismatch),
            StmtError::TooManyRows => Ok(StmtError::TooManyRows),
            StmtError::Overflow { key } => Ok(StmtError::Overflow {
                key: key.copy(alloc)?,
            }),
            StmtError::Duplicate { key } => Ok(StmtError::Duplicate {
                key: key.copy(alloc)?,
            }),
            StmtError::TableFull => Ok(StmtError::TableFull),
        }
    }
}

/// Why a call failed. Statements are counted from 1.
#[derive(Drop, PartialEq, Eq)]
pub enum Why {
    Stmt { index: u16, why: StmtError },
    Tries,
    Rolling { holder: Xid },
    Closed { status: GlobalStatus },
    Late,
    Marker,
    NoRow { index: u16 },
    Fence,
}

impl Duplicate for Why {
    fn copy(&self, alloc: Global) -> Result<Self, NoMemory> {
        match self {
            Why::Stmt { index, why } => Ok(Why::Stmt {
                index: *index,
                why: why.copy(alloc)?,
            }),
            Why::Tries => Ok(Why::Tries),
            Why::Rolling { holder } => Ok(Why::Rolling { holder: *holder }),
            Why::Closed { status } => Ok(Why::Closed { status: *status }),
            Why::Late => Ok(Why::Late),
            Why::Marker => Ok(Why::Marker),
            Why::NoRow { index } => Ok(Why::NoRow { index: *index }),
            Why::Fence => Ok(Why::Fence),
        }
    }
}

/// A record that would pass the end of a disk: what it needs and what is there, in bytes.
#[derive(Clone, Copy, PartialEq, Eq)]
pub struct Full {
    pub needed: u64,
    pub size: u64,
}

/// Why a node's store doesn't open. `Damaged` says on which of its two disks, and at which offset.
#[derive(Clone, Copy, PartialEq, Eq)]
pub enum OpenError {
    Failed,
    Damaged { second: bool, at: u64 },
    Full(Full),
    NoMemory,
}

/// Why a store didn't take a record.
#[derive(Clone, Copy, PartialEq, Eq)]
pub enum StoreError {
    Failed,
    Full(Full),
    NoMemory,
}

/// Why a node's step ended without an answer. After `Failed` the node is down, and `at` is the act
/// in flight.
#[derive(Clone, Copy, PartialEq, Eq)]
pub enum NodeError {
    Failed { at: Durable },
    Full(Full),
    NoMemory,
}
