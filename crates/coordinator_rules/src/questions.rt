//! What a branch is asked.
use seata_types::{BranchId, BranchKind};

/// What a branch is asked, and the resource that it is asked of: to commit, or to roll back.
#[derive(Clone, Copy)]
pub struct Question {
    pub commit: bool,
    pub branch: BranchId,
    pub kind: BranchKind,
    pub manager: u16,
    pub call: u16,
    pub resource: u16,
}
