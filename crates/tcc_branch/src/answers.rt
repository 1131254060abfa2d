//! What the calls of TCC branches answer.
use seata_types::{StmtError, Why};

/// What a grant came to.
#[derive(Drop)]
pub enum TryAnswer {
    /// The Try ran, and the branch has its fence.
    Tried,
    /// The call fails. Its ticket is still open.
    Refused { why: Why },
    /// The ticket isn't open: the grant is ignored.
    NotOpen,
}

/// What a Confirm or a Cancel came to.
#[derive(Drop)]
pub enum TccAnswer {
    /// Its statements ran.
    Ran,
    /// They ran before, or a Cancel stood in for the Try.
    Already,
    /// There was nothing to cancel, and the Try never runs from now on.
    Suspended,
    /// The fence refuses it.
    Refused,
    /// The first statement without a meaning, counted from 1, and why: nothing ran.
    ActionFailed { index: u16, why: StmtError },
}
