//! Seata's session and branch statuses, with this project's numbers and table of changes.
ghost use Rattle.std.specs.Prelude.{◌≡◌, ◌↔◌, ◌<◌, IsNone, IfSome};
ghost use Rattle.seata_types.specs.Statuses.{code_of, branch_code_of, follows};

/// The status of a global session.
#[derive(Clone, Copy, PartialEq, Eq)]
pub enum GlobalStatus {
    UnKnown,
    Begin,
    Committing,
    CommitRetrying,
    Rollbacking,
    RollbackRetrying,
    TimeoutRollbacking,
    TimeoutRollbackRetrying,
    AsyncCommitting,
    Committed,
    CommitFailed,
    Rollbacked,
    RollbackFailed,
    TimeoutRollbacked,
    TimeoutRollbackFailed,
    Finished,
}

/// The status of a branch.
#[derive(Clone, Copy, PartialEq, Eq)]
pub enum BranchStatus {
    Unknown,
    Registered,
    PhaseOneDone,
    PhaseOneFailed,
    PhaseOneTimeout,
    PhaseTwoCommitted,
    PhaseTwoCommitFailedRetryable,
    PhaseTwoCommitFailedUnretryable,
    PhaseTwoRollbacked,
    PhaseTwoRollbackFailedRetryable,
    PhaseTwoRollbackFailedUnretryable,
}

/// The mode of a branch; 0 and 1 in frames and records.
#[derive(Clone, Copy, PartialEq, Eq)]
pub enum BranchKind {
    At,
    Tcc,
}

/// How a manager asks to end its transaction.
#[derive(Clone, Copy, PartialEq, Eq)]
pub enum Ending {
    Commit,
    Rollback,
}

/// How the coordinator decided a transaction; 1, 2 and 3 in records.
#[derive(Clone, Copy, PartialEq, Eq)]
pub enum Decision {
    Commit,
    Rollback,
    Timeout,
}

impl GlobalStatus {
    /// The status's number, 0 to 15 in the order of the variants.
    pub fn code(self) -> u8
        ensures { result ≡ code_of self }
    {
        self as u8
    }

    /// The status with this number; none above 15.
    pub fn from_code(code: u8) -> Option<GlobalStatus>
        ensures found { IfSome result (λ status. code_of status ≡ code) }
        ensures none { IsNone result ↔ (15 < code) }
    {
        match code {
            0 => Some(GlobalStatus::UnKnown),
            1 => Some(GlobalStatus::Begin),
            2 => Some(GlobalStatus::Committing),
            3 => Some(GlobalStatus::CommitRetrying),
            4 => Some(GlobalStatus::Rollbacking),
            5 => Some(GlobalStatus::RollbackRetrying),
            6 => Some(GlobalStatus::TimeoutRollbacking),
            7 => Some(GlobalStatus::TimeoutRollbackRetrying),
            8 => Some(GlobalStatus::AsyncCommitting),
            9 => Some(GlobalStatus::Committed),
            10 => Some(GlobalStatus::CommitFailed),
            11 => Some(GlobalStatus::Rollbacked),
            12 => Some(GlobalStatus::RollbackFailed),
            13 => Some(GlobalStatus::TimeoutRollbacked),
            14 => Some(GlobalStatus::TimeoutRollbackFailed),
            15 => Some(GlobalStatus::Finished),
            _ => None,
        }
    }
}

impl BranchStatus {
    /// The status's number, 0 to 10 in the order of the variants.
    pub fn code(self) -> u8
        ensures { result ≡ branch_code_of self }
    {
        self as u8
    }

    /// The status with this number; none above 10.
    pub fn from_code(code: u8) -> Option<BranchStatus>
        ensures found { IfSome result (λ status. branch_code_of status ≡ code) }
        ensures none { IsNone result ↔ (10 < code) }
    {
        match code {
            0 => Some(BranchStatus::Unknown),
            1 => Some(BranchStatus::Registered),
            2 => Some(BranchStatus::PhaseOneDone),
            3 => Some(BranchStatus::PhaseOneFailed),
            4 => Some(BranchStatus::PhaseOneTimeout),
            5 => Some(BranchStatus::PhaseTwoCommitted),
            6 => Some(BranchStatus::PhaseTwoCommitFailedRetryable),
            7 => Some(BranchStatus::PhaseTwoCommitFailedUnretryable),
            8 => Some(BranchStatus::PhaseTwoRollbacked),
            9 => Some(BranchStatus::PhaseTwoRollbackFailedRetryable),
            10 => Some(BranchStatus::PhaseTwoRollbackFailedUnretryable),
            _ => None,
        }
    }
}

/// Whether a session's status may change from `old` to `new`. The table is this project's own.
pub fn may_follow(old: GlobalStatus, new: GlobalStatus) -> bool
    ensures { result ≡ follows (code_of old) (code_of new) }
{
    matches!(
        (old.code(), new.code()),
        (1, 2 | 4 | 6 | 8)
            | (2, 3 | 9 | 10)
            | (3 | 8, 9 | 10)
            | (4, 5 | 11 | 12)
            | (5, 11 | 12)
            | (6, 7 | 13 | 14)
            | (7, 13 | 14)
    )
}
