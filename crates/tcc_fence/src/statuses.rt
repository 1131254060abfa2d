//! The statuses of a fence and its answers.
ghost use Rattle.std.specs.Prelude.{◌≡◌, ◌≤◌, IfSome, IsSome};
ghost use Rattle.tcc_fence.specs.Meanings.{code_of};

/// The status of a branch in Seata's `tcc_fence_log`, with its numbers 1 to 4.
#[derive(Clone, Copy, PartialEq, Eq, Debug)]
pub enum FenceStatus {
    /// The Try ran.
    Tried = 1,
    /// The Confirm ran.
    Committed = 2,
    /// The Cancel ran after the Try.
    Rollbacked = 3,
    /// The Cancel came before any Try, which never runs from then on.
    Suspended = 4,
}

/// What a fence answers; this project's own.
#[derive(Clone, Copy, PartialEq, Eq, Debug)]
pub enum FenceAnswer {
    /// The action is to run.
    Run,
    /// It ran, or was stood in for, before.
    Already,
    /// There is nothing to cancel, and the Try is never to run.
    Suspend,
    /// It may not run.
    Refuse,
}

impl FenceStatus {
    /// The status's number, 1 to 4 in the order of the variants.
    pub fn code(self) -> u8
        ensures { result ≡ code_of self }
    {
        self as u8
    }

    /// The status with this number; none for 0 and above 4.
    pub fn from_code(code: u8) -> Option<FenceStatus>
        ensures found { IfSome result (λ status. code_of status ≡ code) }
        ensures each { 1 ≤ code → code ≤ 4 → IsSome result }
    {
        match code {
            1 => Some(FenceStatus::Tried),
            2 => Some(FenceStatus::Committed),
            3 => Some(FenceStatus::Rollbacked),
            4 => Some(FenceStatus::Suspended),
            _ => None,
        }
    }
}
