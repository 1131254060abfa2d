//! The statuses of a transaction, after Seata's table.
ghost use Rattle.std.specs.Prelude.{◌≡◌};
ghost use Rattle.durable_records.specs.Progress.{has_retrying};
ghost use Rattle.session_memory.specs.Holding.{keeps_rows};
ghost use Rattle.session_memory.specs.Changes.{decided_status, retrying_status, failed_status, finished_status, is_begin, is_going, is_finished};

use seata_types::{Decision, GlobalStatus};

/// The status after a decision, by whether all branches are AT.
pub fn decided(how: Decision, all_at: bool) -> GlobalStatus
    ensures { result ≡ decided_status how all_at }
{
    match how {
        Decision::Commit if all_at => GlobalStatus::AsyncCommitting,
        Decision::Commit => GlobalStatus::Committing,
        Decision::Rollback => GlobalStatus::Rollbacking,
        Decision::Timeout => GlobalStatus::TimeoutRollbacking,
    }
}

/// The status after the first retry.
pub fn retrying(status: GlobalStatus) -> GlobalStatus
    ensures { result ≡ retrying_status status }
{
    match status {
        GlobalStatus::Committing => GlobalStatus::CommitRetrying,
        GlobalStatus::Rollbacking => GlobalStatus::RollbackRetrying,
        GlobalStatus::TimeoutRollbacking => GlobalStatus::TimeoutRollbackRetrying,
        other => other,
    }
}

/// The status after a failure for good.
pub fn failed(status: GlobalStatus) -> GlobalStatus
    ensures { result ≡ failed_status status }
{
    match status {
        GlobalStatus::Committing | GlobalStatus::CommitRetrying | GlobalStatus::AsyncCommitting =>
            GlobalStatus::CommitFailed,
        GlobalStatus::Rollbacking | GlobalStatus::RollbackRetrying => GlobalStatus::RollbackFailed,
        GlobalStatus::TimeoutRollbacking | GlobalStatus::TimeoutRollbackRetrying => {
            GlobalStatus::TimeoutRollbackFailed
        }
        other => other,
    }
}

/// The status after the last branch is ended.
pub fn finished(status: GlobalStatus) -> GlobalStatus
    ensures { result ≡ finished_status status }
{
    match status {
        GlobalStatus::Committing | GlobalStatus::CommitRetrying | GlobalStatus::AsyncCommitting =>
            GlobalStatus::Committed,
        GlobalStatus::Rollbacking | GlobalStatus::RollbackRetrying => GlobalStatus::Rollbacked,
        GlobalStatus::TimeoutRollbacking | GlobalStatus::TimeoutRollbackRetrying => {
            GlobalStatus::TimeoutRollbacked
        }
        other => other,
    }
}

/// Whether a transaction isn't decided.
pub fn is_begin(status: GlobalStatus) -> bool
    ensures { result ≡ is_begin status }
{
    matches!(status, GlobalStatus::Begin)
}

/// Whether it becomes a Retrying one.
pub fn has_retrying(status: GlobalStatus) -> bool
    ensures { result ≡ has_retrying status }
{
    matches!(
        status,
        GlobalStatus::Committing | GlobalStatus::Rollbacking | GlobalStatus::TimeoutRollbacking
    )
}

/// Whether a transaction is decided, and neither finished nor failed.
pub fn is_going(status: GlobalStatus) -> bool
    ensures { result ≡ is_going status }
{
    matches!(
        status,
        GlobalStatus::Committing
            | GlobalStatus::CommitRetrying
            | GlobalStatus::AsyncCommitting
            | GlobalStatus::Rollbacking
            | GlobalStatus::RollbackRetrying
            | GlobalStatus::TimeoutRollbacking
            | GlobalStatus::TimeoutRollbackRetrying
    )
}

/// Whether all branches of a transaction are ended.
pub fn is_finished(status: GlobalStatus) -> bool
    ensures { result ≡ is_finished status }
{
    matches!(
        status,
        GlobalStatus::Committed | GlobalStatus::Rollbacked | GlobalStatus::TimeoutRollbacked
    )
}

/// Whether a transaction with this status isn't decided commit.
pub fn keeps_rows(status: GlobalStatus) -> bool
    ensures { result ≡ keeps_rows status }
{
    !matches!(
        status,
        GlobalStatus::Committing
            | GlobalStatus::CommitRetrying
            | GlobalStatus::AsyncCommitting
            | GlobalStatus::Committed
            | GlobalStatus::CommitFailed
    )
}
