ghost use Rattle.std.specs.Prelude.{◌≡◌, ◌+◌, ◌-◌, ◌^◌, ◌≤◌, min};

use std::alloc::{AllocError, AllocFailed};

/// A device failed. Its count of faults says so too.
#[derive(Clone, Copy, Debug, PartialEq, Eq)]
pub struct Failed;

impl Failed {
    // A failure, which is counted. The count stands still at its end.
    pub(crate) fn counted(count: &mut u64) -> Failed
        ensures counted { count.new ≡ min (count.old + 1) (2 ^ 64 - 1) }
        ensures never_falls { count.old ≤ count.new }
    {
        *count = count.saturating_add(1);
        Failed
    }
}

/// There was no memory for the call.
#[derive(Clone, Copy, Debug, PartialEq, Eq)]
pub struct NoMemory;

impl From<AllocError> for NoMemory {
    fn from(_: AllocError) -> NoMemory {
        NoMemory
    }
}

impl<T: Drop> From<AllocFailed<T>> for NoMemory {
    fn from(_: AllocFailed<T>) -> NoMemory {
        NoMemory
    }
}

/// Why a shelf gave no disk.
#[derive(Clone, Copy, Debug, PartialEq, Eq)]
pub enum ShelfError {
    Failed,
    NoMemory,
}

impl From<NoMemory> for ShelfError {
    ghost use Rattle.disk_model.specs.declared.errors.ShelfError.TheVariants.{NoMemory as no_memory};

    ghost from_gives = { λ _ error. error ≡ no_memory };

    fn from(_: NoMemory) -> Self {
        ShelfError::NoMemory
    }
}
