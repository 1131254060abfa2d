//! Copies that may fail: the one error, and the trait of all types here that hold a list or text.
ghost use Rattle.std.specs.Prelude.{◌≡◌, IfOk};

use std::alloc::{AllocError, AllocFailed, Global};

/// Memory was refused. A type of its own, so that no other error is ever merged with it.
#[derive(Clone, Copy, PartialEq, Eq, Debug)]
pub struct NoMemory;

impl From<AllocError> for NoMemory {
    fn from(_: AllocError) -> NoMemory {
        NoMemory
    }
}

impl<T: Drop> From<AllocFailed<T>> for NoMemory {
    fn from(_: AllocFailed<T>) -> NoMemory {
        NoMemory
    }
}

/// A value that can be copied, where memory is there.
pub trait Duplicate {
    /// The same value again.
    fn copy(&self, alloc: Global) -> Result<Self, NoMemory>
    where
        Self: Sized,
        ensures { IfOk result (λ copied. copied ≡ self.now) };
}

impl Duplicate for u16 {
    fn copy(&self, _alloc: Global) -> Result<Self, NoMemory> {
        Ok(*self)
    }
}

impl<A: Duplicate + Drop, B: Duplicate + Drop> Duplicate for (A, B) {
    fn copy(&self, alloc: Global) -> Result<Self, NoMemory> {
        Ok((self.0.copy(alloc)?, self.1.copy(alloc)?))
    }
}

impl<T: Duplicate> Duplicate for Option<T> {
    fn copy(&self, alloc: Global) -> Result<Self, NoMemory> {
        match self {
            Some(value) => Ok(Some(value.copy(alloc)?)),
            None => Ok(None),
        }
    }
}
