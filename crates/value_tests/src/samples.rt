//! What several tests share: why a test fails, texts, and copies whose originals are dropped at once.
ghost use Rattle.std.specs.Prelude.{◌≡◌, IfOk};

use seata_types::{Duplicate, NoMemory, Text};
use std::alloc::{AllocError, AllocFailed, Global};
use std::fmt;

/// Why a test fails.
#[derive(Clone, Copy, Debug)]
pub enum Fail {
    NoMemory,
    /// A call failed that was to pass.
    Failed,
    /// This isn't so.
    Differs(&'static str),
}

impl From<NoMemory> for Fail {
    fn from(_: NoMemory) -> Fail {
        Fail::NoMemory
    }
}

impl From<AllocError> for Fail {
    fn from(_: AllocError) -> Fail {
        Fail::NoMemory
    }
}

impl<T: Drop> From<AllocFailed<T>> for Fail {
    fn from(_: AllocFailed<T>) -> Fail {
        Fail::NoMemory
    }
}

impl From<fmt::Error> for Fail {
    fn from(_: fmt::Error) -> Fail {
        Fail::NoMemory
    }
}

/// A test of what a name says.
pub fn so(is: bool, what: &'static str) -> Result<(), Fail> {
    if is { Ok(()) } else { Err(Fail::Differs(what)) }
}

pub fn text(alloc: Global, word: &str) -> Result<Text, Fail>
    ensures { IfOk result (λ text. text ≡ word.now) }
{
    Ok(Text::of(String::from_str(alloc, word)?))
}

/// A copy, made in the place of its original.
pub fn copied<T: Duplicate + Drop>(alloc: Global, value: T) -> Result<T, NoMemory>
    ensures { IfOk result (λ copy. copy ≡ value) }
{
    value.copy(alloc)
}
