//! Why a test fails.
use seata_types::NoMemory;
use std::alloc::AllocError;

#[derive(Clone, Copy, Debug)]
pub enum Fail {
    NoMemory,
    /// What was found otherwise.
    Other(&'static str),
}

impl From<NoMemory> for Fail {
    fn from(_: NoMemory) -> Fail {
        Fail::NoMemory
    }
}

impl From<AllocError> for Fail {
    fn from(_: AllocError) -> Fail {
        Fail::NoMemory
    }
}
