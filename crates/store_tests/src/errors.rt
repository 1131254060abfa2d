//! Why a test fails.
use seata_types::NoMemory;

#[derive(Clone, Copy, Debug)]
pub enum Fail {
    NoMemory,
    /// What was found otherwise.
    Other(&'static str),
}

impl From<NoMemory> for Fail {
    fn from(_: NoMemory) -> Fail {
        Fail::NoMemory
    }
}
