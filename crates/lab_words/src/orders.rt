//! What the words may ask for.

/// What the words ask for. The folder of `--store` is apart, see `store_of`.
#[derive(Clone, Copy)]
pub enum Order {
    Replay,
    Frames,
    /// A run on so many threads.
    Run {
        workers: u32,
    },
    /// The scenario that is made of a number, with so many managers.
    Make {
        number: u64,
        size: u32,
    },
    /// Such a scenario, run on so many threads.
    Stress {
        number: u64,
        size: u32,
        workers: u32,
    },
    Audit,
    Show,
}

/// The word in front.
#[derive(Clone, Copy)]
pub(crate) enum Word {
    Replay,
    Frames,
    Run,
    Make,
    Stress,
    Audit,
    Show,
}
