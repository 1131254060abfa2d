//! What a call of the program does.

/// What is done for words.
#[derive(Clone, Copy)]
pub enum Task {
    Replay,
    /// A run on so many threads.
    Run {
        workers: u32,
    },
    Frames,
    Make {
        number: u64,
        size: u32,
    },
    /// A run of the scenario that is made of a number and a size, on so many threads.
    Stress {
        number: u64,
        size: u32,
        workers: u32,
    },
    /// What the disks of a shelf hold.
    Show,
    /// The judgement of a report.
    Audit,
    /// The usage line, for words outside the grammar.
    Usage,
}
