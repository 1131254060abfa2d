//! The limits of the words; this project's own.

/// Digits of a number.
pub const NUMBER_DIGITS: usize = 20;
/// Managers of a made scenario; the least is 1.
pub const MOST_SIZE: u64 = 256;
/// Threads of a run; the least is 1.
pub const MOST_WORKERS: u64 = 16;
/// Threads of a run where the words don't say.
pub const USUAL_WORKERS: u32 = 2;
/// The text of a folder, in bytes; the least is 1.
pub const FOLDER_BYTES: usize = 200;
