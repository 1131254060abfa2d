//! The statuses of the program; this project's own.

/// The text asked for was written.
pub const DONE: u8 = 0;

/// The words are outside the grammar.
pub const WORDS: u8 = 2;

/// The input is no scenario, or too long; or disks are another scenario's.
pub const INPUT: u8 = 3;

/// The source failed.
pub const SOURCE: u8 = 4;

/// The sink failed.
pub const SINK: u8 = 5;

/// Memory was refused.
pub const MEMORY: u8 = 6;

/// A disk wasn't had, or failed at an opening or in a restart.
pub const STORE: u8 = 7;

/// A record would pass the end of its disk.
pub const FULL: u8 = 8;

/// A disk has bytes that are none of its records.
pub const DAMAGED: u8 = 9;

/// A report is none of a legal history.
pub const ILLEGAL: u8 = 10;
