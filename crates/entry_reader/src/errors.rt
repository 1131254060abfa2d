//! Why a line isn't read.

/// `Refused`: no entry is printed as this line. `NoMemory`: memory was refused, and nothing is said
/// of the line.
#[derive(Clone, Copy, PartialEq, Eq, Debug)]
pub enum LineError {
    Refused,
    NoMemory,
}
