//! Why lines aren't read as entries.

/// `Line`: the line with this number isn't readable. `NoMemory`: memory was refused, and nothing is said of the lines.
#[derive(Clone, Copy)]
pub enum LinesError {
    Line { number: usize },
    NoMemory,
}
