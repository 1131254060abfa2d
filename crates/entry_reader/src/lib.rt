//! Reads the printed line of an entry. A line is cut into pieces, each piece is read as something,
//! and the entry that comes out is written again: what is answered has exactly this line, and what
//! is refused no entry has. Definitions: `specs/Reading` (what is answered), `specs/Writable` (which
//! entries are printed), `specs/Types` (what their types say), `specs/Cuts` and the others (the
//! entry that a line looks like).
#![tactic(auto)]

mod acts;
mod causes;
mod cutting;
mod durables;
mod errors;
mod laws;
mod lines;
mod notes;
mod parts;
mod pieces;
mod places;
mod reading;
mod reasons;
mod values;
mod writable;

pub use errors::LineError;
pub use laws::printed_lines_read_back;
pub use lines::read_entry;
