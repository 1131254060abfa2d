//! The histories of a scenario: its nodes and its schedule in the words of the rules of all nodes, the
//! entries and the report that are printed of a history.
#![tactic(auto)]

mod acts;
mod causes;
mod durables;
pub mod entries;
pub mod laws;
pub mod lines;
mod locks;
mod messages;
pub mod notes;
mod origins;
mod parts;
mod reasons;
mod words;

pub use entries::{Cause, Entry, Names, Origin, Sent};
pub use lines::{add_entry, put_entry, put_key, put_note, put_place, put_row, write_entry};
pub use messages::add_note;
pub use notes::{Note, note_of};
pub use origins::origin_of;
pub use parts::{add_key, add_place, add_row};
