//! Images of rows: joined over two lists of statements, compared with the present row, and turned round to undo them.
#![tactic(auto)]

mod compared;
mod joined;
pub mod laws;
mod undone;

pub use compared::differs;
pub use joined::join;
pub use undone::undo_of;
