//! What the disks of a shelf show: the text that the disk `net` keeps is read as a scenario, and what the disks of its nodes
//! hold is read and told. No byte is changed, and each disk is given back.
#![tactic(auto)]

mod bases;
mod before;
mod found;
mod showing;
mod texts;

pub use before::read_before;
pub use found::Shown;
pub use showing::shown;
