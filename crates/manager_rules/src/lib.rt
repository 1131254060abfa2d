//! The rules of a transaction manager as code: its settings, and what it says and answers by what it waits for. It knows of no frames,
//! disks or threads.
#![tactic(auto)]

pub mod phases;
pub mod settings;
mod steps;
pub mod talks;

pub use phases::Phase;
pub use settings::Settings;
pub use talks::Talk;
