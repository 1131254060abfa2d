//! Disks in files: a shelf over a folder, in which each disk is a file of its name. They tell no byte, since no contract
//! can say what a file gives back: the system has to return what was written, and nobody else may write in the folder.
#![tactic(auto)]

mod disks;
mod shelves;

pub use disks::FileDisk;
pub use shelves::FileShelf;
