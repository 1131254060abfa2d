//! A resource: it answers by its rules, over its store on two disks, and is a node.
#![tactic(auto)]

pub mod branches;
pub mod laws;
pub mod nodes;
pub mod opening;
pub mod setup;

pub use branches::Branches;
pub use nodes::Resource;
pub use opening::Loaded;
pub use setup::Setup;
