//! The nodes of a scenario on the disks of a shelf: how each is opened, and how its disks are given back.
#![tactic(auto)]

mod closings;
mod coordinators;
mod disks;
mod laws;
mod loading;
mod managers;
mod openings;
pub mod reading;
pub mod servers;
mod setups;
mod types;

pub use closings::close_servers;
pub use laws::unused_shelves_hold_none;
pub use managers::new_manager;
pub use openings::{open_servers, second_names};
pub use reading::{Memories, read_servers};
pub use servers::Servers;
