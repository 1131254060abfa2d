//! What a judge of printed histories goes by of a node's disk: whether the node is down, how many calls a stop still lets pass, and
//! what was in flight. It tells what a node does by itself, and how an entry may show what the node's rule answers.
#![tactic(auto)]

mod calls;
pub mod devices;
mod entries;
pub mod events;
pub mod limits;
mod looks;
mod restarts;
pub mod shown;
mod steps;

pub use devices::Device;
pub use events::Event;
pub use looks::{act_of, same_act};
pub use restarts::given_in;
pub use shown::{Back, Plain, Shown};
pub use steps::still;
