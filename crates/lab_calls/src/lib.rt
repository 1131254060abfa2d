//! The calls of the program `seata_lab`, over any source, sink and shelf: one replay, one run on threads, one listing of frames,
//! one made scenario, one look at what disks hold, one audit of a report, and what its words ask for.
#![tactic(auto)]

mod answers;
mod auditing;
mod frames;
mod laws;
mod listings;
mod making;
mod memory;
mod played;
mod showing;
mod standard;
mod statuses;
mod streams;
mod stressing;
mod tasks;
mod tops;
mod transfer;
mod words;

pub use laws::{frames_have_their_lines, kept_calls_go_on, new_shelves_begin_kept};
pub use memory::{MemSink, MemSource};
pub use standard::{StdSink, StdSource};
pub use statuses::MEMORY;
pub use streams::{Failed, Sink, Source};
pub use tasks::Task;
pub use thread_runner::{Gate, OpenGate};
pub use tops::{
    audit_once, frames_once, make_once, replay_once, run_once, show_once, stress_once, top,
};
