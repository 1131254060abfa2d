//! What the disks of a coordinator and of a resource keep: the records, one for each durable act, as plain types. What a
//! list of them says (transactions, branches, locks, rows, undo records, fences) is in `specs/`.
#![tactic(auto)]

pub mod coordinators;
pub mod numbers;
pub mod resources;

pub use coordinators::SessionRecord;
pub use numbers::is_counted;
pub use resources::ResourceRecord;
