//! The report of a history, from its scenario, what its disks held before, and its entries alone. The entries are read once, from
//! the first to the last: what their records say at each node is kept, and the sections are printed of that.
#![tactic(auto)]

mod before;
mod coordinator;
mod folding;
mod kept;
pub mod laws;
mod left;
mod numbers;
mod open_works;
mod records;
mod reports;
mod resources;
mod scenarios;
mod sections;
mod sent;
mod totals;

pub use before::Before;
pub use kept::{OpenWork, Totals};
pub use reports::{node_names, write_report, write_state};
pub use totals::count_history;
