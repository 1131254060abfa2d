//! Local transactions outside of any global one. A guarded one asks the coordinator for its rows first, as
//! with Seata's `@GlobalLock`: it commits at the answer that no transaction holds one, and is dropped at the answer that
//! one does; an outside write doesn't ask. Each call is a line of a resource's rules.
#![tactic(auto)]

pub mod answers;
mod guarded;
mod outside_writes;

pub use answers::OutsideError;
pub use guarded::{on_free, on_held, open_local};
pub use outside_writes::outside;
