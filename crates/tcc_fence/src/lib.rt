//! The fences of a resource's TCC branches, after Seata's `tcc_fence_log`: whether a Try, a Confirm or a Cancel may run
//! now, was done already, or is refused. Contracts see them as branches with their fences, in the words in which it is said what a
//! resource's records leave.
#![tactic(auto)]

mod fences;
pub mod laws;
pub mod statuses;

pub use fences::Fence;
pub use statuses::{FenceAnswer, FenceStatus};
