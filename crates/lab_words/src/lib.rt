//! The grammar of the program's words: a word that says what is done, and options behind it, in any order, each at most once. It
//! is read without memory.
#![tactic(auto)]

mod asking;
mod forms;
pub mod laws;
mod limits;
mod numbers;
mod options;
mod orders;
mod reading;
mod values;

pub use asking::{order, store_of};
pub use orders::Order;
