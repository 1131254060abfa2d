//! Calls on a resource's store that answer by the rules: the record that an answer of `resource_rules` asks for is made, and what
//! the call tells is read off its act.
#![tactic(auto)]

mod carrying;

pub use carrying::carry_out;
