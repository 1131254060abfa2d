//! The tables of a resource, what statements do to them, and images put on them. A statement's effect says what a call
//! would do and changes nothing; `Tables::apply` then puts its images, or takes them back.
#![tactic(auto)]

mod applying;
mod checking;
mod conditions;
mod effects;
mod expressions;
mod fitting;
pub mod laws;
mod maps;
mod matching;
mod refusing;
mod row_map;
pub mod schemas;
mod state;
mod steps;
mod tables;
mod touching;
mod typing;

pub use fitting::{is_image, is_read, row_key};
pub use schemas::{ColType, Effect, EffectError, Schema, TableDef, Way};
pub use tables::Tables;
