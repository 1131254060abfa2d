//! The JSON form that scenarios are read from.
//! `read` accepts exactly the form of docs/SCENARIO.md and names the first cause otherwise.
#![tactic(auto)]

mod bases;
mod calls;
mod errors;
mod forms;
mod managers;
mod names;
mod nodes;
mod numbers;
mod reading;
mod resources;
mod rows;
mod schedules;
mod settings;
mod shapes;
mod statements;
mod tables;

pub use errors::ScenarioError;
pub use reading::read;
pub use scenario_form::{ManagerDef, ResourceDef, Scenario, ScheduleItem};
