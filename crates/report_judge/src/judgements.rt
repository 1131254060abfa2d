//! What is found of an input.

use scenario_reader::ScenarioError;
use verdict_law::Rule;

/// What is found of an input, by the first cause that is met.
#[derive(Drop)]
pub enum Judgement {
    /// More bytes than are read.
    TooLong,
    /// A first line that is no scenario.
    NoScenario { error: ScenarioError },
    /// A line that isn't readable, by its number, counted from 1.
    Unreadable { line: usize },
    /// An entry that breaks a rule after those before it, by its number, counted from 1, with the first rule that it breaks.
    Illegal { number: usize, rule: Rule },
    /// Entries of a legal history, in a text that isn't its report.
    IllegalReport,
    /// The report of a legal history.
    Legal,
}
