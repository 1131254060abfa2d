//! Numbers of the form: members that are numbers, and numbers in texts.
ghost use Rattle.std.specs.Prelude.{◌≡◌, ◌≤◌, ◌-◌, IfOk, option_map, option_copied};
ghost use Rattle.std.specs.List.{list_all};
ghost use Rattle.serde_json.specs.Find.{get};
ghost use Rattle.serde_json.specs.View.{view};
ghost use Rattle.scenario_reader.specs.Faults.{Answers, member};
ghost use Rattle.scenario_reader.specs.Numbers as numbers;

use crate::errors::ScenarioError;
use serde_json::Value;
use std::alloc::Global;

/// A number of a range.
fn in_range(alloc: Global, least: u64, most: u64, number: u64) -> Result<u64, ScenarioError>
    ensures exact { Answers (numbers.in_range least most number) result }
    ensures within { IfOk result (λ n. n ≤ most) }
    ensures counted { IfOk result (λ n. least ≤ n) }
{
    if number < least {
        return Err(ScenarioError::beyond(alloc, least));
    }
    if most < number {
        return Err(ScenarioError::beyond(alloc, most));
    }
    Ok(number)
}

/// A whole number of a range.
#[tactic(auto, unfolding(crate::specs::Numbers::number_in))]
pub fn number_in(alloc: Global, least: u64, most: u64, value: &Value) -> Result<u64, ScenarioError>
    ensures exact { Answers (numbers.number_in least most (view value.now)) result }
    ensures within { IfOk result (λ n. n ≤ most) }
    ensures counted { IfOk result (λ n. least ≤ n) }
{
    match value.as_u64() {
        Some(number) => in_range(alloc, least, most, number),
        None => match value.as_i64() {
            Some(_) => Err(ScenarioError::beyond(alloc, least)),
            None => Err(ScenarioError::shape(alloc)),
        },
    }
}

/// The same of a member that may be left out.
#[tactic(auto, unfolding(crate::specs::Numbers::number_or))]
fn number_or(
    alloc: Global,
    default: u64,
    least: u64,
    most: u64,
    found: Option<&Value>,
) -> Result<u64, ScenarioError>
    ensures exact { Answers (numbers.number_or default least most (option_map view (option_copied found.entry))) result }
    ensures within { default ≤ most → IfOk result (λ n. n ≤ most) }
    ensures counted { least ≤ default → IfOk result (λ n. least ≤ n) }
{
    match found {
        Some(value) => number_in(alloc, least, most, value),
        None => Ok(default),
    }
}

/// A member that is a number of a range, with its default where it is left out.
pub fn number_member(
    alloc: Global,
    name: &str,
    default: u64,
    least: u64,
    most: u64,
    value: &Value,
) -> Result<u64, ScenarioError>
    ensures exact { Answers (member name.now (numbers.number_or default least most) (view value.now)) result }
    ensures within { default ≤ most → IfOk result (λ n. n ≤ most) }
    ensures counted { least ≤ default → IfOk result (λ n. least ≤ n) }
{
    match number_or(alloc, default, least, most, value.get(name)) {
        Ok(number) => Ok(number),
        Err(fault) => Err(fault.in_member(alloc, name)),
    }
}

fn are_digits(digits: &[u8]) -> bool
    ensures { result ≡ list_all numbers.is_digit digits.now }
{
    digits.iter().all(|digit| digit.is_ascii_digit())
}

/// Whether a text is a plain decimal number.
pub fn is_plain(text: &str) -> bool
    ensures { result ≡ numbers.is_plain text.now }
{
    match text.as_bytes() {
        [] => false,
        [digit] => digit.is_ascii_digit(),
        [first, rest @ ..] => b'1' <= *first && *first <= b'9' && are_digits(rest),
    }
}

/// The number of a text of digits, up to the greatest of 64 bits.
pub fn number_of_text(digits: &[u8]) -> u64
    ensures { result ≡ numbers.number_of_text digits.now }
{
    let mut number = 0u64;
    for digit in digits {
        number = number
            .saturating_mul(10)
            .saturating_add((*digit as u64).saturating_sub(b'0' as u64));
    }
    number
}

/// A plain decimal number of a range.
#[tactic(auto, unfolding(crate::specs::Numbers::plain_number))]
pub fn plain_number(alloc: Global, least: u64, most: u64, text: &str) -> Result<u64, ScenarioError>
    ensures exact { Answers (numbers.plain_number least most text.now) result }
    ensures within { IfOk result (λ n. n ≤ most) }
    ensures counted { IfOk result (λ n. least ≤ n) }
{
    in_range(alloc, least, most, number_of_text(text.as_bytes()))
}
