//! Numbers of the words.
ghost use Rattle.std.specs.Prelude.{◌≡◌, ◌≤◌, IfSome};
ghost use Rattle.std.specs.Char.{is_ascii_digit};
ghost use Rattle.std.specs.List.{list_all};
ghost use Rattle.lab_words.specs.Grammar as grammar;

use crate::limits::NUMBER_DIGITS;

fn are_digits(digits: &[u8]) -> bool
    ensures { result ≡ list_all is_ascii_digit digits.now }
{
    digits.iter().all(|digit| digit.is_ascii_digit())
}

/// Whether a text is a number.
fn is_number(text: &str) -> bool
    ensures { result ≡ grammar.is_number text.now }
{
    0 < text.len() && text.len() <= NUMBER_DIGITS && are_digits(text.as_bytes())
}

/// The value of a number, where it has 64 bits.
pub fn number_of(text: &str) -> Option<u64>
    ensures { result ≡ grammar.number_of text.now }
{
    if !is_number(text) {
        return None;
    }
    match text.parse::<u64>() {
        Ok(number) => Some(number),
        Err(_) => None,
    }
}

/// The value of a number from 1 on.
#[tactic(auto, unfolding(crate::specs::Grammar::number_up_to))]
pub fn number_up_to(most: u64, text: &str) -> Option<u64>
    ensures value { result ≡ grammar.number_up_to most text.now }
    ensures within { IfSome result (λ n. n ≤ most) }
{
    let number = number_of(text)?;
    if 0 < number && number <= most {
        Some(number)
    } else {
        None
    }
}
