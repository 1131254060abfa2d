//! A text in quotes.
ghost use Rattle.std.specs.Prelude.{◌≡◌, ◌≤◌, length, option_map, IfOk, IfSome};
ghost use Rattle.std.specs.Str.{IsUtf8};
ghost use Rattle.sql_reader.specs.Texts as spec;

use crate::bytes::byte;
use seata_types::{NoMemory, Text};
use std::alloc::Global;
use std::marker::Model;

/// A text in quotes where it stands in the text that is read. Contracts see its value.
#[derive(Drop)]
pub struct Quote<'a> {
    // what follows the opening quote
    rest: &'a str,
}

impl<'a> Model for Quote<'a> {
    ghost use Rattle.std.specs.Prelude.{List as Items, ℕ};
    ghost use Rattle.sql_reader.specs.Texts.{value_at};

    ghost Value = { Items ℕ };

    ghost view = { λ q. value_at q.rest.now };
}

impl<'a> Quote<'a> {
    /// The text whose opening quote stands before these bytes.
    pub fn before(rest: &'a str) -> Quote<'a>
        ensures { result ≡ spec.value_at rest.now }
    {
        Quote { rest }
    }

    /// The value's own copy.
    pub fn to_text(&self, alloc: Global) -> Result<Text, NoMemory>
        ensures { IfOk result (λ text. text ≡ self.now) }
    {
        text_value(alloc, self.rest)
    }
}

/// The text that UTF-8 bytes spell.
fn utf8_text(bytes: Vec<u8>) -> Text
    requires { IsUtf8 bytes.items }
    ensures { result ≡ bytes.items }
{
    Text::of(String::from_utf8(bytes).unwrap())
}

/// The value of a text, by what follows its opening quote, and how many bytes it takes from there
/// on; none where it isn't closed.
fn value_bytes(alloc: Global, z: &[u8]) -> Result<Option<(Vec<u8>, usize)>, NoMemory>
    ensures value { IfOk result (λ found. option_map (λ f. (f.0.items, f.1)) found ≡ spec.text_at z.now) }
    ensures within { IfOk result (λ found. IfSome found (λ f. f.1 ≤ length z.now)) }
{
    let mut value = Vec::new(alloc);
    let mut at = 0;
    while at < z.len() {
        if z[at] == b'\'' {
            at += 1;
            if byte(z, at) != b'\'' {
                return Ok(Some((value, at)));
            }
        }
        value.push(z[at])?;
        at += 1;
    }
    Ok(None)
}

/// The value of a text, by what follows its opening quote; nothing where it isn't closed.
fn text_value(alloc: Global, rest: &str) -> Result<Text, NoMemory>
    ensures { IfOk result (λ text. text ≡ spec.value_at rest.now) }
{
    match value_bytes(alloc, rest.as_bytes())? {
        Some((value, _bytes)) => Ok(utf8_text(value)),
        None => Ok(Text::of(String::new(alloc))),
    }
}
