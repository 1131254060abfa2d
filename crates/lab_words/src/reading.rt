//! The options that words spell.
ghost use Rattle.std.specs.Prelude.{◌≡◌, option_map};
ghost use Rattle.lab_words.specs.Grammar as grammar;
ghost use Rattle.lab_words.specs.Seen.{seen, seen_reading, settled_by, step};

use crate::options::{Options, Reading};
use crate::values::with_option;
use seata_types::Text;

/// Whether a word is a name and its value.
fn has_equals(word: &str) -> bool
    ensures { result ≡ grammar.has_equals word.now }
{
    word.as_bytes().iter().any(|byte| *byte == b'=')
}

/// The two of such a word, around the first `=`.
fn cut(word: &str) -> (&str, &str)
    ensures name { result.0.now ≡ grammar.name_in word.now }
    ensures value { result.1.now ≡ grammar.value_in word.now }
{
    word.split_once('=').unwrap_or((word, ""))
}

/// One value more, behind which a name stands next.
fn settled<'a>(options: Options<'a>, name: &str, value: &'a str) -> Option<Reading<'a>>
    ensures { option_map seen_reading result
        ≡ settled_by (seen options.entry) name.now value.now }
{
    let options = with_option(options, name, value)?;
    Some(Reading {
        options,
        waiting: None,
    })
}

/// Takes the next word: the value that is waited for, a name with its value, or a name that waits for it.
fn step<'a>(reading: Reading<'a>, word: &'a str) -> Option<Reading<'a>>
    ensures { option_map seen_reading result ≡ step (seen_reading reading.entry) word.now }
{
    let Reading { options, waiting } = reading;
    if let Some(name) = waiting {
        return settled(options, name, word);
    }
    if has_equals(word) {
        let (name, value) = cut(word);
        return settled(options, name, value);
    }
    Some(Reading {
        options,
        waiting: Some(word),
    })
}

/// The values of the options that words spell.
pub fn options_of(words: &[Text]) -> Option<Options<'_>>
    ensures { option_map seen result ≡ grammar.options_of words.now }
{
    let mut reading = Reading {
        options: Options {
            store: None,
            number: None,
            size: None,
            workers: None,
        },
        waiting: None,
    };
    for word in words {
        reading = step(reading, word.as_str())?;
    }
    match reading.waiting {
        Some(_) => None,
        None => Some(reading.options),
    }
}
