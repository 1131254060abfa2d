//! The values of options.
ghost use Rattle.std.specs.Prelude.{◌≡◌, is_some, option_map};
ghost use Rattle.lab_words.specs.Grammar as grammar;
ghost use Rattle.lab_words.specs.Seen.{seen};

use crate::limits::{FOLDER_BYTES, MOST_SIZE, MOST_WORKERS};
use crate::numbers::{number_of, number_up_to};
use crate::options::Options;

/// Whether a text is a folder.
fn is_folder(text: &str) -> bool
    ensures { result ≡ grammar.is_folder text.now }
{
    match text.as_bytes() {
        [] => false,
        [first, rest @ ..] => *first != b'-' && rest.len() < FOLDER_BYTES,
    }
}

/// Whether there is a folder.
pub fn has_store(given: Options<'_>) -> bool
    ensures { result ≡ is_some (seen given.entry).store }
{
    given.store.is_some()
}

#[tactic(auto, unfolding(crate::specs::Grammar::with_store))]
fn with_store<'a>(given: Options<'a>, text: &'a str) -> Option<Options<'a>>
    ensures { option_map seen result ≡ grammar.with_store (seen given.entry) text.now }
{
    if has_store(given) {
        return None;
    }
    if !is_folder(text) {
        return None;
    }
    Some(Options {
        store: Some(text),
        ..given
    })
}

#[tactic(auto, unfolding(crate::specs::Grammar::with_number))]
fn with_number<'a>(given: Options<'a>, text: &str) -> Option<Options<'a>>
    ensures { option_map seen result ≡ grammar.with_number (seen given.entry) text.now }
{
    if given.number.is_some() {
        return None;
    }
    let number = number_of(text)?;
    Some(Options {
        number: Some(number),
        ..given
    })
}

#[tactic(auto, unfolding(crate::specs::Grammar::with_size))]
fn with_size<'a>(given: Options<'a>, text: &str) -> Option<Options<'a>>
    ensures { option_map seen result ≡ grammar.with_size (seen given.entry) text.now }
{
    if given.size.is_some() {
        return None;
    }
    let size = number_up_to(MOST_SIZE, text)? as u32;
    Some(Options {
        size: Some(size),
        ..given
    })
}

#[tactic(auto, unfolding(crate::specs::Grammar::with_workers))]
fn with_workers<'a>(given: Options<'a>, text: &str) -> Option<Options<'a>>
    ensures { option_map seen result ≡ grammar.with_workers (seen given.entry) text.now }
{
    if given.workers.is_some() {
        return None;
    }
    let workers = number_up_to(MOST_WORKERS, text)? as u32;
    Some(Options {
        workers: Some(workers),
        ..given
    })
}

/// One value more, of the option of this name, which had none.
#[tactic(auto, unfolding(crate::specs::Grammar::with_option))]
pub fn with_option<'a>(given: Options<'a>, name: &str, text: &'a str) -> Option<Options<'a>>
    ensures { option_map seen result ≡ grammar.with_option (seen given.entry) name.now text.now }
{
    match name {
        "--store" => with_store(given, text),
        "--number" => with_number(given, text),
        "--size" => with_size(given, text),
        "--workers" => with_workers(given, text),
        _ => None,
    }
}
