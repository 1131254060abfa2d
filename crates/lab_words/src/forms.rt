//! What each word asks for, and with which options.
ghost use Rattle.std.specs.Prelude.{◌≡◌};
ghost use Rattle.lab_words.specs.Grammar as grammar;
ghost use Rattle.lab_words.specs.Seen.{seen};

use crate::limits::USUAL_WORKERS;
use crate::options::{Form, Options, Rule};
use crate::orders::{Order, Word};
use crate::values::has_store;

/// The word that a text is.
#[tactic(auto, unfolding(crate::specs::Grammar::word_of))]
pub fn word_of(text: &str) -> Option<Word>
    ensures { result ≡ grammar.word_of text.now }
{
    match text {
        "replay" => Some(Word::Replay),
        "frames" => Some(Word::Frames),
        "run" => Some(Word::Run),
        "make" => Some(Word::Make),
        "stress" => Some(Word::Stress),
        "audit" => Some(Word::Audit),
        "show" => Some(Word::Show),
        _ => None,
    }
}

/// What a word says of the options.
fn form_of(word: Word) -> Form
    ensures { result ≡ grammar.form_of word }
{
    let bare = Form {
        store: Rule::Refused,
        number: Rule::Refused,
        size: Rule::Refused,
        workers: Rule::Refused,
    };
    match word {
        Word::Replay => Form {
            store: Rule::Allowed,
            ..bare
        },
        Word::Frames => bare,
        Word::Run => Form {
            store: Rule::Allowed,
            workers: Rule::Allowed,
            ..bare
        },
        Word::Make => Form {
            number: Rule::Needed,
            size: Rule::Needed,
            ..bare
        },
        Word::Stress => Form {
            number: Rule::Needed,
            size: Rule::Needed,
            workers: Rule::Allowed,
            ..bare
        },
        Word::Audit => bare,
        Word::Show => Form {
            store: Rule::Needed,
            ..bare
        },
    }
}

/// Whether an option keeps the rule.
fn keeps(rule: Rule, is_given: bool) -> bool
    ensures { result ≡ grammar.keeps rule is_given }
{
    match rule {
        Rule::Needed => is_given,
        Rule::Allowed => true,
        Rule::Refused => !is_given,
    }
}

/// Whether each option does.
fn keep_all(form: Form, given: Options<'_>) -> bool
    ensures { result ≡ grammar.keep_all form (seen given.entry) }
{
    keeps(form.store, has_store(given))
        && keeps(form.number, given.number.is_some())
        && keeps(form.size, given.size.is_some())
        && keeps(form.workers, given.workers.is_some())
}

/// What a word asks for with the values of its options.
#[tactic(auto, unfolding(crate::specs::Grammar::asked_by))]
fn asked_by(word: Word, given: Options<'_>) -> Option<Order>
    ensures { result ≡ grammar.asked_by word (seen given.entry) }
{
    let workers = given.workers.unwrap_or(USUAL_WORKERS);
    match word {
        Word::Replay => Some(Order::Replay),
        Word::Frames => Some(Order::Frames),
        Word::Run => Some(Order::Run { workers }),
        Word::Make => {
            let number = given.number?;
            let size = given.size?;
            Some(Order::Make { number, size })
        }
        Word::Stress => {
            let number = given.number?;
            let size = given.size?;
            Some(Order::Stress {
                number,
                size,
                workers,
            })
        }
        Word::Audit => Some(Order::Audit),
        Word::Show => Some(Order::Show),
    }
}

/// The same, where the options are those of the word.
#[tactic(auto, unfolding(crate::specs::Grammar::order_by))]
pub fn order_by(word: Word, given: Options<'_>) -> Option<Order>
    ensures { result ≡ grammar.order_by word (seen given.entry) }
{
    if keep_all(form_of(word), given) {
        asked_by(word, given)
    } else {
        None
    }
}
