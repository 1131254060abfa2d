//! What the words ask for.
ghost use Rattle.std.specs.Prelude.{◌≡◌, option_copied, option_map, IfSome};
ghost use Rattle.lab_words.specs.Grammar.{IsInRange, asked, folder_of, order_of};
ghost use Rattle.lab_words.specs.Seen.{seen_asked};

use crate::forms::{order_by, word_of};
use crate::options::Options;
use crate::orders::Order;
use crate::reading::options_of;
use seata_types::Text;

/// What the words ask for, with their options.
#[tactic(auto, unfolding(crate::specs::Grammar::asked))]
fn asked(words: &[Text]) -> Option<(Order, Options<'_>)>
    ensures { option_map seen_asked result ≡ asked words.now }
{
    let [first, rest @ ..] = words else {
        return None;
    };
    let word = word_of(first.as_str())?;
    let given = options_of(rest)?;
    let order = order_by(word, given)?;
    Some((order, given))
}

/// What the words behind the program's name ask for; none where they aren't of the grammar. Takes no memory.
pub fn order(words: &[Text]) -> Option<Order>
    ensures exact { result ≡ order_of words.now }
    ensures ranges { IfSome result IsInRange }
{
    let (order, _) = asked(words)?;
    Some(order)
}

/// The folder of `--store`: that of words of the grammar that have this option, and of no others. Takes no memory.
pub fn store_of(words: &[Text]) -> Option<&str>
    ensures { option_copied result ≡ folder_of words.now }
{
    let (_, given) = asked(words)?;
    given.store
}
