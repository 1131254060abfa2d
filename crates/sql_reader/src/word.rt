//! A name in a text.
ghost use Rattle.std.specs.Prelude.{◌≡◌, IfOk};

use seata_types::{NoMemory, Text};
use std::alloc::Global;
use std::marker::Model;

/// A name where it stands in the text that is read. Contracts see its bytes.
#[derive(Drop)]
pub struct Word<'a> {
    text: &'a str,
}

impl<'a> Model for Word<'a> {
    ghost use Rattle.std.specs.Prelude.{List as Items, ℕ};

    ghost Value = { Items ℕ };

    ghost view = { λ w. w.text.now };
}

impl<'a> Word<'a> {
    pub fn of(text: &'a str) -> Word<'a>
        ensures { result ≡ text.now }
    {
        Word { text }
    }

    /// The name's own copy.
    pub fn to_text(&self, alloc: Global) -> Result<Text, NoMemory>
        ensures { IfOk result (λ name. name ≡ self.now) }
    {
        let name = String::from_str(alloc, self.text)?;
        Ok(Text::of(name))
    }
}
