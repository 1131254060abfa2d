//! Places, by their nodes' names.
ghost use Rattle.std.specs.Prelude.{◌≡◌};
ghost use Rattle.entry_reader.specs.Parts as spec;

use crate::parts::word;
use history_text::Names;
use seata_types::{Place, Text};

/// The number of a name, counted from 1; 0 for none.
#[tactic(auto, unfolding(crate::specs::Parts::number_in))]
pub fn number_in(names: &[Text], text: &[u8]) -> u16
    ensures { result ≡ spec.number_in names.now text.now }
{
    let wanted = word(text);
    let mut number = 1usize;
    for name in names {
        if name.as_str() == wanted {
            return number.min(u16::MAX as usize) as u16;
        }
        number += 1;
    }
    0
}

/// The place with a name.
#[tactic(auto, unfolding(crate::specs::Parts::place_of))]
pub fn place(names: &Names, text: &[u8]) -> Place
    ensures { result ≡ spec.place_of names.now text.now }
{
    if word(text) == "tc" {
        return Place::Tc;
    }
    let resource = number_in(names.resources.as_slice(), text);
    let manager = number_in(names.managers.as_slice(), text);
    match (resource, manager) {
        (0, 0) => Place::Net,
        (0, _) => Place::Man(manager),
        _ => Place::Res(resource),
    }
}
