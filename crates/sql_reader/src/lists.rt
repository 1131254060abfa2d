//! Lists of a statement: an item, and more behind commas.
ghost use Rattle.sql_reader.specs.Parsing.{Parser, Reads};
ghost use Rattle.sql_reader.specs.Grammar as spec;

use crate::cursor::Cursor;
use crate::errors::Stop;
use crate::symbols::Symbol;
use seata_types::List;
use std::alloc::Global;

/// An item of a list.
pub trait Item: Sized + Drop {
    // its production
    ghost item: { Parser Self };

    /// The item that stands next.
    fn read(alloc: Global, tokens: &mut Cursor<'_>) -> Result<Self, Stop>
        ensures { Reads (item tokens.old) result tokens.new };
}

/// One item or more.
#[tactic(auto, unfolding(crate::specs::Parsing::more))]
pub fn listed<T: Item>(alloc: Global, tokens: &mut Cursor<'_>) -> Result<List<T>, Stop>
    ensures { Reads (spec.listed T.item tokens.old) result tokens.new }
{
    // Room for one: a SET has seldom more.
    let mut items: Vec<T> = Vec::with_capacity(alloc, 1)?;
    items.push(T::read(alloc, tokens)?)?;
    for _turn in 0..tokens.left() {
        if !tokens.eat(Symbol::Comma) {
            return Ok(List::of(items));
        }
        items.push(T::read(alloc, tokens)?)?;
    }
    Ok(List::of(items))
}
