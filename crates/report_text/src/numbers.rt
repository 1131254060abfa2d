//! Small numbers, each found by what it belongs to.
use seata_types::NoMemory;
use std::alloc::Global;
use std::collections::BTreeMap;
use std::marker::Model;

/// Small numbers by the numbers of what they belong to. Contracts see these in rising order.
#[derive(Drop)]
pub(crate) struct Numbers {
    numbers: BTreeMap<u64, u16>,
}

impl Model for Numbers {
    ghost use Rattle.std.specs.Prelude.{ℕ, List as Items};

    ghost Value = { Items (ℕ × ℕ) };

    ghost view = { λ n. n.numbers.entries };
}

impl Numbers {
    ghost use Rattle.std.specs.Prelude.{◌≡◌, [], OnOk};
    ghost use Rattle.report_text.specs.Keeping.{number_at, with_number};

    /// No number; takes no memory.
    pub(crate) fn new(alloc: Global) -> Numbers
        ensures { result ≡ [] }
    {
        Numbers {
            numbers: BTreeMap::new(alloc),
        }
    }

    /// One more number, in place of that before it.
    pub(crate) fn add(&mut self, of: u64, number: u16) -> Result<(), NoMemory>
        ensures { OnOk result (self.new ≡ with_number self.old of number) }
    {
        self.numbers.insert(of, number)?;
        Ok(())
    }

    /// The number of this one, 0 where there is none; takes no memory.
    pub(crate) fn at(&self, of: u64) -> u16
        ensures { result ≡ number_at self.now of }
    {
        self.numbers.get(&of).copied().unwrap_or(0)
    }
}
