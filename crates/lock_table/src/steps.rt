//! How many steps a call took. Counting has no cost when it runs.
ghost use Rattle.std.specs.Prelude.{◌≡◌, ◌+◌, ◌<◌, ℕ, Bool, if◌then◌else◌};

use std::marker::Model;
use std::sync::ledger::{Blank, Book, Ledger, Share};

/// A count of steps, which only a tick changes. It takes no bytes.
#[derive(Drop)]
pub struct Steps<L: Ledger> {
    book: Book<L>,
    share: Share<L>,
}

impl<L: Ledger> Model for Steps<L> {
    ghost use Rattle.std.specs.Prelude.{ℕ, ◌<◌};

    ghost Value = { ℕ };

    ghost view = { λ s. s.book.total };

    ghost invariant = { λ s. 0 < s.share.parts };
}

impl<L: Ledger> Steps<L> {
    /// No steps so far.
    pub fn new(blank: Blank) -> Steps<L>
        requires name { blank.name ≡ L.name }
        requires parts { blank.parts ≡ L.parts }
        requires some { 0 < blank.parts }
        ensures { result ≡ 0 }
    {
        let (book, share) = blank.open::<L>();
        Steps { book, share }
    }

    /// One step more.
    pub fn tick(&mut self)
        ensures { self.new ≡ self.old + 1 }
    {
        self.book.add(&mut self.share, 1);
    }
}

/// Who is told of each step.
pub(crate) trait Count {
    ghost count: { Self → ℕ };

    // whether somebody counts
    ghost counts: { Bool };

    fn step(&mut self)
        ensures { count self.new ≡ (if counts then count self.old + 1 else count self.old) };
}

impl<L: Ledger> Count for Steps<L> {
    ghost use Rattle.std.specs.Prelude.{true};

    ghost count = { λ s. s };

    ghost counts = { true };

    fn step(&mut self) {
        self.tick();
    }
}

/// Tells nobody.
#[derive(Drop)]
pub(crate) struct Uncounted;

impl Count for Uncounted {
    ghost use Rattle.std.specs.Prelude.{false};

    ghost count = { λ u. 0 };

    ghost counts = { false };

    fn step(&mut self) {}
}
