//! The draws of a number.
ghost use Rattle.std.specs.Prelude.{◌≡◌, ◌+◌, ℕ};
ghost use Rattle.scenario_maker.specs.Draws.{after, draw, plan};

use crate::plans::Plan;

/// Each draw is the one before it times this factor, modulo a prime.
const FACTOR: u64 = 48_271;

const MODULUS: u64 = 2_147_483_647;

/// The draws of a number, one after the other.
#[derive(Drop)]
pub(crate) struct Draws {
    last: u32,
}

impl Draws {
    /// The draws of a number, before the first.
    #[tactic(auto, unfolding(crate::specs::Draws::draw))]
    pub(crate) fn of(number: u64) -> Draws
        ensures { result.last ≡ draw number 0 }
    {
        Draws {
            last: (number % (MODULUS - 1) + 1) as u32,
        }
    }

    /// The next draw.
    fn next(&mut self) -> u32
        ensures value { result ≡ after self.old.last }
        ensures last { self.new.last ≡ result }
    {
        self.last = (u64::from(self.last) * FACTOR % MODULUS) as u32;
        self.last
    }

    /// What the next seven draws say.
    pub(crate) fn plan(&mut self) -> Plan
        ensures { (number k : ℕ) → self.old.last ≡ draw number k → (result ≡ plan number k) × (self.new.last ≡ draw number (k + 7)) }
    {
        Plan {
            first: self.next() % 4 + 1,
            second: self.next() % 4 + 1,
            payer: self.next() % 8 + 1,
            payee: self.next() % 8 + 1,
            amount: self.next() % 50 + 1,
            reserves: self.next() % 4 == 0,
            rolls_back: self.next() % 8 == 0,
        }
    }
}
