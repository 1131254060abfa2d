//! A part of a condition.
ghost use Rattle.std.specs.Prelude.{◌≡◌};

use seata_types::Cond;
use std::marker::Model;

/// A part of a condition where it stands. Contracts see its tree.
#[derive(Drop)]
pub struct Part<'a> {
    cond: &'a Cond,
}

impl<'a> Model for Part<'a> {
    ghost use Rattle.seata_types.specs.Condition.{Condition, coded_condition, nodes};

    ghost Value = { Condition };

    ghost coded = { coded_condition };

    ghost view = { λ p. p.cond.now };

    ghost size = { nodes };
}

impl<'a> Part<'a> {
    pub fn of(cond: &'a Cond) -> Part<'a>
        ensures { result ≡ cond.now }
    {
        Part { cond }
    }

    pub fn cond(&self) -> &'a Cond
        ensures { result.now ≡ self.now }
    {
        self.cond
    }
}
