//! A step that sends nothing.
ghost use Rattle.std.specs.Prelude.{◌≡◌};
ghost use Rattle.history_rules.specs.Own as own;

use seata_types::{Act, Step};

/// An act with which nothing is sent.
pub fn still(act: Act) -> Step
    ensures { result ≡ own.still act }
{
    Step { act, sent: None }
}
