//! The rules of an entry.
use std::fmt;

/// A rule that an entry may break, in the order in which they are asked: entries rise by number and place, and a message is
/// received at a greater number than it was sent at; the coordinator's clock doesn't fall; the cause can come to the place; the
/// act is one that may happen there; and what was sent goes with it.
#[derive(Clone, Copy, PartialEq, Eq)]
pub enum Rule {
    Stamp,
    Clock,
    Cause,
    Act,
    Sent,
}

impl fmt::Display for Rule {
    ghost use Rattle.std.specs.Prelude.{Some};
    ghost use Rattle.verdict_law.specs.Rules.{rule_text};

    ghost output = { λ rule. Some (rule_text rule) };

    fn fmt<W: fmt::Write>(&self, f: &mut fmt::Formatter<W>) -> fmt::Result {
        match self {
            Rule::Stamp => write!(f, "stamp"),
            Rule::Clock => write!(f, "clock"),
            Rule::Cause => write!(f, "cause"),
            Rule::Act => write!(f, "act"),
            Rule::Sent => write!(f, "sent"),
        }
    }
}
