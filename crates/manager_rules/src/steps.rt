//! What a step gives.
ghost use Rattle.std.specs.Prelude.{◌≡◌};
ghost use Rattle.history_rules.specs.Own as own;

use seata_types::{Act, Message, Outgoing, Place, Step};

/// A step that sends nothing.
pub(crate) fn still(act: Act) -> Step
    ensures { result ≡ own.still act }
{
    Step { act, sent: None }
}

/// A step that sends a message.
pub(crate) fn sends(act: Act, to: Place, message: Message) -> Step
    ensures { result ≡ own.sends act to message }
{
    Step {
        act,
        sent: Some(Outgoing { to, message }),
    }
}
