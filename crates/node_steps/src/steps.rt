//! What a step gives.
ghost use Rattle.std.specs.Prelude.{◌≡◌};
ghost use Rattle.frame_codec.specs.Limits.{IsFramable};
ghost use Rattle.node_steps.specs.Framing.{SendsFramable};
ghost use Rattle.history_rules.specs.Own as own;

use seata_types::{Act, Message, Outgoing, Place, Step};

/// A step that sends nothing.
pub fn still(act: Act) -> Step
    ensures value { result ≡ own.still act }
    ensures framable { SendsFramable result }
{
    Step { act, sent: None }
}

/// A step that sends a message.
pub fn sends(act: Act, to: Place, message: Message) -> Step
    ensures value { result ≡ own.sends act to message }
    ensures framable { IsFramable message → SendsFramable result }
{
    Step {
        act,
        sent: Some(Outgoing { to, message }),
    }
}
