//! The answers that a coordinator gives, by their acts and what they send.
ghost use Rattle.std.specs.Prelude.{◌≡◌};
ghost use Rattle.frame_codec.specs.Limits.{IsFramable};
ghost use Rattle.history_rules.specs.Own as own;
ghost use Rattle.coordinator_rules.specs.Answers.{answer, later};
ghost use Rattle.coordinator_rules.specs.Framing.{SendsFramable};

use crate::answers::Answer;
use durable_records::SessionRecord;
use seata_types::{Act, Message, Outgoing, Place, Step, Xid};

/// Nothing is sent.
pub(crate) fn rests(act: Act, asked: Option<SessionRecord>) -> Answer
    ensures { result ≡ answer asked (own.still act) }
{
    Answer {
        step: Step { act, sent: None },
        asked,
        again: None,
    }
}

/// A message is sent.
pub(crate) fn sends(act: Act, to: Place, message: Message, asked: Option<SessionRecord>) -> Answer
    ensures value { result ≡ answer asked (own.sends act to message) }
    ensures framable { IsFramable message → SendsFramable result.step }
{
    Answer {
        step: Step {
            act,
            sent: Some(Outgoing { to, message }),
        },
        asked,
        again: None,
    }
}

/// Nothing is sent, and a transaction is due again later.
pub(crate) fn retries(act: Act, xid: Xid) -> Answer
    ensures { result ≡ later xid (own.still act) }
{
    Answer {
        step: Step { act, sent: None },
        asked: None,
        again: Some(xid),
    }
}
