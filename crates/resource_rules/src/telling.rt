//! The answers that a resource gives, by their acts and what they send.
ghost use Rattle.std.specs.Prelude.{◌≡◌, ◌<◌, ◌^◌, ◌==◌};
ghost use Rattle.history_rules.specs.Own.{asked_act, sends, still};
ghost use Rattle.history_rules.specs.ResourceRules.{tells_committed, tells_rollbacked};
ghost use Rattle.resource_rules.specs.Answers.{answer, ignored};

use crate::answers::{Answer, Change};
use durable_records::ResourceRecord;
use seata_types::{
    Act, BranchStatus, CallAnswer, Durable, Leg, Message, Outgoing, Place, Step, Xid,
};

/// The durable act that an act is, or that was in flight as the node went down.
pub fn durable_of(act: &Act) -> Option<Durable>
    ensures { result ≡ asked_act act.now }
{
    match act {
        Act::Durable(done) => Some(*done),
        Act::Down { kept: _, at } => *at,
        _ => None,
    }
}

/// Nothing is sent, and no ticket changes.
pub(crate) fn rests(act: Act, asked: Option<ResourceRecord>) -> Answer
    ensures { result ≡ answer asked (still act) }
{
    Answer {
        step: Step { act, sent: None },
        asked,
        change: Change::Stays,
    }
}

/// Nothing is done.
pub(crate) fn ignored() -> Answer
    ensures { result ≡ ignored }
{
    rests(Act::Ignored, None)
}

// The coordinator is told what was done, with the record that this asks for.
fn told(message: Message, act: Act, asked: Option<ResourceRecord>) -> Answer
    ensures { result ≡ answer asked (sends act Place.Tc message) }
{
    Answer {
        step: Step {
            act,
            sent: Some(Outgoing {
                to: Place::Tc,
                message,
            }),
        },
        asked,
        change: Change::Stays,
    }
}

/// The coordinator is told how the commit of a branch ended; of a statement without a meaning its number, else 0.
pub(crate) fn committed(
    leg: Leg,
    status: BranchStatus,
    stmt: u16,
    act: Act,
    asked: Option<ResourceRecord>,
) -> Answer
    ensures { result ≡ answer asked (tells_committed leg.xid.0 leg.branch.0 status stmt act) }
{
    let message = Message::BranchCommitted {
        xid: leg.xid,
        branch: leg.branch,
        status,
        stmt,
    };
    told(message, act, asked)
}

/// The same of a rollback.
pub(crate) fn rollbacked(
    leg: Leg,
    status: BranchStatus,
    stmt: u16,
    act: Act,
    asked: Option<ResourceRecord>,
) -> Answer
    ensures { result ≡ answer asked (tells_rollbacked leg.xid.0 leg.branch.0 status stmt act) }
{
    let message = Message::BranchRollbacked {
        xid: leg.xid,
        branch: leg.branch,
        status,
        stmt,
    };
    told(message, act, asked)
}

/// The manager of a call is told what was done.
pub(crate) fn tells(manager: u16, xid: Xid, call: u16, act: Act, answer: CallAnswer) -> Step
    ensures { result ≡ sends act (Place.Man manager) (Message.Answer xid call answer) }
{
    let message = Message::Answer { xid, call, answer };
    Step {
        act,
        sent: Some(Outgoing {
            to: Place::Man(manager),
            message,
        }),
    }
}

/// The numbers of a branch have 64 bits.
pub(crate) fn in_range(xid: u64, branch: u64)
    ensures xid { xid < 2 ^ 64 }
    ensures branch { branch < 2 ^ 64 }
{}

/// The numbers of a ticket have 32 bits.
pub(crate) fn in_ticket(boot: u32, seq: u32)
    ensures boot { boot < 2 ^ 32 }
    ensures seq { seq < 2 ^ 32 }
{}

/// Whether this is the number of no transaction.
pub(crate) fn is_nobody(xid: Xid) -> bool
    ensures { result ≡ (xid.0 == 0) }
{
    xid.0 == 0
}

/// How often a call tries has 32 bits.
pub(crate) fn in_word(tries: u32)
    ensures { tries < 2 ^ 32 }
{}
