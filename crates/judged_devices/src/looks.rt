//! Looks at an act, each of which gives something small.
ghost use Rattle.std.specs.Prelude.{◌≡◌};
ghost use Rattle.judged_devices.specs.Looking.{AreSame, cut_by, cut_in, down_in, durable_in, plain_in};
ghost use Rattle.judged_devices.specs.Showing as showing;

use crate::shown::{Back, Plain};
use seata_types::{Act, Durable};

/// The durable act that an act is.
pub(crate) fn durable_in(act: &Act) -> Option<Durable>
    ensures { result ≡ durable_in act.now }
{
    match act {
        Act::Durable(done) => Some(*done),
        _ => None,
    }
}

/// The act in flight of a node that went down and kept nothing.
pub(crate) fn cut_in(act: &Act) -> Option<Durable>
    ensures { result ≡ cut_in act.now }
{
    match act {
        Act::Down { kept, at } => cut_by(*kept, *at),
        _ => None,
    }
}

fn cut_by(kept: Option<Durable>, at: Option<Durable>) -> Option<Durable>
    ensures { result ≡ cut_by kept at }
{
    match kept {
        Some(_) => None,
        None => at,
    }
}

/// What an act shows of what a node does by itself.
pub(crate) fn plain_in(act: &Act) -> Option<Plain>
    ensures { result ≡ plain_in act.now }
{
    match act {
        Act::Lost => Some(Plain::Lost),
        Act::Armed => Some(Plain::Armed),
        Act::Nothing => Some(Plain::Rests),
        Act::Restarted { kept } => Some(Plain::Back(Back {
            kept: *kept,
            cut: false,
        })),
        Act::Down { kept, at } => down_in(*kept, *at),
        _ => None,
    }
}

fn down_in(kept: Option<Durable>, at: Option<Durable>) -> Option<Plain>
    ensures { result ≡ down_in kept at }
{
    match at {
        Some(Durable::Boot) => Some(Plain::Back(Back { kept, cut: true })),
        Some(_) => None,
        None => match kept {
            Some(_) => None,
            None => Some(Plain::Crashed),
        },
    }
}

/// The act of what a node does by itself.
pub fn act_of(plain: Plain) -> Act
    ensures { result ≡ showing.act_of plain }
{
    match plain {
        Plain::Lost => Act::Lost,
        Plain::Armed => Act::Armed,
        Plain::Crashed => Act::Down {
            kept: None,
            at: None,
        },
        Plain::Rests => Act::Nothing,
        Plain::Back(back) => back_act(back),
    }
}

fn back_act(back: Back) -> Act
    ensures { result ≡ showing.back_act back }
{
    let kept = back.kept;
    if back.cut {
        return Act::Down {
            kept,
            at: Some(Durable::Boot),
        };
    }
    Act::Restarted { kept }
}

/// Whether two durable acts are the same.
pub(crate) fn same_durable(a: Durable, b: Durable) -> bool
    ensures { AreSame a b result }
{
    a == b
}

/// Whether two acts are the same.
pub fn same_act(a: &Act, b: &Act) -> bool
    ensures { AreSame a.now b.now result }
{
    a == b
}
