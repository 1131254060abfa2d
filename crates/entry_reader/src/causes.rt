//! What brought an entry about.
ghost use Rattle.std.specs.Prelude.{◌≡◌};
ghost use Rattle.entry_reader.specs.Causes as spec;

use crate::cutting::piece;
use crate::parts::{number, number_16, number_32, word};
use crate::places::place;
use history_text::{Cause, Names};
use seata_types::List;

/// A delivery without a sender is that of a message that isn't there.
fn delivery(names: &Names, pieces: &[List<u8>]) -> Cause
    ensures { result ≡ spec.delivery_of names.now pieces.now }
{
    let stamp = number_32(piece(pieces, 1));
    match piece(pieces, 2) {
        [] => Cause::Missing { stamp },
        from => Cause::Deliver {
            stamp,
            from: place(names, from),
        },
    }
}

fn calls(text: &[u8]) -> Option<u32>
    ensures { result ≡ spec.calls_of text.now }
{
    match text {
        [] => None,
        _ => Some(number_32(text)),
    }
}

#[tactic(auto, unfolding(crate::specs::Causes::cause_of))]
pub fn cause(names: &Names, pieces: &[List<u8>]) -> Cause
    ensures { result ≡ spec.cause_of names.now pieces.now }
{
    let second = piece(pieces, 1);
    match word(piece(pieces, 0)) {
        "turn" => Cause::Turn,
        "deliver" => delivery(names, pieces),
        "wait" => Cause::Wait {
            ticks: number(second),
        },
        "stop" => Cause::Stop {
            calls: number_32(second),
        },
        "restart" => Cause::Restart {
            pick: number_16(second),
            calls: calls(piece(pieces, 2)),
        },
        "local" => Cause::Local {
            number: number_16(second),
        },
        "outside" => Cause::Outside {
            number: number_16(second),
        },
        _ => Cause::Crash,
    }
}
