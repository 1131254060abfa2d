//! Durable acts.
ghost use Rattle.std.specs.Prelude.{◌≡◌};
ghost use Rattle.entry_reader.specs.Acts as spec;

use crate::cutting::piece;
use crate::parts::{branch, decision, number_16, status, ticket, word, xid};
use seata_types::{Durable, List};

#[tactic(auto, unfolding(crate::specs::Acts::durable_of))]
pub fn durable(pieces: &[List<u8>]) -> Durable
    ensures { result ≡ spec.durable_of pieces.now }
{
    let second = piece(pieces, 1);
    let third = piece(pieces, 2);
    let (xid, branch, number) = (xid(second), branch(third), number_16(second));
    match word(piece(pieces, 0)) {
        "begun" => Durable::Begun { xid },
        "granted" => Durable::Granted { xid, branch },
        "late" => Durable::Late { xid },
        "decided" => Durable::Decided {
            xid,
            how: decision(third),
        },
        "ended" => Durable::Ended { xid, branch },
        "retrying" => Durable::Retrying { xid, branch },
        "failed" => Durable::Failed {
            xid,
            branch,
            stmt: number_16(piece(pieces, 4)),
        },
        "finished" => Durable::Finished {
            xid,
            status: status(third),
        },
        "forgot" => Durable::Forgot { xid },
        "committed" => Durable::Committed {
            xid,
            branch,
            ticket: ticket(piece(pieces, 3)),
        },
        "tried" => Durable::Tried {
            xid,
            branch,
            ticket: ticket(piece(pieces, 3)),
        },
        "cleared" => Durable::Cleared { xid, branch },
        "undone" => Durable::Undone { xid, branch },
        "marked" => Durable::Marked { xid, branch },
        "confirmed" => Durable::Confirmed { xid, branch },
        "cancelled" => Durable::Cancelled { xid, branch },
        "suspended" => Durable::Suspended { xid, branch },
        "local-committed" => Durable::LocalCommitted {
            number,
            ticket: ticket(third),
        },
        "outside" => Durable::Outside { number },
        _ => Durable::Boot,
    }
}

/// The durable act behind a word, where the word stands.
pub fn durable_behind(wanted: &[u8], pieces: &[List<u8>]) -> Option<Durable>
    ensures { result ≡ spec.durable_behind wanted.now pieces.now }
{
    let mut rest = pieces;
    while let [first, more @ ..] = rest {
        if first.as_slice() == wanted {
            return Some(durable(more));
        }
        rest = more;
    }
    None
}
