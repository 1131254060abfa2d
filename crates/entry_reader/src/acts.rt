//! Acts.
ghost use Rattle.std.specs.Prelude.{◌≡◌, IfOk};
ghost use Rattle.entry_reader.specs.Acts as spec;

use crate::cutting::{further, piece};
use crate::durables::{durable, durable_behind};
use crate::parts::{branch, call, number_16, number_32, rolling, status, ticket, word, xid};
use crate::reasons::{error, why};
use crate::values::{boxed_key, boxed_row, key};
use history_text::Names;
use seata_types::{Act, List, NoMemory};
use std::alloc::Global;

/// An act: first those of the coordinator.
#[tactic(auto, unfolding(crate::specs::Acts::act_of, crate::specs::Acts::coordinator_acts))]
pub fn act(alloc: Global, names: &Names, pieces: &[List<u8>]) -> Result<Act, NoMemory>
    ensures { IfOk result (λ found. found ≡ spec.act_of names.now pieces.now) }
{
    let second = piece(pieces, 1);
    let third = piece(pieces, 2);
    let (xid_there, branch_there) = (xid(second), branch(third));
    match word(piece(pieces, 0)) {
        "known" => Ok(Act::Known { xid: xid_there }),
        "regranted" => Ok(Act::Regranted {
            xid: xid_there,
            branch: branch_there,
        }),
        "conflict" => Ok(Act::Conflict {
            xid: xid_there,
            key: key(alloc, names, third)?,
            holder: xid(piece(pieces, 3)),
            rolling: rolling(piece(pieces, 4)),
        }),
        "closed" => Ok(Act::Closed {
            xid: xid_there,
            status: status(third),
        }),
        "told" => Ok(Act::Told {
            xid: xid_there,
            status: status(third),
        }),
        "asked" => Ok(Act::Asked {
            xid: xid_there,
            branch: branch_there,
        }),
        "retry" => Ok(Act::Retry {
            xid: xid_there,
            branch: branch_there,
        }),
        "held" => Ok(Act::Held {
            key: key(alloc, names, second)?,
            holder: xid(third),
        }),
        "free" => Ok(Act::Free),
        _ => call_act(alloc, names, pieces),
    }
}

/// A resource's busy row, or the number of a manager's busy calls.
fn busy(alloc: Global, names: &Names, pieces: &[List<u8>]) -> Result<Act, NoMemory>
    ensures { IfOk result (λ found. found ≡ spec.busy_of names.now pieces.now) }
{
    match piece(pieces, 2) {
        [] => Ok(Act::CallBusy {
            count: number_32(piece(pieces, 1)),
        }),
        third => Ok(Act::Busy {
            xid: xid(piece(pieces, 1)),
            call: call(third),
            key: key(alloc, names, piece(pieces, 3))?,
            by: ticket(piece(pieces, 4)),
        }),
    }
}

/// An act that is none of the coordinator's: first those of calls.
#[tactic(auto, unfolding(crate::specs::Acts::call_act, crate::specs::Acts::call_acts))]
fn call_act(alloc: Global, names: &Names, pieces: &[List<u8>]) -> Result<Act, NoMemory>
    ensures { IfOk result (λ found. found ≡ spec.call_act names.now pieces.now) }
{
    let second = piece(pieces, 1);
    let (xid, call) = (xid(second), call(piece(pieces, 2)));
    let fourth = piece(pieces, 3);
    match word(piece(pieces, 0)) {
        "opened" => Ok(Act::Opened {
            xid,
            call,
            ticket: ticket(fourth),
        }),
        "waiting" => Ok(Act::Waiting { xid, call }),
        "again" => Ok(Act::Again {
            xid,
            call,
            branch: branch(fourth),
        }),
        "busy" => busy(alloc, names, pieces),
        "refused" => Ok(Act::Refused {
            xid,
            call,
            why: why(alloc, names, further(pieces, 3))?,
        }),
        "resent" => Ok(Act::Resent {
            ticket: ticket(second),
        }),
        "conflicted" => Ok(Act::Conflicted {
            ticket: ticket(second),
            count: number_32(piece(pieces, 2)),
        }),
        "dropped" => Ok(Act::Dropped {
            xid,
            call,
            ticket: ticket(fourth),
            why: why(alloc, names, further(pieces, 4))?,
        }),
        _ => branch_act(alloc, names, pieces),
    }
}

/// A row that isn't as it was left.
#[tactic(auto, unfolding(crate::specs::Acts::dirty_of))]
fn dirty(alloc: Global, names: &Names, pieces: &[List<u8>]) -> Result<Act, NoMemory>
    ensures { IfOk result (λ found. found ≡ spec.dirty_of names.now pieces.now) }
{
    Ok(Act::Dirty {
        xid: xid(piece(pieces, 1)),
        branch: branch(piece(pieces, 2)),
        key: boxed_key(alloc, names, piece(pieces, 3))?,
        after: boxed_row(alloc, piece(pieces, 4))?,
        now: boxed_row(alloc, piece(pieces, 5))?,
    })
}

/// An act that is none of those before: first those of branches.
#[tactic(auto, unfolding(crate::specs::Acts::branch_act, crate::specs::Acts::branch_acts))]
fn branch_act(alloc: Global, names: &Names, pieces: &[List<u8>]) -> Result<Act, NoMemory>
    ensures { IfOk result (λ found. found ≡ spec.branch_act names.now pieces.now) }
{
    let (xid, branch) = (xid(piece(pieces, 1)), branch(piece(pieces, 2)));
    match word(piece(pieces, 0)) {
        "empty" => Ok(Act::Empty { xid, branch }),
        "remarked" => Ok(Act::Remarked { xid, branch }),
        "blocked" => Ok(Act::Blocked {
            xid,
            branch,
            key: key(alloc, names, piece(pieces, 3))?,
            by: ticket(piece(pieces, 4)),
        }),
        "dirty" => dirty(alloc, names, pieces),
        "already" => Ok(Act::Already { xid, branch }),
        "unfenced" => Ok(Act::Unfenced { xid, branch }),
        "unable" => Ok(Act::Unable {
            xid,
            branch,
            index: number_16(piece(pieces, 4)),
            why: error(alloc, names, further(pieces, 5))?,
        }),
        _ => local_act(alloc, names, pieces),
    }
}

/// An act that is none of those before: first those of local transactions.
#[tactic(auto, unfolding(crate::specs::Acts::local_act, crate::specs::Acts::local_acts))]
fn local_act(alloc: Global, names: &Names, pieces: &[List<u8>]) -> Result<Act, NoMemory>
    ensures { IfOk result (λ found. found ≡ spec.local_act names.now pieces.now) }
{
    let number = number_16(piece(pieces, 1));
    let third = piece(pieces, 2);
    match word(piece(pieces, 0)) {
        "waiting-local" => Ok(Act::WaitingLocal { number }),
        "refused-local" => Ok(Act::RefusedLocal {
            number,
            why: why(alloc, names, further(pieces, 2))?,
        }),
        "busy-local" => Ok(Act::BusyLocal {
            number,
            key: key(alloc, names, third)?,
            by: ticket(piece(pieces, 3)),
        }),
        "opened-local" => Ok(Act::OpenedLocal {
            number,
            ticket: ticket(third),
        }),
        "dropped-local" => Ok(Act::DroppedLocal {
            number,
            ticket: ticket(third),
            key: key(alloc, names, piece(pieces, 3))?,
            holder: xid(piece(pieces, 4)),
        }),
        _ => Ok(other_act(pieces)),
    }
}

/// An act that is none of those before: a manager's, any node's, or a durable one.
#[tactic(auto, unfolding(crate::specs::Acts::other_act, crate::specs::Acts::other_acts))]
fn other_act(pieces: &[List<u8>]) -> Act
    ensures { result ≡ spec.other_act pieces.now }
{
    match word(piece(pieces, 0)) {
        "starts" => Act::Starts,
        "repeats" => Act::Repeats,
        "goes" => Act::GoesOn,
        "gives" => Act::GivesUp,
        "closes" => Act::Closes {
            status: status(piece(pieces, 1)),
        },
        "polls" => Act::Polls,
        "learns" => Act::Learns {
            status: status(piece(pieces, 1)),
        },
        "silent" => Act::Silent,
        "none" => Act::Nothing,
        "ignored" => Act::Ignored,
        "lost" => Act::Lost,
        "armed" => Act::Armed,
        "down" => Act::Down {
            kept: durable_behind(b"kept", pieces),
            at: durable_behind(b"at", pieces),
        },
        "restarted" => Act::Restarted {
            kept: durable_behind(b"kept", pieces),
        },
        _ => Act::Durable(durable(pieces)),
    }
}
