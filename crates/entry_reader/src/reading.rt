//! The entry of a line.
ghost use Rattle.std.specs.Prelude.{◌≡◌, IfOk};
ghost use Rattle.entry_reader.specs.Reading as spec;

use crate::acts::act;
use crate::causes::cause;
use crate::cutting::{further, piece, pieces};
use crate::notes::sent;
use crate::parts::{number, number_32};
use crate::pieces::Separator;
use crate::places::place;
use crate::writable::resource_at;
use history_text::{Entry, Names};
use seata_types::{List, NoMemory};
use std::alloc::Global;

/// The entry that pieces of a line look like.
#[tactic(auto, unfolding(crate::specs::Reading::entry_by))]
fn entry_by(
    alloc: Global,
    names: &Names,
    origin: &[List<u8>],
    act_pieces: &[List<u8>],
    sent_pieces: &[List<u8>],
) -> Result<Entry, NoMemory>
    ensures { IfOk result (λ found. found ≡
        spec.entry_by names.now origin.now act_pieces.now sent_pieces.now) }
{
    let at = place(names, piece(origin, 1));
    let sent = sent(alloc, names, resource_at(at), further(sent_pieces, 1))?;
    match act(alloc, names, further(act_pieces, 1)) {
        Ok(act) => Ok(Entry {
            stamp: number_32(piece(origin, 0)),
            place: at,
            now: number(piece(origin, 2)),
            cause: cause(names, further(origin, 3)),
            act,
            sent,
        }),
        Err(NoMemory) => {
            drop(sent);
            Err(NoMemory)
        }
    }
}

#[tactic(auto, unfolding(crate::specs::Reading::entry_in))]
fn entry_in(alloc: Global, names: &Names, parts: &[List<u8>]) -> Result<Entry, NoMemory>
    ensures { IfOk result (λ found. found ≡ spec.entry_in names.now parts.now) }
{
    let origin = pieces(alloc, piece(parts, 0), Separator::Space)?;
    let act = pieces(alloc, piece(parts, 1), Separator::Space)?;
    let sent = pieces(alloc, piece(parts, 2), Separator::Space)?;
    entry_by(alloc, names, &origin, &act, &sent)
}

/// The entry that a line looks like.
#[tactic(auto, unfolding(crate::specs::Reading::entry_of))]
pub fn entry(alloc: Global, names: &Names, line: &str) -> Result<Entry, NoMemory>
    ensures { IfOk result (λ found. found ≡ spec.entry_of names.now line.now) }
{
    let parts = pieces(alloc, line.as_bytes(), Separator::Bar)?;
    entry_in(alloc, names, &parts)
}
