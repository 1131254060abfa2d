//! Why a statement or a call failed.
ghost use Rattle.std.specs.Prelude.{◌≡◌, IfOk};
ghost use Rattle.entry_reader.specs.Reasons as spec;

use crate::cutting::{further, piece};
use crate::parts::{number_16, status, word, xid};
use crate::values::boxed_key;
use history_text::Names;
use seata_types::{List, NoMemory, StmtError, Why};
use std::alloc::Global;

#[tactic(auto, unfolding(crate::specs::Reasons::error_of))]
pub fn error(alloc: Global, names: &Names, pieces: &[List<u8>]) -> Result<StmtError, NoMemory>
    ensures { IfOk result (λ found. found ≡ spec.error_of names.now pieces.now) }
{
    match word(piece(pieces, 0)) {
        "NoTable" => Ok(StmtError::NoTable),
        "NoColumn" => Ok(StmtError::NoColumn),
        "Columns" => Ok(StmtError::Columns),
        "KeyChanged" => Ok(StmtError::KeyChanged),
        "TypeMismatch" => Ok(StmtError::TypeMismatch),
        "TooManyRows" => Ok(StmtError::TooManyRows),
        "Overflow" => Ok(StmtError::Overflow {
            key: boxed_key(alloc, names, piece(pieces, 1))?,
        }),
        "Duplicate" => Ok(StmtError::Duplicate {
            key: boxed_key(alloc, names, piece(pieces, 1))?,
        }),
        _ => Ok(StmtError::TableFull),
    }
}

#[tactic(auto, unfolding(crate::specs::Reasons::why_of))]
pub fn why(alloc: Global, names: &Names, pieces: &[List<u8>]) -> Result<Why, NoMemory>
    ensures { IfOk result (λ found. found ≡ spec.why_of names.now pieces.now) }
{
    let second = piece(pieces, 1);
    match word(piece(pieces, 0)) {
        "stmt" => Ok(Why::Stmt {
            index: number_16(second),
            why: error(alloc, names, further(pieces, 2))?,
        }),
        "tries" => Ok(Why::Tries),
        "rolling" => Ok(Why::Rolling {
            holder: xid(second),
        }),
        "closed" => Ok(Why::Closed {
            status: status(second),
        }),
        "late" => Ok(Why::Late),
        "marker" => Ok(Why::Marker),
        "norow" => Ok(Why::NoRow {
            index: number_16(second),
        }),
        _ => Ok(Why::Fence),
    }
}
