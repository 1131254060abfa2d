//! Reading a line exactly.
ghost use Rattle.std.specs.Prelude.{◌≡◌, ◌&&◌, IfOk, IfErr};
ghost use Rattle.seata_types.specs.Orders.{same_text};
ghost use Rattle.history_text.specs.Lines.{entry_text};
ghost use Rattle.entry_reader.specs.Reading as spec;
ghost use Rattle.entry_reader.specs.Writable as writable;

use crate::errors::LineError;
use crate::reading::entry;
use crate::writable::is_entry;
use history_text::{Entry, Names, write_entry};
use seata_types::NoMemory;
use std::alloc::Global;

/// The entry whose line this is, as `write_entry` prints it with these names: the one that the line
/// looks like. `Refused` says that this one has another line, and that no entry that can be printed
/// with these names has this line, where they are the different names of nodes.
#[tactic(auto, using(crate::proofs::Exact::line_of, crate::proofs::Exact::no_line, crate::proofs::Exact::unlike))]
pub fn read_entry(alloc: Global, line: &str, names: &Names) -> Result<Entry, LineError>
    ensures read { IfOk result (λ found. spec.IsLineOf names.now found line.now) }
    ensures seen { IfOk result (λ found. found ≡ spec.entry_of names.now line.now) }
    ensures refused { IfErr result (λ e. e ≡ LineError.Refused → spec.IsNoLine names.now line.now) }
    ensures unlike { IfErr result (λ e. e ≡ LineError.Refused →
        spec.IsLineOf names.now (spec.entry_of names.now line.now) line.now → ⊥) }
{
    let Ok(found) = entry(alloc, names, line) else {
        return Err(LineError::NoMemory);
    };
    match is_line(alloc, names, &found, line) {
        Ok(true) => Ok(found),
        Ok(false) => {
            drop(found);
            Err(LineError::Refused)
        }
        Err(NoMemory) => {
            drop(found);
            Err(LineError::NoMemory)
        }
    }
}

/// Whether the entry is printed as this line.
fn is_line(alloc: Global, names: &Names, entry: &Entry, line: &str) -> Result<bool, NoMemory>
    ensures { IfOk result (λ is. is ≡
        (same_text (entry_text names.now entry.entry.now) line.now &&
        writable.is_entry names.now entry.entry.now)) }
{
    let text = write_entry(alloc, entry, names)?;
    Ok(text.as_str() == line && is_entry(names, entry))
}
