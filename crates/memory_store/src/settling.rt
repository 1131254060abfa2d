//! A snapshot in place of the records, where they have grown long.
ghost use Rattle.std.specs.Prelude.{◌≡◌, false};
ghost use Rattle.journal_checkpoint.specs.Keeping.{is_down};
ghost use Rattle.memory_store.specs.Settling.{Settles};

use crate::machine::StateMachine;
use disk_model::{Disk, Failed};
use journal_checkpoint::Twin;
use seata_types::limits::ACTS;
use seata_types::{NoMemory, OpenError};
use std::alloc::Global;

/// Puts a snapshot of the memory in place of the snapshot and records, where these take more than half of the disk. It
/// changes nothing where fewer do, where a snapshot can't be written or doesn't fit, and after want of memory.
pub fn settle<M: StateMachine, D: Disk>(
    alloc: Global,
    machine: &M,
    twin: &mut Twin<D>,
    memory: &M::Memory,
) -> Result<(), OpenError>
    requires up { is_down twin.old ≡ false }
    requires sound { (M.meaning machine.now).IsSound memory.now }

    ensures { Settles D.state (M.meaning machine.now) memory.now result twin.old twin.new }
{
    if !twin.due() {
        return Ok(());
    }
    if machine.acts(memory) >= ACTS {
        return Ok(());
    }
    if !machine.can_write(memory) {
        return Ok(());
    }
    let bytes = match machine.write_snapshot(alloc, memory) {
        Ok(bytes) => bytes,
        Err(NoMemory) => return Err(OpenError::NoMemory),
    };
    match twin.checkpoint(&bytes) {
        Ok(_) => Ok(()),
        Err(Failed) => Err(OpenError::Failed),
    }
}
