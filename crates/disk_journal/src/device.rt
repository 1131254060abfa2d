//! The calls of a disk that a journal makes, in rows: reads alone, and a write with its sync.
ghost use Rattle.std.specs.Prelude.{◌+◌, ◌≤◌, length, OnOk, OnErr};
ghost use Rattle.disk_model.specs.Disk.{Reads, HasCause};
ghost use Rattle.disk_journal.specs.Keeping.{OnlyReads, WritesThrough};

use disk_model::{Disk, Failed};

/// Reads the present bytes from an offset on.
pub fn read<D: Disk>(disk: &mut D, at: u64, into: &mut [u8]) -> Result<(), Failed>
    requires { at + length into.old ≤ (D.state disk.old).size }
    ensures read { OnOk result (Reads (D.state disk.old) at into.new) }
    ensures only_reads { OnlyReads (D.state disk.old) (D.state disk.new) }
    ensures cause { OnErr result (HasCause (D.state disk.old).counts (D.state disk.new).counts) }
{
    disk.read_at(at, into)?;
    Ok(())
}

/// Writes over the bytes from an offset on, and makes them stable.
pub fn write_through<D: Disk>(disk: &mut D, at: u64, bytes: &[u8]) -> Result<(), Failed>
    requires { at + length bytes.now ≤ (D.state disk.old).size }
    ensures { WritesThrough 2 at bytes.now result (D.state disk.old) (D.state disk.new) }
{
    disk.write_at(at, bytes)?;
    disk.sync()?;
    Ok(())
}
