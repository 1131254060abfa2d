//! A snapshot, written on the disk that is not active.
ghost use Rattle.std.specs.Prelude.{◌≡◌, ◌+◌, ◌-◌, ◌^◌, ◌<◌, ◌≤◌, ◌++◌, length, false};
ghost use Rattle.std.specs.Int.{w32, to_be_bytes};
ghost use Rattle.disk_journal.specs.Keeping.{WritesThrough};
ghost use Rattle.journal_checkpoint.specs.declared.layout.TheConstants.{AROUND};
ghost use Rattle.journal_checkpoint.specs.Pairs.{checkpoint_bytes};
ghost use Rattle.journal_checkpoint.specs.Images.{WritesSnapshot};

use crate::layout::{CLOSED, OPEN};
use disk_journal::write_through;
use disk_model::{Disk, Failed};

/// Writes a snapshot of the generation after this one, where the switch is open or not. A closed switch is not written
/// before the last write, since a pending byte may read as anything, and what stands behind it is stable by then.
pub fn write_snapshot<D: Disk>(
    disk: &mut D,
    was_open: bool,
    generation: u32,
    snapshot: &[u8],
) -> Result<(), Failed>
    requires fits { length snapshot.now + AROUND ≤ (D.state disk.old).size }
    requires small { generation < 2 ^ 32 - 1 }
    ensures { WritesSnapshot was_open generation snapshot.now result (D.state disk.old) (D.state disk.new) }
{
    if was_open {
        write_through(disk, 0, &[CLOSED])?;
        stage_and_open(disk, generation, snapshot)?;
        return Ok(());
    }
    stage_and_open(disk, generation, snapshot)
}

// Writes three rows of bytes, one behind the other from an offset on, and makes them stable.
fn write_three<D: Disk>(
    disk: &mut D,
    at: u64,
    one: &[u8],
    two: &[u8],
    three: &[u8],
) -> Result<(), Failed>
    requires fits { at + length one.now + length two.now + length three.now ≤ (D.state disk.old).size }
    requires small { at < 2 ^ 32 }
    ensures { WritesThrough 4 at (one.now ++ (two.now ++ three.now)) result (D.state disk.old) (D.state disk.new) }
{
    let _size = disk.size();
    disk.write_at(at, one)?;
    disk.write_at(at + one.len() as u64, two)?;
    disk.write_at(at + (one.len() + two.len()) as u64, three)?;
    disk.sync()?;
    Ok(())
}

// A head behind its switch.
fn head_bytes(generation: u32, length: u32) -> [u8; 8]
    ensures { result ≡ to_be_bytes w32 generation ++ to_be_bytes w32 length }
{
    let first = generation.to_be_bytes();
    let second = length.to_be_bytes();
    [
        first[0], first[1], first[2], first[3], second[0], second[1], second[2], second[3],
    ]
}

// Writes what stands behind a closed switch: generation, length, snapshot, and a closed gate.
fn stage<D: Disk>(disk: &mut D, generation: u32, snapshot: &[u8]) -> Result<(), Failed>
    requires fits { length snapshot.now + AROUND ≤ (D.state disk.old).size }
    ensures { WritesThrough 4 1 (checkpoint_bytes generation snapshot.now) result (D.state disk.old) (D.state disk.new) }
{
    let _size = disk.size();
    let head = head_bytes(generation, snapshot.len() as u32);
    write_three(disk, 1, &head, snapshot, &[CLOSED])
}

// Writes a snapshot behind a closed switch, and opens it.
fn stage_and_open<D: Disk>(disk: &mut D, generation: u32, snapshot: &[u8]) -> Result<(), Failed>
    requires fits { length snapshot.now + AROUND ≤ (D.state disk.old).size }
    requires small { generation < 2 ^ 32 - 1 }
    ensures { WritesSnapshot false generation snapshot.now result (D.state disk.old) (D.state disk.new) }
{
    let _size = disk.size();
    stage(disk, generation + 1, snapshot)?;
    write_through(disk, 0, &[OPEN])?;
    Ok(())
}
