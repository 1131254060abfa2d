//! Two disks that come back after a crash.
ghost use Rattle.std.specs.Prelude.{◌⊎◌, ◌≤◌, is_ok, OnErr};
ghost use Rattle.disk_model.specs.declared.disk.TheConstants.{LAST_PICK};
ghost use Rattle.journal_checkpoint.specs.Images.{FailsItself, RestartsPair};

use disk_model::{Disk, Failed};

/// Restarts two disks with this pick, the first one before the second.
pub fn restart_both<D: Disk>(first: &mut D, second: &mut D, pick: u16) -> Result<(), Failed>
    requires { pick ≤ LAST_PICK }
    ensures restarts { RestartsPair (is_ok result) pick (D.state first.old) (D.state second.old) (D.state first.new) (D.state second.new) }
    ensures cause { OnErr result (FailsItself (D.state first.old).counts (D.state first.new).counts
        ⊎ FailsItself (D.state second.old).counts (D.state second.new).counts) }
{
    first.restart(pick)?;
    second.restart(pick)?;
    Ok(())
}
