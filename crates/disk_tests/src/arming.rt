//! Two disks that keep what they hold while one of them is armed.
ghost use Rattle.std.specs.Prelude.{◌≡◌, Some};
ghost use Rattle.disk_model.specs.Stop.{state_of};
ghost use Rattle.journal_checkpoint.specs.declared.types.Found.{Found};
ghost use Rattle.journal_checkpoint.specs.Keeping.{KeepsPair, active_disk, other_disk, is_second, is_down};

use disk_model::{Disk, Stoppable};
use journal_checkpoint::Twin;

/// Lets so many writes and syncs of the active disk pass.
pub fn arm_active<D: Disk>(twin: &mut Twin<Stoppable<D>>, calls: u32)
    ensures keeps { (found : Found) → KeepsPair (state_of D.state) found twin.old → KeepsPair (state_of D.state) found twin.new }
    ensures left { (state_of D.state (active_disk twin.new)).counts.left ≡ Some calls }
    ensures other { other_disk twin.new ≡ other_disk twin.old }
    ensures second { is_second twin.new ≡ is_second twin.old }
    ensures down { is_down twin.new ≡ is_down twin.old }
{
    twin.active_mut().arm(calls);
}

/// Lets so many writes and syncs of the other disk pass.
pub fn arm_other<D: Disk>(twin: &mut Twin<Stoppable<D>>, calls: u32)
    ensures keeps { (found : Found) → KeepsPair (state_of D.state) found twin.old → KeepsPair (state_of D.state) found twin.new }
    ensures left { (state_of D.state (other_disk twin.new)).counts.left ≡ Some calls }
    ensures active { active_disk twin.new ≡ active_disk twin.old }
    ensures second { is_second twin.new ≡ is_second twin.old }
    ensures down { is_down twin.new ≡ is_down twin.old }
{
    twin.other_mut().arm(calls);
}
