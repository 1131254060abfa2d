ghost use Rattle.std.specs.Prelude.{◌≡◌, ◌+◌, ◌^◌, ◌<◌, ◌≤◌, ℕ, List, Some, option_map, length, OnOk, OnErr};
ghost use Rattle.disk_model.specs.declared.disk.TheConstants.{LAST_PICK};
ghost use Rattle.disk_model.specs.Disk.{DiskState, IsLawful, SameKind, KeepsRest, KeepsContent, Reads, IsWritten, IsSynced, IsSettled, IsPicked, Leaves, Pending, CountsCalls, CountsRestart, HasReadCause, last_pick};

use crate::errors::Failed;

/// The greatest pick of a restart for the bytes that a crash left open: 0 the old ones, 1 the new ones, and from 2 on one
/// value for all of them.
pub const LAST_PICK: u16 = 257;

/// A disk of bytes. What is written is pending until a sync: a crash may change each pending byte to anything, and
/// changes no other.
///
/// A disk need not tell its bytes or its moments. What it does not tell holds of no bytes, so that what a contract
/// says of each image is true of every disk.
pub trait Disk {
    /// Its size, its present bytes, the images that a crash may leave, and its counts of faults.
    ghost state: { Self → DiskState };

    /// How many bytes it has. It never changes.
    fn size(&self) -> u64
        ensures size { result ≡ (state self.now).size }
        ensures small { result < 2 ^ 32 };

    /// Reads the present bytes from an offset on.
    fn read_at(&mut self, at: u64, into: &mut [u8]) -> Result<(), Failed>
        requires { at + length into.old ≤ (state self.old).size }
        ensures read { OnOk result (Reads (state self.old) at into.new) }
        ensures unchanged { KeepsContent (state self.old) (state self.new) }
        ensures images { Leaves (state self.old) (state self.new) (state self.old).may_leave }
        ensures counts { CountsCalls 0 result (state self.old).counts (state self.new).counts }
        ensures missed { OnErr result (HasReadCause (state self.old).counts (state self.new).counts) }
        ensures rest { KeepsRest (state self.old) (state self.new) };

    /// Writes over the bytes from an offset on. Until a sync, a crash may leave anything there.
    fn write_at(&mut self, at: u64, bytes: &[u8]) -> Result<(), Failed>
        requires { at + length bytes.now ≤ (state self.old).size }
        ensures written { OnOk result (IsWritten at bytes.now (state self.old) (state self.new)) }
        ensures images { Leaves (state self.old) (state self.new) (Pending at (length bytes.now) (state self.old).may_leave) }
        ensures counts { CountsCalls 1 result (state self.old).counts (state self.new).counts }
        ensures rest { KeepsRest (state self.old) (state self.new) };

    /// Makes the present bytes stable: after it nothing is pending.
    fn sync(&mut self) -> Result<(), Failed>
        ensures synced { OnOk result (IsSynced (state self.old) (state self.new)) }
        ensures images { Leaves (state self.old) (state self.new) (state self.old).may_leave }
        ensures counts { CountsCalls 1 result (state self.old).counts (state self.new).counts }
        ensures rest { KeepsRest (state self.old) (state self.new) };

    /// Comes back after a crash, as one of the images. The pick, at most `LAST_PICK`, chooses one in a way of the disk's own.
    fn restart(&mut self, pick: u16) -> Result<(), Failed>
        requires { pick ≤ LAST_PICK }
        ensures settled { OnOk result (IsSettled (state self.new)) }
        ensures outcome { OnOk result (IsPicked pick (state self.old) (state self.new)) }
        ensures picked { OnOk result (last_pick (state self.new) ≡ option_map (λ _. Some pick) (last_pick (state self.old))) }
        ensures not_picked { OnErr result (last_pick (state self.new) ≡ last_pick (state self.old)) }
        ensures images { Leaves (state self.old) (state self.new) (state self.old).may_leave }
        ensures counts { CountsRestart result (state self.old).counts (state self.new).counts }
        ensures kind { SameKind (state self.old) (state self.new) };

    /// What always holds of it.
    ghost lawful: { (disk : Self) → IsLawful (state disk) };
}
