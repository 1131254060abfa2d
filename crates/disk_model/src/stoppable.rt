ghost use Rattle.std.specs.Prelude.{◌≡◌, ◌⊎◌, ◌+◌, ◌≤◌, Some, option_map, length, IsErr, OnOk, OnErr, is_ok};
ghost use Rattle.disk_model.specs.declared.disk.TheConstants.{LAST_PICK};
ghost use Rattle.disk_model.specs.Disk.{SameKind, Reads, KeepsContent, IsWritten, IsSynced, IsSettled, IsPicked, Leaves, Pending, CountsCalls, CountsRestart, HasReadCause, KeepsRest, Rose, last_pick};

use crate::disk::{Disk, LAST_PICK};
use crate::errors::Failed;

/// A disk that can be armed: then so many writes and syncs pass, the next one fails, and from then on every call
/// does, until a restart or until it is armed again. Reads are not counted.
#[derive(Drop)]
pub struct Stoppable<D> {
    disk: D,
    stop: Stop,
    failures: u64,
}

/// Where a stop stands.
#[derive(Clone, Copy)]
pub enum Stop {
    Off,
    /// So many writes and syncs still pass.
    Armed(u32),
    Stopped,
}

impl<D: Disk> Stoppable<D> {
    ghost use Rattle.disk_model.specs.Stop.{below, stop_of, failures_of, has_failed};

    /// The disk with no stop armed.
    pub fn new(disk: D) -> Stoppable<D>
        ensures below { below result ≡ disk }
        ensures off { stop_of result ≡ Stop.Off }
        ensures no_failure { failures_of result ≡ 0 }
    {
        Stoppable {
            disk,
            stop: Stop::Off,
            failures: 0,
        }
    }

    /// Sets how many writes and syncs still pass.
    pub fn arm(&mut self, calls: u32)
        ensures armed { stop_of self.new ≡ Stop.Armed calls }
        ensures below { below self.new ≡ below self.old }
        ensures failures { failures_of self.new ≡ failures_of self.old }
    {
        self.stop = Stop::Armed(calls);
    }

    /// Whether a stop has failed a call since the last restart, or since it was last armed.
    pub fn is_stopped(&self) -> bool
        ensures { result ≡ has_failed (stop_of self.now) }
    {
        matches!(self.stop, Stop::Stopped)
    }

    /// The disk below.
    pub fn into_inner(self) -> D
        ensures { result ≡ below self }
    {
        let Stoppable { disk, .. } = self;
        disk
    }
}

impl<D: Disk> Disk for Stoppable<D> {
    ghost use Rattle.disk_model.specs.Stop.{below, stop_of, failures_of, left_of, has_failed, lets_none, next_stop, next_failures, state_of, stopped_lawful};

    ghost state = { state_of D.state };

    fn size(&self) -> u64 {
        self.disk.size()
    }

    fn read_at(&mut self, at: u64, into: &mut [u8]) -> Result<(), Failed>
        requires { at + length into.old ≤ (state_of D.state self.old).size }
        ensures read { OnOk result (Reads (state_of D.state self.old) at into.new) }
        ensures unchanged { KeepsContent (state_of D.state self.old) (state_of D.state self.new) }
        ensures images { Leaves (state_of D.state self.old) (state_of D.state self.new) (state_of D.state self.old).may_leave }
        ensures counts { CountsCalls 0 result (state_of D.state self.old).counts (state_of D.state self.new).counts }
        ensures missed { OnErr result (HasReadCause (state_of D.state self.old).counts (state_of D.state self.new).counts) }
        ensures rest { KeepsRest (state_of D.state self.old) (state_of D.state self.new) }

        ensures stop { stop_of self.new ≡ stop_of self.old }
        ensures failures { failures_of self.new ≡ next_failures (has_failed (stop_of self.old)) (failures_of self.old) }
        ensures stopped { stop_of self.old ≡ Stop.Stopped → IsErr result × (below self.new ≡ below self.old) }
    {
        match self.stop {
            Stop::Off | Stop::Armed(_) => self.disk.read_at(at, into),
            Stop::Stopped => Err(Failed::counted(&mut self.failures)),
        }
    }

    fn write_at(&mut self, at: u64, bytes: &[u8]) -> Result<(), Failed>
        requires { at + length bytes.now ≤ (state_of D.state self.old).size }
        ensures written { OnOk result (IsWritten at bytes.now (state_of D.state self.old) (state_of D.state self.new)) }
        ensures images { Leaves (state_of D.state self.old) (state_of D.state self.new) (Pending at (length bytes.now) (state_of D.state self.old).may_leave) }
        ensures counts { CountsCalls 1 result (state_of D.state self.old).counts (state_of D.state self.new).counts }
        ensures rest { KeepsRest (state_of D.state self.old) (state_of D.state self.new) }

        ensures stop { stop_of self.new ≡ next_stop (is_ok result) (stop_of self.old) }
        ensures failures { failures_of self.new ≡ next_failures (lets_none (stop_of self.old)) (failures_of self.old) }
        ensures stopped { stop_of self.old ≡ Stop.Stopped → below self.new ≡ below self.old }
        // The write that fails is handed on: the disk below has it, unless it failed too.
        ensures handed_on { stop_of self.old ≡ Stop.Armed 0 → IsWritten at bytes.now (D.state (below self.old)) (D.state (below self.new)) ⊎ Rose (D.state (below self.old)).counts.faults (D.state (below self.new)).counts.faults }
    {
        match self.stop {
            Stop::Off => self.disk.write_at(at, bytes),
            Stop::Armed(0) => {
                let _ = self.disk.write_at(at, bytes);
                self.stop = Stop::Stopped;
                Err(Failed::counted(&mut self.failures))
            }
            Stop::Armed(left) => {
                self.disk.write_at(at, bytes)?;
                self.stop = Stop::Armed(left - 1);
                Ok(())
            }
            Stop::Stopped => Err(Failed::counted(&mut self.failures)),
        }
    }

    fn sync(&mut self) -> Result<(), Failed>
        ensures synced { OnOk result (IsSynced (state_of D.state self.old) (state_of D.state self.new)) }
        ensures images { Leaves (state_of D.state self.old) (state_of D.state self.new) (state_of D.state self.old).may_leave }
        ensures counts { CountsCalls 1 result (state_of D.state self.old).counts (state_of D.state self.new).counts }
        ensures rest { KeepsRest (state_of D.state self.old) (state_of D.state self.new) }

        ensures stop { stop_of self.new ≡ next_stop (is_ok result) (stop_of self.old) }
        ensures failures { failures_of self.new ≡ next_failures (lets_none (stop_of self.old)) (failures_of self.old) }
        // The sync that fails is not handed on.
        ensures not_handed_on { left_of (stop_of self.old) ≡ Some 0 → below self.new ≡ below self.old }
    {
        match self.stop {
            Stop::Off => self.disk.sync(),
            Stop::Armed(0) | Stop::Stopped => {
                self.stop = Stop::Stopped;
                Err(Failed::counted(&mut self.failures))
            }
            Stop::Armed(left) => {
                self.disk.sync()?;
                self.stop = Stop::Armed(left - 1);
                Ok(())
            }
        }
    }

    fn restart(&mut self, pick: u16) -> Result<(), Failed>
        requires { pick ≤ LAST_PICK }
        ensures settled { OnOk result (IsSettled (state_of D.state self.new)) }
        ensures outcome { OnOk result (IsPicked pick (state_of D.state self.old) (state_of D.state self.new)) }
        ensures picked { OnOk result (last_pick (state_of D.state self.new) ≡ option_map (λ _. Some pick) (last_pick (state_of D.state self.old))) }
        ensures not_picked { OnErr result (last_pick (state_of D.state self.new) ≡ last_pick (state_of D.state self.old)) }
        ensures images { Leaves (state_of D.state self.old) (state_of D.state self.new) (state_of D.state self.old).may_leave }
        ensures counts { CountsRestart result (state_of D.state self.old).counts (state_of D.state self.new).counts }
        ensures kind { SameKind (state_of D.state self.old) (state_of D.state self.new) }

        ensures failures { failures_of self.new ≡ failures_of self.old }
    {
        self.disk.restart(pick)?;
        self.stop = Stop::Off;
        Ok(())
    }

    ghost lawful = { λ s. stopped_lawful s.stop s.failures (D.state s.disk) (D.lawful s.disk) };
}
