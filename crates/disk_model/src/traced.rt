ghost use Rattle.std.specs.Prelude.{◌≡◌, ◌+◌, ◌^◌, ◌<◌, ◌≤◌, Some, option_map, [], ◌++◌, length, take, drop, vec_len, vec_capacity, IsOk, IfOk, OnOk, OnErr};
ghost use Rattle.disk_model.specs.declared.disk.TheConstants.{LAST_PICK};

use crate::bytes::append;
use crate::disk::{Disk, LAST_PICK};
use crate::errors::{Failed, NoMemory};
use crate::memory::MemDisk;
use std::alloc::Global;
use std::marker::Model;

/// A disk in memory that keeps its writes, syncs and restarts, and so tells its moments too. It takes its room
/// for so many calls and written bytes when it is made. A call past that room fails and changes nothing else.
#[derive(Drop)]
pub struct TracedDisk {
    disk: MemDisk,
    calls: Vec<TracedCall>,
    // What the writes wrote, one after another.
    bytes: Vec<u8>,
    call_room: u32,
    byte_room: u64,
    faults: u64,
}

#[derive(Clone, Copy)]
enum TracedCall {
    Write { at: u64, count: usize },
    Sync,
    Restart { pick: u16 },
}

impl Model for TracedDisk {
    ghost use Rattle.disk_model.specs.Trace.{Trace};

    ghost Value = { Trace };

    ghost use Rattle.disk_model.specs.Room.{trace_of, IsKept};

    ghost view = { trace_of };

    ghost invariant = { IsKept };
}

impl TracedDisk {
    ghost use Rattle.disk_model.specs.Trace.{has_room, disk_of, IsNoted, IsRefused};
    ghost use Rattle.disk_model.specs.Trace.Call.{Wrote, Synced, Restarted};

    /// Zero bytes, nothing pending and no call. The size is in bytes.
    pub fn new(alloc: Global, size: u64, calls: u32, bytes: u64) -> Result<TracedDisk, NoMemory>
        requires { size < 2 ^ 32 }
        ensures { IfOk result (λ disk. disk ≡ record { size = size; calls = []; call_room = calls; byte_room = bytes; faults = 0 }) }
    {
        Ok(TracedDisk {
            disk: MemDisk::new(alloc, size)?,
            calls: with_room(alloc, calls as usize)?,
            bytes: with_room(alloc, bytes as usize)?,
            call_room: calls,
            byte_room: bytes,
            faults: 0,
        })
    }

    /// Reads the present bytes from an offset on.
    pub fn read(&self, at: u64, into: &mut [u8])
        requires { at + length into.old ≤ length (disk_of self.now).present }
        ensures { into.new ≡ take (length into.old) (drop at (disk_of self.now).present) }
    {
        self.disk.read(at, into);
    }

    /// Whether there is room for one more call, with so many bytes.
    pub fn has_room(&self, bytes: u64) -> bool
        ensures { result ≡ has_room bytes self.now }
    {
        self.calls.len() < self.call_room as usize
            && bytes <= self.byte_room - self.bytes.len() as u64
    }

    /// Writes over the bytes from an offset on.
    pub fn write(&mut self, at: u64, bytes: &[u8]) -> Result<(), Failed>
        requires { at + length bytes.now ≤ length (disk_of self.old).present }
        ensures noted { OnOk result (IsNoted (Wrote at bytes.now) self.old self.new) }
        ensures refused { OnErr result (IsRefused (length bytes.now) self.old self.new) }
    {
        if !self.has_room(bytes.len() as u64) {
            return Err(Failed::counted(&mut self.faults));
        }
        append(&mut self.bytes, bytes);
        self.calls.push_reserved(TracedCall::Write {
            at,
            count: bytes.len(),
        });
        self.disk.write(at, bytes);
        Ok(())
    }

    /// Makes the present bytes stable.
    pub fn flush(&mut self) -> Result<(), Failed>
        ensures noted { OnOk result (IsNoted Synced self.old self.new) }
        ensures refused { OnErr result (IsRefused 0 self.old self.new) }
    {
        if !self.has_room(0) {
            return Err(Failed::counted(&mut self.faults));
        }
        self.calls.push_reserved(TracedCall::Sync);
        self.disk.flush();
        Ok(())
    }

    /// Comes back after a crash that picks among the images, as `MemDisk` does.
    pub fn crash(&mut self, pick: u16) -> Result<(), Failed>
        requires { pick ≤ LAST_PICK }
        ensures noted { OnOk result (IsNoted (Restarted pick) self.old self.new) }
        ensures refused { OnErr result (IsRefused 0 self.old self.new) }
    {
        if !self.has_room(0) {
            return Err(Failed::counted(&mut self.faults));
        }
        self.calls.push_reserved(TracedCall::Restart { pick });
        self.disk.crash(pick);
        Ok(())
    }
}

impl Disk for TracedDisk {
    ghost use Rattle.disk_model.specs.Disk.{SameKind, KeepsRest, KeepsContent, Reads, IsWritten, IsSynced, IsSettled, IsPicked, Leaves, Pending, CountsCalls, CountsRestart, HasReadCause, last_pick};
    ghost use Rattle.disk_model.specs.Trace.{trace_state, trace_lawful, IsNoted, IsRefused};
    ghost use Rattle.disk_model.specs.Trace.Call.{Wrote, Synced, Restarted};

    ghost state = { trace_state };

    fn size(&self) -> u64 {
        self.disk.size()
    }

    fn read_at(&mut self, at: u64, into: &mut [u8]) -> Result<(), Failed>
        requires { at + length into.old ≤ (trace_state self.old).size }
        ensures read { OnOk result (Reads (trace_state self.old) at into.new) }
        ensures unchanged { KeepsContent (trace_state self.old) (trace_state self.new) }
        ensures images { Leaves (trace_state self.old) (trace_state self.new) (trace_state self.old).may_leave }
        ensures counts { CountsCalls 0 result (trace_state self.old).counts (trace_state self.new).counts }
        ensures missed { OnErr result (HasReadCause (trace_state self.old).counts (trace_state self.new).counts) }
        ensures rest { KeepsRest (trace_state self.old) (trace_state self.new) }

        ensures whole { IsOk result × (self.new ≡ self.old) }
    {
        self.read(at, into);
        Ok(())
    }

    fn write_at(&mut self, at: u64, bytes: &[u8]) -> Result<(), Failed>
        requires { at + length bytes.now ≤ (trace_state self.old).size }
        ensures written { OnOk result (IsWritten at bytes.now (trace_state self.old) (trace_state self.new)) }
        ensures images { Leaves (trace_state self.old) (trace_state self.new) (Pending at (length bytes.now) (trace_state self.old).may_leave) }
        ensures counts { CountsCalls 1 result (trace_state self.old).counts (trace_state self.new).counts }
        ensures rest { KeepsRest (trace_state self.old) (trace_state self.new) }

        ensures noted { OnOk result (IsNoted (Wrote at bytes.now) self.old self.new) }
        ensures refused { OnErr result (IsRefused (length bytes.now) self.old self.new) }
    {
        self.write(at, bytes)?;
        Ok(())
    }

    fn sync(&mut self) -> Result<(), Failed>
        ensures synced { OnOk result (IsSynced (trace_state self.old) (trace_state self.new)) }
        ensures images { Leaves (trace_state self.old) (trace_state self.new) (trace_state self.old).may_leave }
        ensures counts { CountsCalls 1 result (trace_state self.old).counts (trace_state self.new).counts }
        ensures rest { KeepsRest (trace_state self.old) (trace_state self.new) }

        ensures noted { OnOk result (IsNoted Synced self.old self.new) }
        ensures refused { OnErr result (IsRefused 0 self.old self.new) }
    {
        self.flush()?;
        Ok(())
    }

    fn restart(&mut self, pick: u16) -> Result<(), Failed>
        requires { pick ≤ LAST_PICK }
        ensures settled { OnOk result (IsSettled (trace_state self.new)) }
        ensures outcome { OnOk result (IsPicked pick (trace_state self.old) (trace_state self.new)) }
        ensures picked { OnOk result (last_pick (trace_state self.new) ≡ option_map (λ _. Some pick) (last_pick (trace_state self.old))) }
        ensures not_picked { OnErr result (last_pick (trace_state self.new) ≡ last_pick (trace_state self.old)) }
        ensures images { Leaves (trace_state self.old) (trace_state self.new) (trace_state self.old).may_leave }
        ensures counts { CountsRestart result (trace_state self.old).counts (trace_state self.new).counts }
        ensures kind { SameKind (trace_state self.old) (trace_state self.new) }

        ensures noted { OnOk result (IsNoted (Restarted pick) self.old self.new) }
        ensures refused { OnErr result (IsRefused 0 self.old self.new) }
    {
        self.crash(pick)?;
        Ok(())
    }

    ghost lawful = { trace_lawful };
}

fn with_room<T: Drop>(alloc: Global, count: usize) -> Result<Vec<T>, NoMemory>
    ensures empty { IfOk result (λ made. made.items ≡ []) }
    ensures room { IfOk result (λ made. count ≤ vec_capacity made) }
{
    let list = Vec::with_capacity(alloc, count)?;
    Ok(list)
}
