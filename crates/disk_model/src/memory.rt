ghost use Rattle.std.specs.Prelude.{◌≡◌, ◌+◌, ◌^◌, ◌<◌, ◌≤◌, length, take, drop, IfOk, OnOk};
ghost use Rattle.disk_model.specs.declared.disk.TheConstants.{LAST_PICK};
ghost use Rattle.disk_model.specs.Memory.{picked, picked_byte};

use crate::disk::{Disk, LAST_PICK};
use crate::errors::{Failed, NoMemory};
use crate::pending::PendingBytes;
use crate::saved::SavedBytes;
use std::alloc::Global;
use std::marker::Model;

/// A disk in memory, which tells its images. No call of it fails but `new`, and no other takes memory. What was never
/// written is not touched: a disk costs what is used of it.
///
/// After a crash with pick 0 each pending byte has its stable value, with pick 1 its present value, and with
/// pick `2 + b` the value b.
#[derive(Drop)]
pub struct MemDisk {
    bytes: SavedBytes,
    pending: PendingBytes,
    last_pick: Option<u16>,
}

impl Model for MemDisk {
    ghost use Rattle.disk_model.specs.Memory.{Memory};

    ghost Value = { Memory };

    ghost use Rattle.disk_model.specs.Bytes.{memory_of, IsStored};

    ghost view = { memory_of };

    ghost invariant = { λ disk. IsStored (memory_of disk) };
}

impl MemDisk {
    ghost use Rattle.disk_model.specs.Memory.{IsSound, new_memory, written, settled, crashed};

    /// Zero bytes, and nothing pending. The size is in bytes.
    pub fn new(alloc: Global, size: u64) -> Result<MemDisk, NoMemory>
        requires { size < 2 ^ 32 }
        ensures { IfOk result (λ disk. disk ≡ new_memory size) }
    {
        let size = size as usize;
        Ok(MemDisk {
            bytes: SavedBytes::new(alloc, size)?,
            pending: PendingBytes::new(alloc, size)?,
            last_pick: None,
        })
    }

    /// Reads the present bytes from an offset on.
    pub fn read(&self, at: u64, into: &mut [u8])
        requires { at + length into.old ≤ length self.now.present }
        ensures { into.new ≡ take (length into.old) (drop at self.now.present) }
    {
        self.bytes.read(at as usize, into);
    }

    /// Writes over the bytes from an offset on.
    pub fn write(&mut self, at: u64, bytes: &[u8])
        requires { at + length bytes.now ≤ length self.old.present }
        ensures written { self.new ≡ written at bytes.now self.old }
        ensures sound { IsSound self.old }
    {
        let low = at as usize;
        self.bytes.write(low, bytes);
        self.pending.add(low, low + bytes.len());
    }

    /// Makes the present bytes stable.
    pub fn flush(&mut self)
        ensures settled { self.new ≡ settled self.old }
        ensures sound { IsSound self.old }
    {
        self.bytes.settle();
        self.pending.clear();
    }

    /// Comes back after a crash that picks among the images.
    pub fn crash(&mut self, pick: u16)
        requires { pick ≤ LAST_PICK }
        ensures crashed { self.new ≡ crashed pick self.old }
        ensures sound { IsSound self.old }
    {
        pick_pending(&mut self.bytes, &self.pending, pick);
        self.flush();
        self.last_pick = Some(pick);
    }
}

impl Disk for MemDisk {
    ghost use Rattle.disk_model.specs.Disk.{IsWritten, Leaves, Pending, CountsCalls, KeepsRest};
    ghost use Rattle.disk_model.specs.Memory.{memory_state, memory_lawful, written};

    ghost state = { memory_state };

    fn size(&self) -> u64 {
        self.bytes.len() as u64
    }

    fn read_at(&mut self, at: u64, into: &mut [u8]) -> Result<(), Failed> {
        self.read(at, into);
        Ok(())
    }

    fn write_at(&mut self, at: u64, bytes: &[u8]) -> Result<(), Failed>
        requires { at + length bytes.now ≤ (memory_state self.old).size }
        ensures written { OnOk result (IsWritten at bytes.now (memory_state self.old) (memory_state self.new)) }
        ensures images { Leaves (memory_state self.old) (memory_state self.new) (Pending at (length bytes.now) (memory_state self.old).may_leave) }
        ensures counts { CountsCalls 1 result (memory_state self.old).counts (memory_state self.new).counts }
        ensures rest { KeepsRest (memory_state self.old) (memory_state self.new) }

        ensures exact { self.new ≡ written at bytes.now self.old }
    {
        self.write(at, bytes);
        Ok(())
    }

    fn sync(&mut self) -> Result<(), Failed> {
        self.flush();
        Ok(())
    }

    fn restart(&mut self, pick: u16) -> Result<(), Failed> {
        self.crash(pick);
        Ok(())
    }

    ghost lawful = { memory_lawful };
}

// Picks a value for each pending byte.
fn pick_pending(bytes: &mut SavedBytes, pending: &PendingBytes, pick: u16)
    requires pick { pick ≤ LAST_PICK }
    requires stable { length bytes.old.stable ≡ length bytes.old.present }
    requires marks { length pending.now ≡ length bytes.old.present }
    ensures { bytes.new ≡ record bytes.old { present = picked pick pending.now bytes.old.stable bytes.old.present } }
{
    let (low, high) = pending.bounds();
    for k in low..high {
        if pending.contains(k) {
            let byte = picked_byte(pick, bytes.stable(k), bytes.present(k));
            bytes.write(k, &[byte]);
        }
    }
}

fn picked_byte(pick: u16, stable: u8, present: u8) -> u8
    requires { pick ≤ LAST_PICK }
    ensures { result ≡ picked_byte pick stable present }
{
    match pick {
        0 => stable,
        1 => present,
        _ => (pick - 2) as u8,
    }
}
