//! The bytes of a disk in memory, present and stable.
ghost use Rattle.std.specs.Prelude.{◌≡◌, ◌+◌, ◌-◌, ◌<◌, ◌≤◌, ◌++◌, length, take, drop, replicate, slice_index_or, vec_capacity, IfOk};
ghost use Rattle.disk_model.specs.Disk.{put};
ghost use Rattle.disk_model.specs.Sides.{Sides, sides_of, IsSaved};

use crate::errors::NoMemory;
use crate::lazy::LazyRow;
use std::alloc::Global;
use std::marker::Model;

/// The present bytes, and the stable ones: those of before the writes since the bytes were settled. Only where such a write
/// changed them are these kept apart, so that to settle them takes no time. No call but `new` takes memory.
#[derive(Drop)]
pub struct SavedBytes {
    present: LazyRow<u8>,
    // The stable bytes from `from` on, as many as there are. All others are as the present ones.
    saved: Vec<u8>,
    from: usize,
}

impl Model for SavedBytes {
    ghost Value = { Sides };

    ghost view = { λ bytes. sides_of bytes.from bytes.saved.items bytes.present };

    ghost invariant = { λ bytes. IsSaved bytes.from (length bytes.saved.items) (length bytes.present) (vec_capacity bytes.saved) };
}

impl SavedBytes {
    /// So many zero bytes.
    pub fn new(alloc: Global, size: usize) -> Result<SavedBytes, NoMemory>
        ensures { IfOk result (λ bytes. bytes ≡ record { stable = replicate size 0; present = replicate size 0 }) }
    {
        Ok(SavedBytes {
            present: LazyRow::new(alloc, size, 0)?,
            saved: Vec::with_capacity(alloc, size)?,
            from: 0,
        })
    }

    /// How many bytes there are.
    pub fn len(&self) -> usize
        ensures { result ≡ length self.now.present }
    {
        self.present.len()
    }

    /// Reads the present bytes from a place on.
    pub fn read(&self, at: usize, into: &mut [u8])
        requires { at + length into.old ≤ length self.now.present }
        ensures { into.new ≡ take (length into.old) (drop at self.now.present) }
    {
        self.present.read(at, into);
    }

    /// The present byte at a place.
    pub fn present(&self, at: usize) -> u8
        requires { at < length self.now.present }
        ensures { (d : _) → slice_index_or self.now.present at d ≡ result }
    {
        self.present.get(at)
    }

    /// The stable byte at a place.
    pub fn stable(&self, at: usize) -> u8
        requires { at < length self.now.present }
        ensures { (d : _) → slice_index_or self.now.stable at d ≡ result }
    {
        if self.from <= at && at - self.from < self.saved.len() {
            self.saved[at - self.from]
        } else {
            self.present.get(at)
        }
    }

    /// Writes over the present bytes from a place on.
    #[inline(always)]
    pub fn write(&mut self, at: usize, bytes: &[u8])
        requires { at + length bytes.now ≤ length self.old.present }
        ensures { self.new ≡ record self.old { present = put at bytes.now self.old.present } }
    {
        self.from = save(
            &self.present,
            &mut self.saved,
            self.from,
            at,
            at + bytes.len(),
        );
        self.present.write(at, bytes);
    }

    /// Makes the present bytes the stable ones.
    pub fn settle(&mut self)
        ensures { self.new ≡ record { stable = self.old.present; present = self.old.present } }
    {
        self.saved.clear();
    }
}

// Saves what the range from `low` to below `high` still lacks, before it is written over. The place where all that is saved
// begins then.
#[inline(always)]
fn save(present: &LazyRow<u8>, saved: &mut Vec<u8>, from: usize, low: usize, high: usize) -> usize
    requires room { IsSaved from (length saved.old.items) (length present.now) (vec_capacity saved.old) }
    requires order { low ≤ high }
    requires end { high ≤ length present.now }
    ensures same { put result saved.new.items present.now ≡ put from saved.old.items present.now }
    ensures room { IsSaved result (length saved.new.items) (length present.now) (vec_capacity saved.new) }
    ensures begins { result ≤ low }
    ensures ends { high ≤ result + length saved.new.items }
{
    if saved.is_empty() {
        present.append_to(low, high, saved);
        return low;
    }
    let from = save_in_front(present, saved, from, low);
    save_behind(present, saved, from, high);
    from
}

// Saves the bytes up to below `high` that lie behind what is saved.
#[inline(never)]
fn save_behind(present: &LazyRow<u8>, saved: &mut Vec<u8>, from: usize, high: usize)
    requires room { IsSaved from (length saved.old.items) (length present.now) (vec_capacity saved.old) }
    requires end { high ≤ length present.now }
    ensures same { put from saved.new.items present.now ≡ put from saved.old.items present.now }
    ensures room { IsSaved from (length saved.new.items) (length present.now) (vec_capacity saved.new) }
    ensures ends { high ≤ from + length saved.new.items }
{
    let end = from + saved.len();
    if end < high {
        present.append_to(end, high, saved);
    }
}

// Saves the bytes from `low` on that lie in front of what is saved, and as many again as are saved, so that writes from the
// back to the front move each of them a few times only.
#[inline(never)]
fn save_in_front(present: &LazyRow<u8>, saved: &mut Vec<u8>, from: usize, low: usize) -> usize
    requires room { IsSaved from (length saved.old.items) (length present.now) (vec_capacity saved.old) }
    ensures same { put result saved.new.items present.now ≡ put from saved.old.items present.now }
    ensures room { IsSaved result (length saved.new.items) (length present.now) (vec_capacity saved.new) }
    ensures begins { result ≤ low }
{
    if from <= low {
        return from;
    }
    let count = saved.len();
    let begin = low.saturating_sub(count);
    present.append_to(begin, from, saved);
    saved.rotate_left(count);
    begin
}
