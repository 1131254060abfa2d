ghost use Rattle.std.specs.Prelude.{◌≡◌, ◌-◌, ◌<◌, ◌≤◌, Bool, true, false, List, length, replicate, slice_index_or, IfOk};
ghost use Rattle.disk_model.specs.Bounds.{marks_with, IsBounded};
ghost use Rattle.disk_model.specs.Disk.{put};
ghost use Rattle.disk_model.specs.Memory.{MarksWithin};

use crate::errors::NoMemory;
use crate::lazy::LazyRow;
use std::alloc::Global;
use std::marker::Model;

/// Which bytes of a disk are pending, seen as a mark for each byte.
///
/// Mostly that is one range, a write before its sync, and then no mark is touched.
#[derive(Drop)]
pub struct PendingBytes {
    // Whether all from `low` to below `high` is pending, and no mark is set. Else the marks say what is pending.
    whole: bool,
    // All that is pending lies from `low` to below `high`, so that a sync visits no more than that.
    low: usize,
    high: usize,
    marks: LazyRow<bool>,
}

impl Model for PendingBytes {
    ghost Value = { List Bool };

    ghost view = { λ kept. marks_with kept.whole kept.low kept.high kept.marks };

    ghost invariant = { λ kept. IsBounded kept.whole kept.low kept.high kept.marks };
}

impl PendingBytes {
    /// No byte of so many is pending.
    pub fn new(alloc: Global, count: usize) -> Result<PendingBytes, NoMemory>
        ensures { IfOk result (λ pending. pending ≡ replicate count false) }
    {
        Ok(PendingBytes {
            whole: true,
            low: 0,
            high: 0,
            marks: LazyRow::new(alloc, count, false)?,
        })
    }

    /// The offset of the first byte that may be pending, and that behind the last one.
    pub fn bounds(&self) -> (usize, usize)
        ensures within { MarksWithin result.0 result.1 self.now }
        ensures order { result.0 ≤ result.1 }
        ensures end { result.1 ≤ length self.now }
    {
        (self.low, self.high)
    }

    /// Whether the byte at an offset is pending.
    pub fn contains(&self, at: usize) -> bool
        requires { at < length self.now }
        ensures { result ≡ slice_index_or self.now at false }
    {
        if self.whole {
            self.low <= at && at < self.high
        } else {
            self.marks.get(at)
        }
    }

    /// Adds the bytes from `low` to below `high`.
    pub fn add(&mut self, low: usize, high: usize)
        requires order { low ≤ high }
        requires end { high ≤ length self.old }
        ensures { self.new ≡ put low (replicate (high - low) true) self.old }
    {
        if self.low == self.high {
            self.whole = true;
            self.low = low;
            self.high = high;
        } else if self.whole && low <= self.high && self.low <= high {
            self.low = self.low.min(low);
            self.high = self.high.max(high);
        } else {
            if self.whole {
                self.marks.fill(self.low, self.high, true);
            }
            self.marks.fill(low, high, true);
            self.whole = false;
            self.low = self.low.min(low);
            self.high = self.high.max(high);
        }
    }

    /// After this no byte is pending.
    pub fn clear(&mut self)
        ensures { self.new ≡ replicate (length self.old) false }
    {
        if !self.whole {
            self.marks.fill(self.low, self.high, false);
        }
        self.whole = true;
        self.low = 0;
        self.high = 0;
    }
}
