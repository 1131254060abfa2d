//! A row of values that costs what is used of it.
ghost use Rattle.std.specs.Prelude.{◌≡◌, ◌+◌, ◌-◌, ◌<◌, ◌≤◌, ◌++◌, List, length, take, drop, replicate, slice_index_or, vec_capacity, IfOk};
ghost use Rattle.disk_model.specs.Disk.{put};
ghost use Rattle.disk_model.specs.Padding.{padded, IsReserved};

use crate::errors::NoMemory;
use std::alloc::Global;
use std::marker::Model;

/// So many values, seen as their list. Room for all is reserved when it is made, and none of it is touched: behind the
/// last value that was set all are blank, without being there. No call but `new` takes memory.
#[derive(Drop)]
pub struct LazyRow<T: Copy> {
    // The first values. All others are blank.
    there: Vec<T>,
    size: usize,
    blank: T,
}

impl<T: Copy> Model for LazyRow<T> {
    ghost Value = { List T };

    ghost view = { λ row. padded row.size row.blank row.there.items };

    ghost invariant = { λ row. IsReserved row.size (length row.there.items) (vec_capacity row.there) };
}

impl<T: Copy> LazyRow<T> {
    /// So many blank values.
    pub fn new(alloc: Global, size: usize, blank: T) -> Result<LazyRow<T>, NoMemory>
        ensures { IfOk result (λ row. row ≡ replicate size blank) }
    {
        Ok(LazyRow {
            there: Vec::with_capacity(alloc, size)?,
            size,
            blank,
        })
    }

    /// How many values there are, blank or not.
    pub fn len(&self) -> usize
        ensures { result ≡ length self.now }
    {
        self.size
    }

    /// The value at a place.
    pub fn get(&self, at: usize) -> T
        requires { at < length self.now }
        ensures { (d : T) → slice_index_or self.now at d ≡ result }
    {
        if at < self.there.len() {
            self.there[at]
        } else {
            self.blank
        }
    }

    /// Reads the values from a place on.
    pub fn read(&self, at: usize, into: &mut [T])
        requires { at + length into.old ≤ length self.now }
        ensures { into.new ≡ take (length into.old) (drop at self.now) }
    {
        let there = self.there.len();
        if at + into.len() <= there {
            into.copy_from_slice(&self.there[at..at + into.len()]);
        } else {
            set_all(into, self.blank);
            copy_there(&self.there, at, into);
        }
    }

    /// Writes over the values from a place on.
    #[inline(always)]
    pub fn write(&mut self, at: usize, values: &[T])
        requires { at + length values.now ≤ length self.old }
        ensures { self.new ≡ put at values.now self.old }
    {
        let there = self.there.len();
        if at + values.len() <= there {
            self.there[at..at + values.len()].copy_from_slice(values);
        } else {
            self.there.resize(at, self.blank).unwrap();
            self.there.extend_from_slice(values).unwrap();
        }
    }

    /// Sets the values from `low` to below `high`.
    pub fn fill(&mut self, low: usize, high: usize, value: T)
        requires order { low ≤ high }
        requires end { high ≤ length self.old }
        ensures { self.new ≡ put low (replicate (high - low) value) self.old }
    {
        reach(&mut self.there, high, self.blank);
        fill_there(&mut self.there, low, high, value);
    }

    /// Appends the values from `low` to below `high` to others, for which there is room.
    #[inline(always)]
    pub fn append_to(&self, low: usize, high: usize, into: &mut Vec<T>)
        requires order { low ≤ high }
        requires end { high ≤ length self.now }
        requires room { length into.old.items + (high - low) ≤ vec_capacity into.old }
        ensures items { into.new.items ≡ into.old.items ++ take (high - low) (drop low self.now) }
        ensures capacity { vec_capacity into.old ≤ vec_capacity into.new }
    {
        if high <= self.there.len() {
            into.extend_from_slice(&self.there[low..high]).unwrap();
        } else {
            let end = into.len() + (high - low);
            append_there(&self.there, low, into);
            reach(into, end, self.blank);
        }
    }
}

// Appends what is there from a place on.
fn append_there<T: Copy>(there: &[T], low: usize, into: &mut Vec<T>)
    requires { length into.old.items + (length there.now - low) ≤ vec_capacity into.old }
    ensures items { into.new.items ≡ into.old.items ++ drop low there.now }
    ensures capacity { vec_capacity into.old ≤ vec_capacity into.new }
{
    if low < there.len() {
        into.extend_from_slice(&there[low..]).unwrap();
    }
}

// Puts blank values behind these, up to so many.
fn reach<T: Copy>(there: &mut Vec<T>, end: usize, blank: T)
    requires { end ≤ vec_capacity there.old }
    ensures items { there.new.items ≡ there.old.items ++ replicate (end - length there.old.items) blank }
    ensures capacity { vec_capacity there.old ≤ vec_capacity there.new }
{
    if there.len() < end {
        there.resize(end, blank).unwrap();
    }
}

// Copies what is there from a place on, as far as it goes.
fn copy_there<T: Copy>(there: &[T], at: usize, into: &mut [T])
    ensures { into.new ≡ take (length into.old) (drop at there.now) ++ drop (length there.now - at) into.old }
{
    if at >= there.len() {
        return;
    }
    let count = into.len().min(there.len() - at);
    into[..count].copy_from_slice(&there[at..at + count]);
}

// Sets the values from `low` to below `high`, which are there.
fn fill_there<T: Copy>(there: &mut Vec<T>, low: usize, high: usize, value: T)
    requires order { low ≤ high }
    requires end { high ≤ length there.old.items }
    ensures items { there.new.items ≡ put low (replicate (high - low) value) there.old.items }
    ensures capacity { vec_capacity there.old ≤ vec_capacity there.new }
{
    set_all(&mut there[low..high], value);
}

// Sets all values of a part.
fn set_all<T: Copy>(part: &mut [T], value: T)
    ensures { part.new ≡ replicate (length part.old) value }
{
    for k in 0..part.len() {
        part[k] = value;
    }
}
