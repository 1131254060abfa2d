//! A value in a box of its own.
ghost use Rattle.std.specs.Prelude.{◌≡◌, IfOk};
ghost use Rattle.std.specs.Cmp.{on_equiv, on_per};

use crate::copies::{Duplicate, NoMemory};
use std::alloc::Global;
use std::marker::Model;

/// A large part of a value, in a box, so that where the value goes one pointer is moved. Contracts see the part alone.
#[derive(Drop)]
pub struct Boxed<T> {
    value: Box<T>,
}

impl<T> Model for Boxed<T> {
    ghost Value = { T };

    ghost coded = { T.code };

    ghost view = { λ b. b.value.value };
}

impl<T: Drop> Boxed<T> {
    /// The same value, in a box.
    pub fn new(alloc: Global, value: T) -> Result<Boxed<T>, NoMemory>
        ensures { IfOk result (λ boxed. boxed ≡ value) }
    {
        Ok(Boxed {
            value: Box::new(alloc, value)?,
        })
    }

    /// Another value in the same box; takes no memory.
    pub fn set(&mut self, value: T)
        ensures { self.new ≡ value }
    {
        drop(Box::replace(&mut self.value, value));
    }
}

impl<T> Boxed<T> {
    /// The value itself; takes no memory.
    pub fn get(&self) -> &T
        ensures { result.now ≡ self.now }
    {
        self.value.as_ref()
    }

    /// The value, out of its box; takes no memory.
    pub fn into_inner(self) -> T
        ensures { result ≡ self }
    {
        let Boxed { value } = self;
        Box::into_inner(value)
    }
}

impl<T: Duplicate + Drop> Duplicate for Boxed<T> {
    fn copy(&self, alloc: Global) -> Result<Self, NoMemory> {
        let value = self.get().copy(alloc)?;
        Boxed::new(alloc, value)
    }
}

impl<T: PartialEq> PartialEq for Boxed<T> {
    ghost eq = { λ a b. T.eq a b };

    ghost laws = { on_per (λ a. a) T.laws };

    fn eq(&self, other: &Self) -> bool {
        *self.get() == *other.get()
    }
}

impl<T: Eq> Eq for Boxed<T> {
    ghost laws = { on_equiv (λ a. a) T.Eq.laws };
}
