//! A value with several owners.
ghost use Rattle.std.specs.Prelude.{◌≡◌, IfOk};

use crate::copies::{Duplicate, NoMemory};
use std::alloc::Global;
use std::marker::Model;
use std::sync::Arc;

/// A value that each of its owners reads and none changes, whatever thread it is on. A copy is one owner more. Contracts see
/// the value alone.
#[derive(Drop)]
pub struct Shared<T> {
    value: Arc<T>,
}

impl<T> Model for Shared<T> {
    ghost use Rattle.std.specs.Arc.{arc_value};

    ghost Value = { T };

    ghost coded = { T.code };

    ghost view = { λ s. arc_value s.value };
}

impl<T: Drop> Shared<T> {
    /// The same value, with one owner.
    pub fn new(alloc: Global, value: T) -> Result<Shared<T>, NoMemory>
        ensures { IfOk result (λ shared. shared ≡ value) }
    {
        Ok(Shared {
            value: Arc::new(alloc, value)?,
        })
    }
}

impl<T> Shared<T> {
    /// The value itself; takes no memory.
    pub fn get(&self) -> &T
        ensures { result.now ≡ self.now }
    {
        &self.value
    }
}

impl<T: Drop> Duplicate for Shared<T> {
    fn copy(&self, _alloc: Global) -> Result<Self, NoMemory> {
        Ok(Shared {
            value: self.value.clone()?,
        })
    }
}
