//! Why an input isn't a scenario.
ghost use Rattle.std.specs.Prelude.{◌≡◌, ◌≢◌, ◌++◌, [], IfOk};
ghost use Rattle.scenario_reader.specs.Faults.{IsMoved, moved, to_member, to_item};
ghost use Rattle.scenario_reader.specs.declared.errors.ScenarioError.TheVariants as fault;

use seata_types::{NoMemory, Text};
use std::alloc::{AllocError, AllocFailed, Global};

/// Why an input isn't a scenario. Paths are JSON pointers, with places counted from 0; the root is `.`.
#[derive(Drop)]
pub enum ScenarioError {
    /// Not JSON of nesting at most `JSON_DEPTH`.
    NotJson,
    /// Not the form.
    Shape { path: Text },
    /// Too large or too small, with the bound that it passes.
    Limit { path: Text, limit: u64 },
    /// A statement outside the grammar, with the offset of what can't stand there.
    Sql { path: Text, at: usize },
    /// A statement or a table of the other mode.
    Mode { path: Text },
    /// A name that is used twice, or that isn't there.
    Name { path: Text },
    NoMemory,
}

/// The path of a value from itself.
fn here(alloc: Global) -> Text
    ensures { result ≡ [] }
{
    Text::of(String::new(alloc))
}

/// Puts this path in front of that one.
fn put_front(alloc: Global, front: &str, path: &mut Text) -> Result<(), NoMemory>
    ensures { IfOk result (λ _. path.new ≡ front.now ++ path.old) }
{
    let mut whole = String::from_str(alloc, front)?;
    whole.push_str(path.as_str())?;
    *path = Text::of(whole);
    Ok(())
}

impl ScenarioError {
    /// The value's own shape.
    pub(crate) fn shape(alloc: Global) -> ScenarioError
        ensures { result ≡ fault.Shape [] }
    {
        ScenarioError::Shape { path: here(alloc) }
    }

    /// The value's own size, with the bound that it passes.
    pub(crate) fn beyond(alloc: Global, limit: u64) -> ScenarioError
        ensures { result ≡ fault.Limit [] limit }
    {
        let path = here(alloc);
        ScenarioError::Limit { path, limit }
    }

    /// The value is a statement of another mode.
    pub(crate) fn mode(alloc: Global) -> ScenarioError
        ensures { result ≡ fault.Mode [] }
    {
        ScenarioError::Mode { path: here(alloc) }
    }

    /// The value is a name that is used, or that isn't there.
    pub(crate) fn name(alloc: Global) -> ScenarioError
        ensures { result ≡ fault.Name [] }
    {
        ScenarioError::Name { path: here(alloc) }
    }

    /// The value is no statement.
    pub(crate) fn sql(alloc: Global, at: usize) -> ScenarioError
        ensures { result ≡ fault.Sql [] at }
    {
        let path = here(alloc);
        ScenarioError::Sql { path, at }
    }

    /// Puts this path in front of the fault's own, where it has one.
    fn move_by(&mut self, alloc: Global, front: &str) -> Result<(), NoMemory>
        ensures { IfOk result (λ _. self.new ≡ moved front.now self.old) }
    {
        match self {
            ScenarioError::Shape { path } => put_front(alloc, front, path),
            ScenarioError::Limit { path, .. } => put_front(alloc, front, path),
            ScenarioError::Sql { path, .. } => put_front(alloc, front, path),
            ScenarioError::Mode { path } => put_front(alloc, front, path),
            ScenarioError::Name { path } => put_front(alloc, front, path),
            ScenarioError::NotJson | ScenarioError::NoMemory => Ok(()),
        }
    }

    /// The fault with this path in front of its own.
    fn moved(mut self, alloc: Global, front: &str) -> ScenarioError
        ensures { IsMoved front.now self result }
    {
        match self.move_by(alloc, front) {
            Ok(()) => self,
            Err(NoMemory) => {
                drop(self);
                ScenarioError::NoMemory
            }
        }
    }

    /// The fault of a value, as one of the value that has it under this name.
    pub(crate) fn in_member(self, alloc: Global, name: &str) -> ScenarioError
        ensures { IsMoved (to_member name.now) self result }
    {
        match format!(in alloc; "/{name}") {
            Ok(front) => self.moved(alloc, front.as_str()),
            Err(_) => {
                drop(self);
                ScenarioError::NoMemory
            }
        }
    }

    /// The fault of a value, as one of the list that has it at this place, counted from 0.
    pub(crate) fn in_item(self, alloc: Global, place: usize) -> ScenarioError
        ensures { IsMoved (to_item place) self result }
    {
        match format!(in alloc; "/{place}") {
            Ok(front) => self.moved(alloc, front.as_str()),
            Err(_) => {
                drop(self);
                ScenarioError::NoMemory
            }
        }
    }
}

impl From<NoMemory> for ScenarioError {
    ghost from_gives = { λ _ e. e ≡ fault.NoMemory };

    fn from(_refused: NoMemory) -> ScenarioError {
        ScenarioError::NoMemory
    }
}

impl From<AllocError> for ScenarioError {
    ghost from_gives = { λ _ e. e ≡ fault.NoMemory };

    fn from(_refused: AllocError) -> ScenarioError {
        ScenarioError::NoMemory
    }
}

impl<T: Drop> From<AllocFailed<T>> for ScenarioError {
    ghost from_gives = { λ _ e. e ≡ fault.NoMemory };

    fn from(_refused: AllocFailed<T>) -> ScenarioError {
        ScenarioError::NoMemory
    }
}
