//! Why a field could not be taken.
ghost use Rattle.std.specs.Prelude.{◌≡◌};

use std::alloc::{AllocError, AllocFailed};

/// `at` is the place, counted in bytes from the beginning, of the innermost number, text with its
/// length, tag, count of a key's values or listed item that can't be read.
#[derive(Clone, Copy, Debug, PartialEq, Eq)]
pub enum FieldError {
    /// The bytes end inside the field.
    Short { at: usize },
    /// A text isn't UTF-8, has a control character or, as a value, more than 120 bytes.
    BadText { at: usize },
    /// A tag has no meaning, a key has no value or more than four, or a listed item may not
    /// come after the one before it.
    BadTag { at: usize },
    /// Memory was refused. The bytes may hold the field or not.
    NoMemory,
}

impl From<AllocError> for FieldError {
    ghost use Rattle.byte_fields.specs.declared.errors.FieldError.TheVariants.{NoMemory as no_memory};

    ghost from_gives = { λ _ error. error ≡ no_memory };

    fn from(_: AllocError) -> FieldError {
        FieldError::NoMemory
    }
}

impl<T: Drop> From<AllocFailed<T>> for FieldError {
    ghost use Rattle.byte_fields.specs.declared.errors.FieldError.TheVariants.{NoMemory as no_memory};

    ghost from_gives = { λ _ error. error ≡ no_memory };

    fn from(_: AllocFailed<T>) -> FieldError {
        FieldError::NoMemory
    }
}
