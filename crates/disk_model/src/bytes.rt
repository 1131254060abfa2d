//! Rows of bytes, as the crates of this layer make them.
ghost use Rattle.std.specs.Prelude.{◌≡◌, ◌+◌, ◌≤◌, ◌++◌, length, replicate, vec_len, vec_capacity, IfOk};

use crate::errors::NoMemory;
use std::alloc::Global;

/// So many zero bytes.
pub fn zeros(alloc: Global, count: usize) -> Result<Vec<u8>, NoMemory>
    ensures { IfOk result (λ made. made.items ≡ replicate count 0) }
{
    let bytes = vec![in alloc; 0; count]?;
    Ok(bytes)
}

/// Appends bytes for which there is room. It takes no memory.
pub fn append(into: &mut Vec<u8>, bytes: &[u8])
    requires { vec_len into.old + length bytes.now ≤ vec_capacity into.old }
    ensures items { into.new.items ≡ into.old.items ++ bytes.now }
    ensures capacity { vec_capacity into.old ≤ vec_capacity into.new }
{
    into.extend_from_slice(bytes).unwrap();
}
