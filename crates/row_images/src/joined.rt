//! The images of two lists of statements, one after the other.
ghost use Rattle.std.specs.Prelude.{◌≡◌, ◌≢◌, ◌⊎◌, ◌+◌, ◌≤◌, ◌∷◌, [], drop, length, IfOk};
ghost use Rattle.local_tables.specs.Rows.{AreRising};
ghost use Rattle.row_images.specs.Joining.{IsJoined, merged, from_to};

use seata_types::{Duplicate, Image, List, NoMemory};
use std::alloc::Global;
use std::cmp::Ordering;

/// The image of a row that both changed: the first's before and the second's after.
fn from_to(alloc: Global, first: &Image, second: &Image) -> Result<Image, NoMemory>
    ensures { IfOk result (λ joined. joined ≡ from_to first.now second.now) }
{
    Ok(Image {
        key: first.key.copy(alloc)?,
        before: first.before.copy(alloc)?,
        after: second.after.copy(alloc)?,
    })
}

/// The image of the least key, and how many images of each list it is made of.
fn least(
    alloc: Global,
    first: &[Image],
    second: &[Image],
) -> Result<(Image, usize, usize), NoMemory>
    requires { (first.now ≢ []) ⊎ (second.now ≢ []) }
    ensures least { IfOk result (λ found. merged first.now second.now ≡ found.0 ∷ merged (drop found.1 first.now) (drop found.2 second.now)) }
    ensures some { IfOk result (λ found. 1 ≤ found.1 + found.2) }
    ensures first { IfOk result (λ found. found.1 ≤ length first.now) }
    ensures second { IfOk result (λ found. found.2 ≤ length second.now) }
{
    match (first, second) {
        ([x, ..], [y, ..]) => match x.key.cmp(&y.key) {
            Ordering::Less => Ok((x.copy(alloc)?, 1, 0)),
            Ordering::Equal => Ok((from_to(alloc, x, y)?, 1, 1)),
            Ordering::Greater => Ok((y.copy(alloc)?, 0, 1)),
        },
        ([x, ..], []) => Ok((x.copy(alloc)?, 1, 0)),
        ([], rest) => Ok((rest[0].copy(alloc)?, 0, 1)),
    }
}

/// The images of two lists of statements, one after the other: of each row the first before and the last after, in
/// rising order of keys.
pub fn join(alloc: Global, first: &[Image], second: &[Image]) -> Result<List<Image>, NoMemory>
    requires first { AreRising first.now }
    requires second { AreRising second.now }
    ensures { IfOk result (IsJoined first.now second.now) }
{
    let mut joined = Vec::new(alloc);
    let (mut i, mut j) = (0, 0);
    while i < first.len() || j < second.len() {
        let (image, a, b) = least(alloc, &first[i..], &second[j..])?;
        joined.push(image)?;
        i += a;
        j += b;
    }
    Ok(List::of(joined))
}
