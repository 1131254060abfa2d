//! The effect of a call: what its statements do, or the first of them without a meaning.
ghost use Rattle.std.specs.Prelude.{◌≡◌, map, IfOk};
ghost use Rattle.local_tables.specs.Calls.{image_of, read_of};
ghost use Rattle.local_tables.specs.Lookups.{IsRising};

use crate::maps::copied;
use crate::row_map::RowMap;
use crate::schemas::{Effect, EffectError};
use crate::state::CallState;
use crate::tables::Tables;
use seata_types::{Image, List, NoMemory, ReadRow, Row, RowKey, Stmt};
use std::alloc::Global;
use std::collections::BTreeMap;

impl Tables {
    ghost use Rattle.std.specs.Prelude.{◌≡◌, ◌≤◌, length, Ok, IfOk};
    ghost use Rattle.seata_types.specs.declared.limits.TheConstants.{FIELD_ITEMS};
    ghost use Rattle.local_tables.specs.Calls.{nothing, steps, Means, effect};
    ghost use Rattle.local_tables.specs.Rows.{AreRising, AreImagesOf};
    ghost use Rattle.local_tables.specs.Sound.{AreChangesOf};

    /// The statements one after the other: what they did, or the first without a meaning, counted from 1, and why.
    fn run(&self, alloc: Global, stmts: &[Stmt]) -> Result<CallState, EffectError>
        requires { length stmts.now ≤ FIELD_ITEMS }
        ensures meaning { Means (steps self.now 0 (Ok nothing) stmts.now) result }
        ensures changes { IfOk result (λ call. AreChangesOf self.now.resource self.now.schema call.changes) }
    {
        let mut call = CallState::new(alloc);
        for (i, stmt) in stmts.iter().enumerate() {
            match self.step(alloc, &mut call, stmt) {
                Ok(None) => {}
                Ok(Some(why)) => {
                    let index = (i + 1) as u16;
                    return Err(EffectError::At { index, why });
                }
                Err(NoMemory) => return Err(EffectError::NoMemory),
            }
        }
        Ok(call)
    }

    /// What the statements of a call would do, on these tables: each row that they touch with the row before and after
    /// them, each row that they read as they read it last, and how many rows each of them touches. Or the first
    /// statement without a meaning, counted from 1, and why. The tables stay as they are.
    pub fn effect(&self, alloc: Global, stmts: &[Stmt]) -> Result<Effect, EffectError>
        requires { length stmts.now ≤ FIELD_ITEMS }
        ensures means { Means (effect self.now stmts.now) result }
        ensures rising { IfOk result (λ found. AreRising found.images) }
        ensures applicable { IfOk result (λ found. AreImagesOf self.now found.images) }
    {
        let call = match self.run(alloc, stmts) {
            Ok(call) => call,
            Err(error) => return Err(error),
        };
        match effect_of(alloc, &self.rows, call) {
            Ok(effect) => Ok(effect),
            Err(NoMemory) => Err(EffectError::NoMemory),
        }
    }
}

/// The effect of a call that did this on these rows.
fn effect_of(
    alloc: Global,
    rows: &BTreeMap<RowKey, Row>,
    call: CallState,
) -> Result<Effect, NoMemory>
    ensures images { IfOk result (λ found. found.images ≡ map (image_of rows.now.entries) call.changes) }
    ensures reads { IfOk result (λ found. found.reads ≡ map read_of call.reads) }
    ensures touched { IfOk result (λ found. found.touched ≡ call.touched) }
    ensures rising { IsRising call.changes }
{
    let CallState {
        changes,
        reads,
        touched,
    } = call;
    Ok(Effect {
        images: images(alloc, rows, changes)?,
        reads: reads_of(alloc, reads)?,
        touched: List::of(touched),
    })
}

/// The row of a key before the call, and as it is now.
fn image_of(
    alloc: Global,
    rows: &BTreeMap<RowKey, Row>,
    key: RowKey,
    after: Option<Row>,
) -> Result<Image, NoMemory>
    ensures { IfOk result (λ image. image ≡ image_of rows.now.entries (key, after)) }
{
    let before = copied(alloc, rows.get(&key))?;
    Ok(Image { key, before, after })
}

/// An image for each row that is touched.
fn images(
    alloc: Global,
    rows: &BTreeMap<RowKey, Row>,
    changes: RowMap<Option<Row>>,
) -> Result<List<Image>, NoMemory>
    ensures { IfOk result (λ images. images ≡ map (image_of rows.now.entries) changes) }
{
    let mut images = Vec::new(alloc);
    for (key, after) in changes.into_entries() {
        let image = image_of(alloc, rows, key, after)?;
        images.push(image)?;
    }
    Ok(List::of(images))
}

/// A read for each row that is read.
fn reads_of(alloc: Global, rows: RowMap<Row>) -> Result<List<ReadRow>, NoMemory>
    ensures { IfOk result (λ reads. reads ≡ map read_of rows) }
{
    let mut reads = Vec::new(alloc);
    for (key, row) in rows.into_entries() {
        reads.push(ReadRow { key, row })?;
    }
    Ok(List::of(reads))
}
