//! What statements would do now.
ghost use Rattle.std.specs.Prelude.{◌≡◌, ◌≤◌, length, IfOk};
ghost use Rattle.seata_types.specs.declared.limits.TheConstants.{FIELD_ITEMS};
ghost use Rattle.local_tables.specs.Calls.{effect};
ghost use Rattle.history_rules.specs.ResourceRules.{untouched};
ghost use Rattle.resource_rules.specs.Meanings.{Tells};

use local_tables::{Effect, EffectError, Tables};
use seata_types::{NoMemory, Stmt, StmtError};
use std::alloc::Global;

/// The effect of statements on the tables as they are now, or the first of them without a meaning, counted from 1, and why.
pub(crate) fn meaning(
    alloc: Global,
    tables: &Tables,
    stmts: &[Stmt],
) -> Result<Result<Effect, (u16, StmtError)>, NoMemory>
    requires { length stmts.now ≤ FIELD_ITEMS }
    ensures { IfOk result (λ found. found ≡ effect tables.now stmts.now) }
{
    match tables.effect(alloc, stmts) {
        Ok(effect) => Ok(Ok(effect)),
        Err(error) => unmeant(error),
    }
}

// The answer where they have no effect.
fn unmeant(error: EffectError) -> Result<Result<Effect, (u16, StmtError)>, NoMemory>
    ensures { Tells error result }
{
    match error {
        EffectError::At { index, why } => Ok(Err((index, why))),
        EffectError::NoMemory => Err(NoMemory),
    }
}

/// The first statement that touched no row, counted from 1; takes no memory.
pub(crate) fn untouched(touched: &[u32]) -> Option<u16>
    requires { length touched.now ≤ FIELD_ITEMS }
    ensures { result ≡ untouched 1 touched.now }
{
    for (at, rows) in touched.iter().enumerate() {
        if *rows == 0 {
            return Some((at + 1) as u16);
        }
    }
    None
}
