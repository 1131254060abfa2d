//! The records of a resource, made of what is kept of an open ticket or of the statements of the scenario.
ghost use Rattle.std.specs.Prelude.{◌≡◌, ◌≤◌, length, option_map, IfOk, IfSome};
ghost use Rattle.std.specs.Option.{option_copied};
ghost use Rattle.seata_types.specs.declared.limits.TheConstants.{FIELD_ITEMS};
ghost use Rattle.history_rules.specs.ResourceMemory.{no_effect, effect_on, or_empty};
ghost use Rattle.report_text.specs.Made.{images_on, committed_from, tried_from, local_from, plain_made};
ghost use Rattle.report_text.specs.Numbered.{AreFew};
ghost use Rattle.report_text.specs.Opens.{HasFew};

use crate::kept::OpenWork;
use durable_records::ResourceRecord;
use local_tables::{Effect, EffectError, Tables};
use seata_types::{BranchId, Durable, Image, List, NoMemory, Stmt, Xid};
use std::alloc::Global;

// The effect of nothing.
fn no_effect(alloc: Global) -> Effect
    ensures { result ≡ no_effect }
{
    Effect {
        images: List::of(Vec::new(alloc)),
        reads: List::of(Vec::new(alloc)),
        touched: List::of(Vec::new(alloc)),
    }
}

// The effect of statements that have one.
fn effect_on(alloc: Global, tables: &Tables, stmts: &List<Stmt>) -> Result<Effect, NoMemory>
    requires { length stmts.now ≤ FIELD_ITEMS }
    ensures { IfOk result (λ effect. effect ≡ effect_on tables.now stmts.now) }
{
    match tables.effect(alloc, stmts.as_slice()) {
        Ok(effect) => Ok(effect),
        Err(EffectError::At { .. }) => Ok(no_effect(alloc)),
        Err(EffectError::NoMemory) => Err(NoMemory),
    }
}

/// The effect of statements, where there are some; of none it is nothing.
pub(crate) fn effect_of(
    alloc: Global,
    tables: &Tables,
    run: Option<&List<Stmt>>,
) -> Result<Effect, NoMemory>
    requires { AreFew (option_copied run) }
    ensures { IfOk result (λ effect. effect ≡
        effect_on tables.now (or_empty (option_copied run.entry))) }
{
    match run {
        Some(stmts) => effect_on(alloc, tables, stmts),
        None => Ok(no_effect(alloc)),
    }
}

// The images of this effect.
fn images_on(
    alloc: Global,
    tables: &Tables,
    run: Option<&List<Stmt>>,
) -> Result<List<Image>, NoMemory>
    requires { AreFew (option_copied run) }
    ensures { IfOk result (λ images. images ≡ images_on tables.now (option_copied run.entry)) }
{
    let Effect { images, .. } = effect_of(alloc, tables, run)?;
    Ok(images)
}

/// The record of a local commit, of its ticket.
pub(crate) fn committed(
    xid: Xid,
    branch: BranchId,
    work: Option<OpenWork>,
) -> Option<ResourceRecord>
    ensures { result ≡ option_map (committed_from xid branch) work }
{
    match work {
        Some(
            OpenWork {
                call,
                tries: _,
                images,
                reads,
            },
        ) => Some(ResourceRecord::Committed {
            xid,
            branch,
            call,
            images,
            reads,
        }),
        None => None,
    }
}

/// The record of a local transaction, of its ticket.
pub(crate) fn local_committed(number: u16, work: Option<OpenWork>) -> Option<ResourceRecord>
    ensures { result ≡ option_map (local_from number) work }
{
    match work {
        Some(OpenWork { images, .. }) => Some(ResourceRecord::LocalCommitted { number, images }),
        None => None,
    }
}

/// The record of a Try, of the statements of its ticket.
pub(crate) fn tried(
    alloc: Global,
    tables: &Tables,
    xid: Xid,
    branch: BranchId,
    work: Option<OpenWork>,
) -> Result<Option<ResourceRecord>, NoMemory>
    requires { IfSome work HasFew }
    ensures { IfOk result (λ made. made ≡ option_map (tried_from xid branch tables.now) work) }
{
    let Some(work) = work else {
        return Ok(None);
    };
    let images = images_on(alloc, tables, Some(&work.tries))?;
    Ok(Some(ResourceRecord::Tried {
        xid,
        branch,
        call: work.call,
        images,
    }))
}

/// The record of a durable act that ends no ticket.
pub(crate) fn plain_record(
    alloc: Global,
    tables: &Tables,
    run: Option<&List<Stmt>>,
    done: Durable,
) -> Result<Option<ResourceRecord>, NoMemory>
    requires few { AreFew (option_copied run) }
    ensures { IfOk result (λ made. made ≡ plain_made tables.now (option_copied run.entry) done) }
{
    match done {
        Durable::Cleared { xid, branch } => Ok(Some(ResourceRecord::Cleared { xid, branch })),
        Durable::Undone { xid, branch } => Ok(Some(ResourceRecord::Undone { xid, branch })),
        Durable::Marked { xid, branch } => Ok(Some(ResourceRecord::Marked { xid, branch })),
        Durable::Suspended { xid, branch } => Ok(Some(ResourceRecord::Suspended { xid, branch })),
        Durable::Confirmed { xid, branch } => {
            let images = images_on(alloc, tables, run)?;
            Ok(Some(ResourceRecord::Confirmed {
                xid,
                branch,
                images,
            }))
        }
        Durable::Cancelled { xid, branch } => {
            let images = images_on(alloc, tables, run)?;
            Ok(Some(ResourceRecord::Cancelled {
                xid,
                branch,
                images,
            }))
        }
        Durable::Outside { number } => {
            let images = images_on(alloc, tables, run)?;
            Ok(Some(ResourceRecord::Outside { number, images }))
        }
        _ => Ok(None),
    }
}
