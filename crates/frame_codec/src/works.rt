//! What a call asks: its statements as their canonical texts, taken and put.
ghost use Rattle.std.specs.Prelude.{◌≡◌, ◌++◌, All, IfOk, OnOk, Ok, None};
ghost use Rattle.std.specs.List.{flat_map};
ghost use Rattle.seata_types.specs.Orders.{same_text};
ghost use Rattle.sql_reader.specs.Readable.{IsReadable};
ghost use Rattle.sql_reader.specs.Canonical.{canonical_text};
ghost use Rattle.byte_fields.specs.Reading.{items_at};
ghost use Rattle.byte_fields.specs.Taking.{Reads};
ghost use Rattle.frame_codec.specs.Works.{FitsStmt, FitsStmts, FitsWork, stmt_bytes, stmts_bytes, work_bytes, if_canonical, stmt_of, any_stmt, stmt_at, stmts_at, at_work_at, tcc_work_at, work_at};

use byte_fields::{FieldError, Fields, put_text, put_u8, put_u16};
use seata_types::{Action, List, NoMemory, Shared, Stmt, Text, Work};
use sql_reader::{SqlError, read_stmt, write_stmt};
use std::alloc::Global;

/// Whether a text is the canonical one of a statement.
fn is_canonical(alloc: Global, stmt: &Stmt, text: &Text) -> Result<bool, NoMemory>
    requires { IsReadable stmt.now }
    ensures { IfOk result (λ same. same ≡ same_text (canonical_text stmt.now) text.now) }
{
    let written = Text::of(write_stmt(alloc, stmt)?);
    Ok(written == *text)
}

/// The statement, where the text is its canonical one.
fn if_canonical(alloc: Global, stmt: Stmt, text: &Text) -> Result<Option<Stmt>, NoMemory>
    requires { IsReadable stmt }
    ensures { IfOk result (λ found. found ≡ if_canonical text.now (Ok stmt)) }
{
    match is_canonical(alloc, &stmt, text) {
        Ok(true) => Ok(Some(stmt)),
        Ok(false) => {
            drop(stmt);
            Ok(None)
        }
        Err(NoMemory) => {
            drop(stmt);
            Err(NoMemory)
        }
    }
}

/// The statement of which a text is the canonical one.
#[tactic(auto, unfolding(crate::specs::Works::stmt_of))]
fn stmt_of(alloc: Global, text: &Text) -> Result<Option<Stmt>, NoMemory>
    ensures { IfOk result (λ found. found ≡ stmt_of text.now) }
{
    match read_stmt(alloc, text.as_str()) {
        Ok(stmt) => if_canonical(alloc, stmt, text),
        Err(error) => match error {
            SqlError::Refused { .. } => Ok(None),
            SqlError::NoMemory => Err(NoMemory),
        },
    }
}

#[tactic(auto, unfolding(crate::specs::Works::stmt_at))]
fn statement(alloc: Global, fields: &mut Fields) -> Result<Stmt, FieldError>
    ensures { Reads stmt_at fields.old fields.new result }
{
    let place = fields.at();
    let text = fields.take_text(alloc)?;
    match stmt_of(alloc, &text) {
        Ok(Some(stmt)) => Ok(stmt),
        Ok(None) => Err(FieldError::BadText { at: place }),
        Err(NoMemory) => Err(FieldError::NoMemory),
    }
}

fn so_many(alloc: Global, count: u16, fields: &mut Fields) -> Result<List<Stmt>, FieldError>
    ensures { Reads (items_at any_stmt None count) fields.old fields.new result }
{
    let mut found: Vec<Stmt> = Vec::new(alloc);
    for _ in 0..count {
        let stmt = statement(alloc, fields)?;
        found.push(stmt)?;
    }
    Ok(List::of(found))
}

#[tactic(auto, unfolding(crate::specs::Works::stmts_at))]
fn statements(alloc: Global, fields: &mut Fields) -> Result<List<Stmt>, FieldError>
    ensures { Reads stmts_at fields.old fields.new result }
{
    let count = fields.take_u16()?;
    let found = so_many(alloc, count, fields)?;
    Ok(found)
}

#[tactic(auto, unfolding(crate::specs::Works::at_work_at))]
fn at_work(alloc: Global, fields: &mut Fields) -> Result<Work, FieldError>
    ensures { Reads at_work_at fields.old fields.new result }
{
    let found = statements(alloc, fields)?;
    match Shared::new(alloc, found) {
        Ok(found) => Ok(Work::At(found)),
        Err(NoMemory) => Err(FieldError::NoMemory),
    }
}

#[tactic(auto, unfolding(crate::specs::Works::tcc_work_at))]
fn tcc_work(alloc: Global, fields: &mut Fields) -> Result<Work, FieldError>
    ensures { Reads tcc_work_at fields.old fields.new result }
{
    let tries = statements(alloc, fields)?;
    let confirms = statements(alloc, fields)?;
    let cancels = statements(alloc, fields)?;
    let action = Action {
        tries,
        confirms,
        cancels,
    };
    match Shared::new(alloc, action) {
        Ok(action) => Ok(Work::Tcc(action)),
        Err(NoMemory) => Err(FieldError::NoMemory),
    }
}

/// What a call asks, taken.
#[tactic(auto, unfolding(crate::specs::Works::work_at, byte_fields::specs::Tags::tagged))]
pub(crate) fn work(alloc: Global, fields: &mut Fields) -> Result<Work, FieldError>
    ensures { Reads work_at fields.old fields.new result }
{
    let place = fields.at();
    match fields.take_u8()? {
        0 => at_work(alloc, fields),
        1 => tcc_work(alloc, fields),
        _ => Err(FieldError::BadTag { at: place }),
    }
}

#[tactic(auto, unfolding(crate::specs::Works::stmt_bytes))]
fn put_statement(alloc: Global, out: &mut Vec<u8>, stmt: &Stmt) -> Result<(), NoMemory>
    requires { FitsStmt stmt.now }
    ensures { OnOk result (out.new.items ≡ out.old.items ++ stmt_bytes stmt.now) }
{
    let text = write_stmt(alloc, stmt)?;
    put_text(out, text.as_str())
}

fn put_each(alloc: Global, out: &mut Vec<u8>, stmts: &[Stmt]) -> Result<(), NoMemory>
    requires { All FitsStmt stmts.now }
    ensures { OnOk result (out.new.items ≡ out.old.items ++ flat_map stmt_bytes stmts.now) }
{
    for stmt in stmts {
        put_statement(alloc, out, stmt)?;
    }
    Ok(())
}

fn put_statements(alloc: Global, out: &mut Vec<u8>, stmts: &[Stmt]) -> Result<(), NoMemory>
    requires { FitsStmts stmts.now }
    ensures { OnOk result (out.new.items ≡ out.old.items ++ stmts_bytes stmts.now) }
{
    put_u16(out, stmts.len() as u16)?;
    put_each(alloc, out, stmts)
}

/// What a call asks, put.
pub(crate) fn put_work(alloc: Global, out: &mut Vec<u8>, work: &Work) -> Result<(), NoMemory>
    requires { FitsWork work.now }
    ensures { OnOk result (out.new.items ≡ out.old.items ++ work_bytes work.now) }
{
    match work {
        Work::At(stmts) => {
            put_u8(out, 0)?;
            put_statements(alloc, out, stmts.get().as_slice())
        }
        Work::Tcc(action) => {
            let action = action.get();
            put_u8(out, 1)?;
            put_statements(alloc, out, action.tries.as_slice())?;
            put_statements(alloc, out, action.confirms.as_slice())?;
            put_statements(alloc, out, action.cancels.as_slice())
        }
    }
}
