//! What the types of a scenario's values say of them: a number has 64 bits, and a text is UTF-8.
ghost use Rattle.std.specs.Prelude.{All, OnOk};
ghost use Rattle.scenario_nodes.specs.Calls.{AreFramable, AreRead, HasType, HasTypes, IsFramableAction, IsFramableCall, IsFramableWork, IsReadAction, IsReadCall, IsReadWork};

use seata_types::{Action, NoMemory, Row, Stmt, Text, Value, Work};
use statement_laws::tell_stmt;
use std::alloc::Global;

/// Tells of a value what its type says.
fn tell_value(value: &Value)
    ensures { HasType value.now }
{
    match value {
        Value::Int(number) => {
            let _number = *number;
        }
        Value::Text(text) => {
            let _text = text.as_str();
        }
    }
}

/// Tells the same of the values of a row.
fn tell_row(row: &Row)
    ensures { All HasType row.now.0 }
{
    let values = row.0.as_slice();
    for value in values {
        tell_value(value);
    }
}

/// Tells the same of the rows that tables open with.
pub(crate) fn tell_rows(opening: &[(Text, Row)])
    ensures { All HasTypes opening.now }
{
    for (_, row) in opening {
        tell_row(row);
    }
}

/// Tells of statements that they can be framed: the canonical text of each is UTF-8.
pub(crate) fn tell_stmts(alloc: Global, stmts: &[Stmt]) -> Result<(), NoMemory>
    requires { AreRead stmts.now }
    ensures { OnOk result (AreFramable stmts.now) }
{
    for stmt in stmts {
        tell_stmt(alloc, stmt)?;
    }
    Ok(())
}

/// Tells the same of the statements of a TCC call.
pub(crate) fn tell_action(alloc: Global, action: &Action) -> Result<(), NoMemory>
    requires { IsReadAction action.now }
    ensures { OnOk result (IsFramableAction action.now) }
{
    tell_stmts(alloc, action.tries.as_slice())?;
    tell_stmts(alloc, action.confirms.as_slice())?;
    tell_stmts(alloc, action.cancels.as_slice())?;
    Ok(())
}

/// Tells of a call's work that it can be framed.
fn tell_work(alloc: Global, work: &Work) -> Result<(), NoMemory>
    requires { IsReadWork work.now }
    ensures { OnOk result (IsFramableWork work.now) }
{
    match work {
        Work::At(stmts) => tell_stmts(alloc, stmts.get().as_slice())?,
        Work::Tcc(action) => tell_action(alloc, action.get())?,
    }
    Ok(())
}

/// Tells the same of the calls of a manager.
pub(crate) fn tell_calls(alloc: Global, calls: &[(u16, Work)]) -> Result<(), NoMemory>
    requires { All IsReadCall calls.now }
    ensures { OnOk result (All IsFramableCall calls.now) }
{
    for (_, work) in calls {
        tell_work(alloc, work)?;
    }
    Ok(())
}
