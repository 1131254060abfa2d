//! The statements of a call, one after the other, on the tables as the earlier ones left them.
use crate::checking::table_of;
use crate::conditions::table_named;
use crate::maps::boxed;
use crate::refusing::{duplicate_in, fault, overflow_in, refusal};
use crate::schemas::TableDef;
use crate::state::{CallState, rows_fit};
use crate::tables::Tables;
use crate::touching::{readings, touches};
use seata_types::{NoMemory, Stmt, StmtError};
use std::alloc::Global;

impl Tables {
    ghost use Rattle.std.specs.Prelude.{◌≡◌, Some, None, IfOk, IfNone};
    ghost use Rattle.local_tables.specs.Rows.{table_named};
    ghost use Rattle.local_tables.specs.Checks.{table_of};
    ghost use Rattle.local_tables.specs.Calls.{step};
    ghost use Rattle.local_tables.specs.Refusals.{refusal, answer_of};
    ghost use Rattle.local_tables.specs.Sound.{AreChangesOf};

    /// One more statement of a call: none, or why it has no meaning. Then, and without memory, the call is of no more use.
    pub(crate) fn step(
        &self,
        alloc: Global,
        call: &mut CallState,
        stmt: &Stmt,
    ) -> Result<Option<StmtError>, NoMemory>
        requires { AreChangesOf self.now.resource self.now.schema call.old.changes }
        ensures meaning { IfOk result (λ why. step self.now call.old stmt.now ≡ answer_of why call.new) }
        ensures changes { IfOk result (λ why. IfNone why (AreChangesOf self.now.resource self.now.schema call.new.changes)) }
    {
        let Some(def) = table_named(&self.schema, table_of(stmt)) else {
            return Ok(Some(StmtError::NoTable));
        };
        if let Some(why) = refusal(def, stmt) {
            return Ok(Some(why));
        }
        let why = self.take(alloc, def, call, stmt)?;
        Ok(why)
    }

    /// One more statement, which its table's definition doesn't refuse.
    fn take(
        &self,
        alloc: Global,
        def: &TableDef,
        call: &mut CallState,
        stmt: &Stmt,
    ) -> Result<Option<StmtError>, NoMemory>
        requires named { table_named self.now.schema (table_of stmt.now) ≡ Some def.now }
        requires accepted { refusal def.now stmt.now ≡ None }
        requires changes { AreChangesOf self.now.resource self.now.schema call.old.changes }
        ensures meaning { IfOk result (λ why. step self.now call.old stmt.now ≡ answer_of why call.new) }
        ensures changes { IfOk result (λ why. IfNone why (AreChangesOf self.now.resource self.now.schema call.new.changes)) }
    {
        let (number, rows) = (self.resource, &self.rows);
        let made = touches(alloc, number, def, stmt, rows, &call.changes)?;
        let read = readings(alloc, number, def, stmt, rows, &call.changes)?;
        let overflow = boxed(alloc, overflow_in(stmt, &made))?;
        let taken = boxed(alloc, duplicate_in(stmt, rows, &call.changes, &made))?;
        call.go_on(made, read)?;
        let fits = rows_fit(rows, &call.changes);
        Ok(fault(call.rows_seen(), overflow, taken, fits))
    }
}
