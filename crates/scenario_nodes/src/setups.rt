//! What a resource of a scenario is.
ghost use Rattle.std.specs.Prelude.{◌≡◌, ◌-◌, Some, All, length, slice_get, IfOk, OnOk};
ghost use Rattle.scenario_form.specs.Contents.{IsBetween};
ghost use Rattle.scenario_form.specs.Runnable.{IsRunnable};
ghost use Rattle.history_text.specs.Worlds as worlds;
ghost use Rattle.resource_core.specs.NodeOpening.{IsSetupWithin, setup_at};
ghost use Rattle.scenario_nodes.specs.Calls.{HasFramableAction, HasReadAction, IsFramableLocal, IsReadLocal};

use crate::types::{tell_action, tell_rows, tell_stmts};
use resource_core::Setup;
use scenario_form::{ResourceDef, Scenario};
use seata_types::{Action, Duplicate, List, NoMemory, Shared, Stmt};
use std::alloc::Global;

/// Tells of the actions of a resource that they can be framed.
fn tell_actions(alloc: Global, actions: &[(u16, u16, Shared<Action>)]) -> Result<(), NoMemory>
    requires { All HasReadAction actions.now }
    ensures { OnOk result (All HasFramableAction actions.now) }
{
    for (_, _, action) in actions {
        tell_action(alloc, action.get())?;
    }
    Ok(())
}

/// Tells the same of its local transactions.
fn tell_locals(alloc: Global, locals: &[(u16, Shared<List<Stmt>>)]) -> Result<(), NoMemory>
    requires { All IsReadLocal locals.now }
    ensures { OnOk result (All IsFramableLocal locals.now) }
{
    for (_, stmts) in locals {
        tell_stmts(alloc, stmts.get().as_slice())?;
    }
    Ok(())
}

/// What the resource with a number, counted from 1, and a definition is.
pub(crate) fn setup_of(
    alloc: Global,
    scenario: &Scenario,
    number: u16,
    def: &ResourceDef,
) -> Result<Setup, NoMemory>
    requires runnable { IsRunnable scenario.now }
    requires counted { IsBetween 1 (length scenario.now.resources) number }
    requires there { slice_get scenario.now.resources (number - 1) ≡ Some def.now }
    ensures setup { IfOk result (λ setup.
        setup_at number setup ≡ worlds.setup_of scenario.now number def.now) }
    ensures within { IfOk result (IsSetupWithin number) }
{
    let found = scenario_setups::setup_of(alloc, scenario, number)?;
    tell_actions(alloc, found.actions.as_slice())?;
    tell_locals(alloc, found.locals.as_slice())?;
    tell_rows(def.opening.as_slice());
    let schema = def.schema.copy(alloc)?;
    let opening = def.opening.copy(alloc)?;
    let resource_rules::Setup {
        number: _,
        tries,
        actions,
        locals,
    } = found;
    Ok(Setup {
        schema,
        opening,
        tries,
        actions,
        locals,
    })
}
