//! What a resource of a scenario is, beside its tables.
ghost use Rattle.std.specs.Prelude.{◌≡◌, ◌≤◌, ◌++◌, ◌∷◌, [], All, length, IfOk, OnOk};
ghost use Rattle.std.specs.Option.{option_copied};
ghost use Rattle.seata_types.specs.declared.limits.TheConstants.{CALLS, LOCALS, MANAGERS};
ghost use Rattle.scenario_form.specs.Runnable.{IsRunnable};
ghost use Rattle.scenario_form.specs.declared.scenarios.ResourceDef.{ResourceDef};
ghost use Rattle.history_text.specs.Worlds as worlds;
ghost use Rattle.resource_rules.specs.Answers.{IsSetup};
ghost use Rattle.resource_rules.specs.Setups.{actions_of as entries_of};
ghost use Rattle.scenario_setups.specs.Setups as setups;
ghost use Rattle.scenario_setups.specs.Setups.{HasFewCalls};

use resource_rules::Setup;
use scenario_form::{ManagerDef, Scenario};
use seata_types::{Action, Duplicate, List, NoMemory, Shared, Stmt, Work};
use std::alloc::Global;

/// Adds one behind the others.
pub fn put<T: Drop>(made: &mut Vec<T>, item: T) -> Result<(), NoMemory>
    ensures { OnOk result (made.new.items ≡ made.old.items ++ item ∷ []) }
{
    made.push(item)?;
    Ok(())
}

// The action of a call, where it is a TCC call of this resource.
fn action_here(resource: u16, at: u16, work: &Work) -> Option<&Shared<Action>>
    ensures { option_copied result ≡ setups.action_here resource (at, work.now) }
{
    match work {
        Work::Tcc(action) if at == resource => Some(action),
        _ => None,
    }
}

// Adds the TCC actions of a manager's calls of a resource, each behind the numbers of the manager and of the call.
fn put_calls(
    alloc: Global,
    made: &mut Vec<(u16, u16, Shared<Action>)>,
    resource: u16,
    manager: u16,
    calls: &[(u16, Work)],
) -> Result<(), NoMemory>
    requires { length calls.now ≤ CALLS }
    ensures { OnOk result (entries_of made.new.items ≡
        entries_of made.old.items ++ worlds.call_actions resource manager 1 calls.now) }
{
    for (k, (at, work)) in calls.iter().enumerate() {
        if let Some(action) = action_here(resource, *at, work) {
            let action = action.copy(alloc)?;
            put(made, (manager, k as u16 + 1, action))?;
        }
    }
    Ok(())
}

// The TCC actions of all calls of a resource.
fn actions_of(
    alloc: Global,
    resource: u16,
    managers: &[ManagerDef],
) -> Result<List<(u16, u16, Shared<Action>)>, NoMemory>
    requires few { length managers.now ≤ MANAGERS }
    requires calls { All HasFewCalls managers.now }
    ensures { IfOk result (λ made. entries_of made ≡ worlds.actions_at resource 1 managers.now) }
{
    let mut made = Vec::new(alloc);
    for (k, def) in managers.iter().enumerate() {
        put_calls(
            alloc,
            &mut made,
            resource,
            k as u16 + 1,
            def.calls.as_slice(),
        )?;
    }
    Ok(List::of(made))
}

// The local transactions of a resource, each behind its number.
fn locals_of(
    alloc: Global,
    resource: u16,
    locals: &[(u16, List<Stmt>)],
) -> Result<List<(u16, Shared<List<Stmt>>)>, NoMemory>
    requires { length locals.now ≤ LOCALS }
    ensures { IfOk result (λ made. made ≡ worlds.locals_at resource 1 locals.now) }
{
    let mut made = Vec::new(alloc);
    for (k, (at, stmts)) in locals.iter().enumerate() {
        if *at == resource {
            let copied = stmts.copy(alloc)?;
            let stmts = Shared::new(alloc, copied)?;
            put(&mut made, (k as u16 + 1, stmts))?;
        }
    }
    Ok(List::of(made))
}

/// What the resource with a number, counted from 1, is beside its tables.
pub fn setup_of(alloc: Global, scenario: &Scenario, number: u16) -> Result<Setup, NoMemory>
    requires { IsRunnable scenario.now }
    ensures { IfOk result (λ setup. (def : ResourceDef) →
        IsSetup setup (worlds.setup_of scenario.now number def)) }
{
    Ok(Setup {
        number,
        tries: scenario.lock_tries,
        actions: actions_of(alloc, number, scenario.managers.as_slice())?,
        locals: locals_of(alloc, number, scenario.locals.as_slice())?,
    })
}
