//! What a scenario says of a call, an action and a local transaction, each found by its number. Statements stand in lists of
//! at most 16.
ghost use Rattle.std.specs.Prelude.{◌≡◌, OnSome};
ghost use Rattle.std.specs.Option.{option_copied};
ghost use Rattle.scenario_form.specs.Runnable.{IsRunnable};
ghost use Rattle.history_rules.specs.Nodes.{counted_at};
ghost use Rattle.report_text.specs.Numbered.{AreFound, call_at, statements_at, tries_at, action_at, confirms_at, cancels_at, local_at};

use scenario_form::Scenario;
use seata_types::{Action, List, Stmt, Work};

/// The one of this number, counted from 1.
pub(crate) fn counted<T>(items: &[T], n: u64) -> Option<&T>
    ensures { option_copied result ≡ counted_at items.now n }
{
    if n == 0 {
        return None;
    }
    items.get((n - 1) as usize)
}

/// A call of a manager, with the number of its resource.
fn call(scenario: &Scenario, manager: u16, call: u16) -> Option<&(u16, Work)>
    ensures { option_copied result ≡ call_at scenario.now manager call }
{
    match counted(scenario.managers.as_slice(), u64::from(manager)) {
        Some(def) => counted(def.calls.as_slice(), u64::from(call)),
        None => None,
    }
}

/// The statements that an AT call runs as it is opened.
pub(crate) fn statements(scenario: &Scenario, manager: u16, number: u16) -> Option<&List<Stmt>>
    requires { IsRunnable scenario.now }
    ensures { AreFound (option_copied result) (statements_at scenario.now manager number) }
{
    match call(scenario, manager, number) {
        Some((_, Work::At(stmts))) => Some(stmts.get()),
        _ => None,
    }
}

/// The statements of the Try of a TCC call.
pub(crate) fn tries(scenario: &Scenario, manager: u16, number: u16) -> Option<&List<Stmt>>
    requires { IsRunnable scenario.now }
    ensures { AreFound (option_copied result) (tries_at scenario.now manager number) }
{
    match call(scenario, manager, number) {
        Some((_, Work::Tcc(action))) => Some(&action.get().tries),
        _ => None,
    }
}

// The action of a TCC call at a resource.
fn action(scenario: &Scenario, resource: u16, manager: u16, number: u16) -> Option<&Action>
    ensures { option_copied result ≡ action_at scenario.now resource manager number }
{
    match call(scenario, manager, number) {
        Some((at, Work::Tcc(action))) if *at == resource => Some(action.get()),
        _ => None,
    }
}

/// The statements of the Confirm of a TCC call at a resource.
pub(crate) fn confirms(
    scenario: &Scenario,
    resource: u16,
    manager: u16,
    number: u16,
) -> Option<&List<Stmt>>
    requires { IsRunnable scenario.now }
    ensures { AreFound (option_copied result) (confirms_at scenario.now resource manager number) }
{
    match action(scenario, resource, manager, number) {
        Some(Action { confirms, .. }) => Some(confirms),
        None => None,
    }
}

/// The statements of its Cancel.
pub(crate) fn cancels(
    scenario: &Scenario,
    resource: u16,
    manager: u16,
    number: u16,
) -> Option<&List<Stmt>>
    requires { IsRunnable scenario.now }
    ensures { AreFound (option_copied result) (cancels_at scenario.now resource manager number) }
{
    match action(scenario, resource, manager, number) {
        Some(Action { cancels, .. }) => Some(cancels),
        None => None,
    }
}

/// The statements of a local transaction, where it is this resource's.
pub(crate) fn local(scenario: &Scenario, resource: u16, number: u16) -> Option<&List<Stmt>>
    requires { IsRunnable scenario.now }
    ensures { AreFound (option_copied result) (local_at scenario.now resource number) }
{
    match counted(scenario.locals.as_slice(), u64::from(number)) {
        Some((at, stmts)) if *at == resource => Some(stmts),
        _ => None,
    }
}
