//! What a resource is, beside its tables.
ghost use Rattle.std.specs.Prelude.{◌≡◌};
ghost use Rattle.std.specs.Option.{option_copied};
ghost use Rattle.history_rules.specs.ResourceMemory.{action_in, local_in};
ghost use Rattle.resource_rules.specs.Setups.{actions_of};

use seata_types::{Action, List, Shared, Stmt};

/// What a resource is, beside its tables: its number; how often a call tries for the global lock; the actions of its TCC calls,
/// each behind its manager and its call; and its local transactions, each behind its number. All are counted from 1.
#[derive(Drop)]
pub struct Setup {
    pub number: u16,
    pub tries: u32,
    pub actions: List<(u16, u16, Shared<Action>)>,
    pub locals: List<(u16, Shared<List<Stmt>>)>,
}

/// The actions of a manager's call, if it has any here; takes no memory.
pub(crate) fn action_of(setup: &Setup, manager: u16, call: u16) -> Option<&Action>
    ensures { option_copied result ≡ action_in manager call (actions_of setup.now.actions) }
{
    action_among(setup.actions.as_slice(), manager, call)
}

fn action_among(actions: &[(u16, u16, Shared<Action>)], manager: u16, call: u16) -> Option<&Action>
    ensures { option_copied result ≡ action_in manager call (actions_of actions.now) }
{
    for (of, at, action) in actions {
        if *of == manager && *at == call {
            return Some(action.get());
        }
    }
    None
}

/// The statements of a local transaction, if there is one of this number; takes no memory.
pub(crate) fn local_of(setup: &Setup, number: u16) -> Option<&Shared<List<Stmt>>>
    ensures { option_copied result ≡ local_in number setup.now.locals }
{
    local_among(setup.locals.as_slice(), number)
}

fn local_among(locals: &[(u16, Shared<List<Stmt>>)], number: u16) -> Option<&Shared<List<Stmt>>>
    ensures { option_copied result ≡ local_in number locals.now }
{
    for (at, stmts) in locals {
        if *at == number {
            return Some(stmts);
        }
    }
    None
}
