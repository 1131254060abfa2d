//! A manager of a scenario.
ghost use Rattle.std.specs.Prelude.{◌≡◌, ◌-◌, Some, length, slice_get, IfOk};
ghost use Rattle.scenario_form.specs.Contents.{IsBetween};
ghost use Rattle.scenario_form.specs.Runnable.{IsRunnable};
ghost use Rattle.scenario_nodes.specs.Nodes.{IsNewManager};

use crate::types::tell_calls;
use manager_core::Manager;
use scenario_form::{ManagerDef, Scenario};
use seata_types::{Duplicate, NoMemory};
use std::alloc::Global;

/// The manager with a number, counted from 1, and a definition.
pub fn new_manager(
    alloc: Global,
    scenario: &Scenario,
    number: u16,
    def: &ManagerDef,
) -> Result<Manager, NoMemory>
    requires runnable { IsRunnable scenario.now }
    requires counted { IsBetween 1 (length scenario.now.managers) number }
    requires there { slice_get scenario.now.managers (number - 1) ≡ Some def.now }
    ensures { IfOk result (IsNewManager scenario.now number def.now) }
{
    tell_calls(alloc, def.calls.as_slice())?;
    let calls = def.calls.copy(alloc)?;
    Ok(Manager::new(
        number,
        def.timeout,
        scenario.lock_tries,
        calls,
        def.ending,
        def.silent,
        def.poll,
    ))
}
