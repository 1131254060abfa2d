//! What the nodes of a run go by.
ghost use Rattle.std.specs.Prelude.{◌≡◌, ◌≤◌, IfOk};
ghost use Rattle.seata_types.specs.declared.limits.TheConstants.{LATEST_START};
ghost use Rattle.scenario_form.specs.Runnable.{IsRunnable};
ghost use Rattle.run_links.specs.Plans as plans;
ghost use Rattle.run_links.specs.Plans.{IsPlanOf};

use crate::joining::put;
use node_seat::{Plan, is_same};
use scenario_form::Scenario;
use seata_types::{List, NoMemory, Place};
use std::alloc::Global;

/// The stops of a place among these, in order.
fn stops_at(
    alloc: Global,
    stops: &[(Place, u32, u16)],
    place: Place,
) -> Result<List<(u32, u16)>, NoMemory>
    ensures { IfOk result (λ made. made ≡ plans.stops_at stops.now place) }
{
    let mut made = Vec::new(alloc);
    for (at, calls, pick) in stops {
        if is_same(*at, place) {
            put(&mut made, (*calls, *pick))?;
        }
    }
    Ok(List::of(made))
}

/// The plan of the node at a place in a run of a scenario. Its clock begins at `from`, in ticks, which is 0 but at the
/// coordinator. Want of memory is the only error.
pub fn plan_of(
    alloc: Global,
    scenario: &Scenario,
    place: Place,
    from: u64,
) -> Result<Plan, NoMemory>
    requires runnable { IsRunnable scenario.now }
    requires early { from ≤ LATEST_START }
    ensures { IfOk result (IsPlanOf scenario.now place from) }
{
    let stops = stops_at(alloc, scenario.stops.as_slice(), place)?;
    Ok(Plan {
        stops,
        from,
        managers: scenario.managers.as_slice().len(),
        resources: scenario.resources.as_slice().len(),
    })
}
