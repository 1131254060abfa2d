//! What the disks of a scenario's nodes hold, as a report begins with it.
ghost use Rattle.scenario_form.specs.Runnable.{IsRunnable};
ghost use Rattle.store_shown.specs.Before.{ReadsBefore};

use disk_model::Shelf;
use node_seat::RunFault;
use report_text::Before;
use scenario_form::Scenario;
use scenario_nodes::{Memories, read_servers};
use std::alloc::Global;

/// Reads what the disks of a scenario's nodes hold, and gives them back. No byte is changed.
pub fn read_before<H: Shelf>(
    alloc: Global,
    scenario: &Scenario,
    shelf: &mut H,
) -> Result<Before, RunFault>
    requires { IsRunnable scenario.now }
    ensures { ReadsBefore H.D.state scenario.now (H.state shelf.old) (H.state shelf.new) result }
{
    match read_servers(alloc, scenario, shelf) {
        Ok(memories) => {
            let Memories {
                sessions,
                resources,
            } = memories;
            Ok(Before {
                sessions,
                resources,
            })
        }
        Err(fault) => Err(fault),
    }
}
