//! What was found on the disks of a shelf.
use history_text::Names;
use node_seat::RunFault;
use scenario_reader::ScenarioError;
use seata_types::Text;

/// What was found on the disks of a shelf: what those of the nodes hold of the scenario whose text the disk `net` keeps, told;
/// that it keeps no whole text; what keeps its text from being a scenario; or why the disks weren't read, with the names of the
/// nodes where it is a node's fault. Neither the error nor the fault is want of memory.
#[derive(Drop)]
pub enum Shown {
    State(Text),
    Empty,
    NoScenario(ScenarioError),
    Unread { fault: RunFault, names: Names },
}
