//! What holds of the shelves on which nodes are opened.
ghost use Rattle.scenario_nodes.specs.Nodes.{UnusedHoldNone};

use disk_model::Shelf;

/// A shelf gives the nodes of a scenario disks that hold no record, where nothing was given back under their names and blank disks
/// tell their bytes.
pub fn unused_shelves_hold_none<H: Shelf>()
    ensures { UnusedHoldNone H.D.state H.state }
{}
