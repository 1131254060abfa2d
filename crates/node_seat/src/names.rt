//! What all nodes of one run agree on.
use std::marker::Brand;

/// Names a replay or a run, for contracts alone: the nodes of its scenario, and of a run its links, stops and disks, and what is
/// known of these where they had some records before, with journals that stood somewhere.
pub trait RunName {
    ghost use Rattle.history_rules.specs.Nodes.{World, Past};
    ghost use Rattle.node_steps.specs.Ends.{Starts};
    ghost use Rattle.node_seat.specs.Naming.{Run};

    ghost world: { World };

    ghost held: { Past → Starts → Type 0 };

    ghost run: { Run };
}

impl RunName for Brand {
    ghost use Rattle.node_seat.specs.Naming.{no_run, no_world, none_known};

    ghost world = { no_world };

    ghost held = { none_known };

    ghost run = { no_run };
}
