//! Small rows of the definitions, each computed or proved whole.
ghost use Rattle.seata_types.specs.declared.messages.Message.{Message};
ghost use Rattle.trace_rules.specs.Worked.{TwoTracesMerge, FirstIsReceived, RestartsOfTwoStops, StoppedNodeRuns, LosesBehindFull};

/// The traces of a manager and of the coordinator merge by stamp, and at one stamp the coordinator's entry comes first.
pub fn two_traces_merge()
    ensures { TwoTracesMerge }
{}

/// What a manager sent to the coordinator, and what the coordinator received of that.
pub fn a_message_is_received()
    ensures { (first second : Message) → FirstIsReceived first second }
{}

/// A node with two stops is restarted with the pick of the stop that was armed last, and armed with the calls of the next;
/// from the third time on it is restarted with pick 1.
pub fn restarts_are_by_the_stops()
    ensures { RestartsOfTwoStops }
{}

/// A coordinator that is stopped, goes down and is restarted runs by its stops, and its clock counts its turns.
pub fn a_stopped_node_runs()
    ensures { StoppedNodeRuns }
{}

/// A message is passed over only where 64 before it were taken, and there it may be.
pub fn a_lost_message_follows_a_full_link()
    ensures { LosesBehindFull }
{}
