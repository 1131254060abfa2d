//! What a resource's answers leave of what it is ready for; which statements it may be given.
ghost use Rattle.resource_core.specs.Laws.{StaysReady, StatementsHavePlaces};
ghost use Rattle.resource_core.specs.Standing.{AnswersAreSteps, FailuresAreSteps};

use disk_model::Disk;

/// A resource that was ready to answer is ready again after its answer, unless its disks failed, while tickets are left.
pub fn resources_stay_ready<D: Disk>()
    ensures { StaysReady D.state }
{}

/// An answer of a resource that is up is what happens by the rules of all nodes after its own entries, and it stands for these
/// with one more then; where its disks failed, the act in flight is the one by the rules.
pub fn answers_are_what_happens<D: Disk>()
    ensures steps { AnswersAreSteps D.state }
    ensures failures { FailuresAreSteps D.state }
{}

/// Statements that can be framed, no more than a call has, write values that have places in a record.
pub fn statements_have_places()
    ensures { StatementsHavePlaces }
{}
