//! What the fences of a resource's records are.
ghost use Rattle.tcc_fence.specs.Meanings.{FencesStandAtBranches};

/// What stands at a branch among all fences that a list of records leaves is the branch's fence by its last record: to look
/// a branch up in a `Fence` is to ask the records.
pub fn fences_stand_at_their_branches()
    ensures { FencesStandAtBranches }
{}
