//! The statuses that a record leaves.
ghost use Rattle.std.specs.Prelude.{◌≡◌};
ghost use Rattle.std.specs.List.{list_all};
ghost use Rattle.session_log.specs.Soundness.{is_at_branch};
ghost use Rattle.session_memory.specs.Changes.{decided_status, finished_status};
ghost use Rattle.session_memory.specs.Lookups.{branches_in, status_in};

use seata_types::{BranchKind, Decision, GlobalStatus, Xid};
use session_log::Branch;
use session_memory::{Memory, statuses};

fn is_at(branch: &Branch) -> bool
    ensures { result ≡ is_at_branch branch.now }
{
    matches!(branch.place.kind, BranchKind::At)
}

fn are_at(branches: &[Branch]) -> bool
    ensures { result ≡ list_all is_at_branch branches.now }
{
    branches.iter().all(|branch| is_at(branch))
}

// Whether all branches of a transaction are AT.
fn is_all_at(memory: &Memory, xid: Xid) -> bool
    ensures { result ≡ list_all is_at_branch (branches_in memory.now xid.0) }
{
    match memory.find(xid) {
        Some(session) => are_at(session.branches.as_slice()),
        None => true,
    }
}

/// The status of an undecided transaction once it is decided; takes no memory.
pub(crate) fn decided(memory: &Memory, xid: Xid, how: Decision) -> GlobalStatus
    ensures { result ≡ decided_status how (list_all is_at_branch (branches_in memory.now xid.0)) }
{
    statuses::decided(how, is_all_at(memory, xid))
}

/// The status of a transaction once it is finished; takes no memory.
pub(crate) fn finished(memory: &Memory, xid: Xid) -> GlobalStatus
    ensures { result ≡ finished_status (status_in memory.now xid.0) }
{
    statuses::finished(memory.status(xid))
}
