//! How many transactions are under way.
ghost use Rattle.std.specs.Prelude.{◌≡◌, ◌||◌, count_by};
ghost use Rattle.session_memory.specs.Changes.{is_begin, is_going};
ghost use Rattle.coordinator_core.specs.Counting.{is_unended_entry};

use seata_types::GlobalStatus;
use session_log::SessionEntry;
use session_memory::statuses::{is_begin, is_going};

// Whether it is neither finished nor failed, of a transaction that is known.
fn is_unended_status(status: GlobalStatus) -> bool
    ensures { result ≡ (is_begin status || is_going status) }
{
    is_begin(status) || is_going(status)
}

#[tactic(auto, unfolding(crate::specs::Counting::is_unended_entry))]
fn is_unended(entry: &SessionEntry) -> bool
    ensures { result ≡ is_unended_entry entry.now }
{
    is_unended_status(entry.session.status)
}

/// How many transactions are neither finished nor failed.
pub(crate) fn unended(sessions: &[SessionEntry]) -> usize
    ensures { result ≡ count_by is_unended_entry sessions.now }
{
    let mut count = 0;
    for entry in sessions {
        if is_unended(entry) {
            count += 1;
        }
    }
    count
}
