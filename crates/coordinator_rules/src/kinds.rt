//! What a status says of a transaction, after Seata's table.
ghost use Rattle.std.specs.Prelude.{◌≡◌, not};
ghost use Rattle.session_memory.specs.Holding.{keeps_rows};
ghost use Rattle.coordinator_rules.specs.Choices.{is_rolling};

use seata_types::GlobalStatus;
use session_memory::statuses::keeps_rows;
pub(crate) use session_memory::statuses::{is_begin, is_finished, is_going};

/// Whether it is decided commit.
pub(crate) fn is_committing(status: GlobalStatus) -> bool
    ensures { result ≡ not (keeps_rows status) }
{
    !keeps_rows(status)
}

/// Whether a transaction that is known is decided rollback, asked for or by its timeout.
pub(crate) fn is_rolling(status: GlobalStatus) -> bool
    ensures { result ≡ is_rolling status }
{
    !is_committing(status) && !is_begin(status)
}
