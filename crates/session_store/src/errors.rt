//! Why a branch isn't registered.
ghost use Rattle.std.specs.Prelude.{◌≡◌};
ghost use Rattle.session_store.specs.Refusals.{of_hold};

use lock_table::HoldError;
use seata_types::{RowKey, StoreError, Xid};

#[derive(Drop)]
pub enum RegisterError {
    /// The first row, of those to hold and then those to check, that another transaction holds, and that transaction.
    Held { key: RowKey, by: Xid },
    /// The record was not put on the disks.
    Store(StoreError),
}

/// Why rows weren't taken, as an answer to a registration.
pub(crate) fn refused(error: HoldError) -> RegisterError
    ensures { result ≡ of_hold error }
{
    match error {
        HoldError::Held { key, by } => RegisterError::Held { key, by },
        HoldError::NoMemory => RegisterError::Store(StoreError::NoMemory),
    }
}
