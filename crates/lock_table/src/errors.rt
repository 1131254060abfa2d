//! Why rows could not be taken.
use seata_types::{NoMemory, RowKey, Xid};

#[derive(Drop)]
pub enum HoldError {
    /// The first row, of those to hold and then those to check, that another transaction holds, and that transaction.
    Held { key: RowKey, by: Xid },
    /// Memory was refused.
    NoMemory,
}

impl From<NoMemory> for HoldError {
    ghost use Rattle.lock_table.specs.declared.errors.HoldError.TheVariants.{NoMemory as no_memory};
    ghost use Rattle.std.specs.Prelude.{◌≡◌};

    ghost from_gives = { λ _ error. error ≡ no_memory };

    fn from(_: NoMemory) -> HoldError {
        HoldError::NoMemory
    }
}
