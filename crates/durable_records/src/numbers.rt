//! Numbers that count from 1.
ghost use Rattle.std.specs.Prelude.{◌≡◌};
ghost use Rattle.durable_records.specs.SessionOrder.{is_counted};

/// Whether a number is one of so many, counted from 1; takes no memory.
pub fn is_counted(count: usize, number: u16) -> bool
    ensures { result ≡ is_counted count number }
{
    number >= 1 && number as usize <= count
}
