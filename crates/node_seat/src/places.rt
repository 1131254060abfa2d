//! Places.
ghost use Rattle.std.specs.Prelude.{◌≡◌};
ghost use Rattle.history_rules.specs.Histories as rules;

use seata_types::Place;

/// Whether two places are one.
pub fn is_same(one: Place, other: Place) -> bool
    ensures { result ≡ rules.same_place one other }
{
    match (one, other) {
        (Place::Net, Place::Net) => true,
        (Place::Tc, Place::Tc) => true,
        (Place::Res(m), Place::Res(n)) => m == n,
        (Place::Man(m), Place::Man(n)) => m == n,
        _ => false,
    }
}
