//! Where the entries of a history stand among all.
ghost use Rattle.std.specs.Prelude.{◌≡◌};
ghost use Rattle.history_rules.specs.Histories.{rank};
ghost use Rattle.history_text.specs.Origins.{origin_of};

use crate::entries::Origin;
use seata_types::Place;

// The order of places: the network, the coordinator, resources, managers.
fn rank(place: Place) -> (u8, u16)
    ensures { result ≡ rank place }
{
    match place {
        Place::Net => (0, 0),
        Place::Tc => (1, 0),
        Place::Res(n) => (2, n),
        Place::Man(n) => (3, n),
    }
}

/// Where an entry of this number and place stands.
pub fn origin_of(stamp: u32, place: Place) -> Origin
    ensures { result ≡ origin_of stamp place }
{
    let (kind, number) = rank(place);
    Origin {
        stamp,
        kind,
        number,
    }
}
