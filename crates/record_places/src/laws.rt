//! What the effects of statements owe to the records that they go into.
ghost use Rattle.record_places.specs.Laws.{EffectsHaveKeys, EffectsHavePlaces, FaultsHavePlaces, RecordsHavePlaces};

/// The effect of statements whose values have places, on tables whose values have, has images and reads that have places, and
/// together are shorter than a record may be.
pub fn effects_have_places()
    ensures { EffectsHavePlaces }
{}

/// Each record of images and reads that have places together has a place in a journal.
pub fn records_have_places()
    ensures { RecordsHavePlaces }
{}

/// The keys of the effect of such statements are of the tables' resource, and have places; and so has the key at which the first
/// of them without a meaning has none.
pub fn keys_have_places()
    ensures effects { EffectsHaveKeys }
    ensures faults { FaultsHavePlaces }
{}
