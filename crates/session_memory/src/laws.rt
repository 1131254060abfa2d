//! What a snapshot of records owes to the records.
ghost use Rattle.session_memory.specs.Laws.{AppliesRecords, AllowsRecords, FindsRegistered, AnswersRecords, LoadsAllowed};
ghost use Rattle.session_memory.specs.Loading.{HoldersAreTold};
ghost use Rattle.session_memory.specs.Writing.{PlacesAreKept};

/// The snapshot of one more record, where it may come, is the snapshot of the records before, changed as `apply` changes a
/// memory.
pub fn records_are_applied_one_by_one()
    ensures { AppliesRecords }
{}

/// A record may come after a snapshot exactly where it may come after the records.
pub fn snapshots_allow_what_records_allow()
    ensures { AllowsRecords }
{}

/// Of a transaction that is known, nothing is registered for a ticket or a call by a snapshot exactly where nothing is by
/// the records.
pub fn snapshots_find_what_is_registered()
    ensures { FindsRegistered }
{}

/// Each look-up of a snapshot answers what the records say: transactions, branches, managers, registrations, and the first
/// of some rows that another transaction holds.
pub fn snapshots_answer_as_the_records()
    ensures { AnswersRecords }
{}

/// The test of a snapshot that is loaded tells whether no row has two holders.
pub fn holders_are_told()
    ensures { HoldersAreTold }
{}

/// The snapshot of records that may come after one another can be loaded.
pub fn snapshots_of_records_are_loaded()
    ensures { LoadsAllowed }
{}

/// What is read of a scenario has its places in a snapshot's bytes, and each record that may come keeps them: so a snapshot
/// is written of all that has few enough branches.
pub fn places_are_kept()
    ensures { PlacesAreKept }
{}
