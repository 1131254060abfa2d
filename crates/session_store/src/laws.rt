//! What two disks owe to the records that they stand for.
ghost use Rattle.session_store.specs.Laws.{DisksHoldRecords};

/// What two disks hold is the snapshot of each list of records that they stand for, and a snapshot that is put in place of
/// the records stands for the same lists.
pub fn disks_hold_their_records()
    ensures { DisksHoldRecords }
{}
