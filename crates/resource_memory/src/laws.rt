//! What a resource's memory owes to its records.
ghost use Rattle.resource_memory.specs.Laws.{AppliesRecords, AllowsRecords, FindsUndoRecords, FindsTriedCalls, KeepsRecords, SavesRecords, StaysKept, SavesWhatIsKnown, LoadsSoundSnapshots};

/// What is known after one more record, where it may come, is what was known before, changed as `apply` changes a memory.
pub fn records_are_applied_one_by_one()
    ensures { AppliesRecords }
{}

/// A record may come after what is known exactly where it may come after the records.
pub fn memories_allow_what_records_allow()
    ensures { AllowsRecords }
{}

/// The undo log has of each branch what the records say.
pub fn memories_find_undo_records()
    ensures { FindsUndoRecords }
{}

/// A call that was tried is found at the least branch that the records say was tried for it.
pub fn memories_find_tried_calls()
    ensures { FindsTriedCalls }
{}

/// What records say stands in order, as a memory keeps it.
pub fn records_are_kept()
    ensures { KeepsRecords }
{}

/// The snapshot of what records say is the snapshot of the records.
pub fn memories_save_what_records_say()
    ensures { SavesRecords }
{}

/// One more record keeps what is known in order, and in a snapshot's room.
pub fn memories_stay_kept()
    ensures { StaysKept }
{}

/// The snapshot of what is known is sound, can be written, and says what is known.
pub fn snapshots_are_read_back()
    ensures { SavesWhatIsKnown }
{}

/// What a sound snapshot says stands in order.
pub fn sound_snapshots_are_kept()
    ensures { LoadsSoundSnapshots }
{}
