//! What records and effects of statements owe to a resource that asks its store.
ghost use Rattle.resource_memory.specs.Laws.{FindsUndosOfCalls};
ghost use Rattle.resource_store.specs.Laws.{DisksHoldRecords, EffectsFit};

/// An effect of statements, on tables whose rows fit, is of rows that fit these tables, in rising order of keys, and of no
/// more rows than a call may have.
pub fn effects_fit_their_tables()
    ensures { EffectsFit }
{}

/// The undo record that the undo log finds of a call is that of the least branch that the records say has one for it.
pub fn undo_records_are_found_by_call()
    ensures { FindsUndosOfCalls }
{}

/// What two disks hold is what each list of records says that they stand for, a record behind them that may not come is their
/// damage, and what an opening or a restart leaves stands for the same lists.
pub fn disks_hold_their_records()
    ensures { DisksHoldRecords }
{}
