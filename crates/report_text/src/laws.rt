//! What is kept of a history owes to its records.
ghost use Rattle.report_text.specs.Sections.{ListsLocks};

/// The rows that are listed of what a coordinator knows, each with its holder, are those that its records hold.
pub fn locks_are_those_of_the_records()
    ensures { ListsLocks }
{}
