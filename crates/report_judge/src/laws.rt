//! What holds of every judgement.
ghost use Rattle.report_judge.specs.Exact.{JudgementsAgree, UnreadableIsNoEntry};
ghost use Rattle.report_judge.specs.Safe.{LegalIsSafe};

/// An input has one judgement.
pub fn judgements_agree()
    ensures { JudgementsAgree }
{}

/// A line that isn't readable is the line of no entry.
pub fn an_unreadable_line_is_no_entry()
    ensures { UnreadableIsNoEntry }
{}

/// An input that is judged legal is a scenario with the report of a safe history.
pub fn a_legal_report_is_safe()
    ensures { LegalIsSafe }
{}
