//! What holds of every verdict.
ghost use Rattle.verdict_law.specs.Exact.{VerdictsAreExact, VerdictsAgree, YesIsSafe};

/// Where an entry breaks a rule after those before it, no legal history has these entries.
pub fn verdicts_are_exact()
    ensures { VerdictsAreExact }
{}

/// The same entries have one verdict: they are legal or not, and there is one first entry that breaks a rule, and one first rule
/// that it breaks.
pub fn verdicts_agree()
    ensures { VerdictsAgree }
{}

/// Entries that are judged legal, over disks without records, are those of a safe history.
pub fn a_yes_is_safe()
    ensures { YesIsSafe }
{}
