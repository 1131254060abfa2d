//! What an answer leaves.
ghost use Rattle.resource_rules.specs.Laws.{TakesAnswersIn};

/// Once the record that an answer asks for is known, and the open tickets changed as it says, what is known and open is again what
/// the entries left: the next answer is by the rules too.
pub fn answers_are_taken_in()
    ensures { TakesAnswersIn }
{}
