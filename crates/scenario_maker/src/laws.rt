//! The definitions on an example, and that what is made can be read.
ghost use Rattle.std.specs.Prelude.{◌≤◌, ℕ};
ghost use Rattle.scenario_maker.specs.Made.{made};
ghost use Rattle.scenario_maker.specs.Scenarios.{HasNoFault, IsMadeScenario};
ghost use Rattle.scenario_maker.specs.Worked.{FirstDraws, FirstText};

/// What number 0 draws, and the text that is made of it for one manager.
pub fn the_first_text()
    ensures draws { FirstDraws }
    ensures text { FirstText }
{}

/// The text that is made of a number for 1 to 256 managers reads as the scenario that is made of them
/// (`scenario` of specs/Scenarios), so that reading it answers no fault.
pub fn made_texts_are_scenarios()
    ensures scenario { (number size : ℕ) → 1 ≤ size → size ≤ 256 → IsMadeScenario number size }
    ensures fault { (number size : ℕ) → 1 ≤ size → size ≤ 256 → HasNoFault (made number size) }
{}
