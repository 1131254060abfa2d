//! What holds of the nodes of every scenario.
ghost use Rattle.scenario_form.specs.declared.scenarios.Scenario.{Scenario};
ghost use Rattle.history_text.specs.Worlds.{AreNumbered, world_of};

/// Each resource of a scenario stands at its number, counted from 1.
pub fn resources_stand_at_their_numbers()
    ensures { (s : Scenario) → AreNumbered (world_of s) }
{}
