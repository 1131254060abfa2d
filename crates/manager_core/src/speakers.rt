//! What a manager says, all of which can be framed.
use manager_rules::{Phase, Settings, Talk};
use seata_types::{Input, NoMemory, Step};
use std::alloc::Global;
use std::marker::Model;

/// A manager's talk whose settings are within the limits. Contracts see the talk.
#[derive(Drop)]
pub struct Speaker {
    talk: Talk,
}

impl Model for Speaker {
    ghost use Rattle.manager_rules.specs.declared.talks.Talk.{Talk as Talks};
    ghost use Rattle.manager_rules.specs.contracts.talks.Talk as talk_type;
    ghost use Rattle.manager_core.specs.Within.{IsWithin};

    ghost Value = { Talks };

    ghost coded = { talk_type.the_row.coded };

    ghost view = { λ s. s.talk };

    ghost invariant = { λ s. IsWithin s.talk.settings };
}

impl Speaker {
    ghost use Rattle.std.specs.Prelude.{◌≡◌, ◌+◌, ◌<◌, ◌^◌, IfOk};
    ghost use Rattle.manager_rules.specs.Answers.{Answers};
    ghost use Rattle.manager_rules.specs.declared.phases.Phase.TheVariants as phases;
    ghost use Rattle.node_steps.specs.Framing.{SendsFramable};
    ghost use Rattle.manager_core.specs.Within.{IsWithin};

    /// It said nothing yet; takes no memory.
    pub fn new(settings: Settings) -> Speaker
        requires { IsWithin settings }
        ensures { result ≡ record { settings = settings; sent = 0; phase = phases.Unstarted } }
    {
        Speaker {
            talk: Talk {
                settings,
                sent: 0,
                phase: Phase::Unstarted,
            },
        }
    }

    /// Its talk; takes no memory.
    pub fn talk(&self) -> &Talk
        ensures { result.now ≡ self.now }
    {
        &self.talk
    }

    /// Answers an input by the rules.
    pub fn answer(&mut self, alloc: Global, given: &Input) -> Result<Step, NoMemory>
        requires room { self.old.sent + 1 < 2 ^ 32 }
        ensures answers { Answers self.old self.new given.now result }
        ensures framable { IfOk result SendsFramable }
    {
        self.talk.answer(alloc, given)
    }
}
