//! The manager as a node.
ghost use Rattle.std.specs.Prelude.{◌+◌, ◌<◌, ◌^◌};

use crate::speakers::Speaker;
use manager_rules::Settings;
use node_steps::Node;
use seata_types::limits::NODE_STEPS;
use seata_types::{Act, Ending, Input, List, NoMemory, NodeError, OpenError, Place, Step, Work};
use std::alloc::Global;

/// A transaction manager, in memory. It runs one transaction.
#[derive(Drop)]
pub struct Manager {
    talk: Speaker,
    left: u32,
    ghost room: { talk.sent + left < 2 ^ 32 },
}

impl Manager {
    ghost use Rattle.std.specs.Prelude.{◌≡◌, List as Entries, []};
    ghost use Rattle.history_rules.specs.Own.{Own};
    ghost use Rattle.manager_core.specs.Standing.{StandsFor, settings, steps_of, is_finished};
    ghost use Rattle.manager_core.specs.Within.{IsWithin};
    ghost use Rattle.manager_rules.specs.Within.{settings_with};
    ghost use Rattle.seata_types.specs.declared.limits.TheConstants.{NODE_STEPS};

    /// A manager that did nothing yet, with its timeout in ticks, how often each call may be busy, its calls with the numbers
    /// of their resources, how it ends, how many messages it sends where they are limited, and whether it asks for the
    /// status at the end; takes no memory.
    #[tactic(auto, unfolding(crate::specs::Standing::StandsFor))]
    pub fn new(
        number: u16,
        timeout: u64,
        tries: u32,
        calls: List<(u16, Work)>,
        ending: Ending,
        silent: Option<u32>,
        poll: bool,
    ) -> Manager
        requires within { IsWithin (settings_with number timeout tries calls ending silent poll) }
        ensures fresh { StandsFor result [] }
        ensures settings { settings result ≡
            settings_with number timeout tries calls ending silent poll }
        ensures steps { steps_of result ≡ NODE_STEPS }
    {
        let settings = Settings::new(number, timeout, tries, calls, ending, silent, poll);
        let talk = Speaker::new(settings);
        Manager {
            talk,
            left: NODE_STEPS,
        }
    }

    /// Whether it has nothing more to do: the end of its transaction was answered, or it sent all that it may.
    #[tactic(auto, unfolding(crate::specs::Standing::StandsFor))]
    pub fn at_end(&self) -> bool
        ensures { (owns : Entries Own) → StandsFor self.now owns →
            result ≡ is_finished (settings self.now) owns }
    {
        self.talk.talk().is_closed() || self.talk.talk().is_silent()
    }
}

impl Node for Manager {
    ghost use Rattle.std.specs.Prelude.{◌≡◌, ◌+◌, ◌<◌, ◌^◌, false, IfOk, IfErr};
    ghost use Rattle.node_steps.specs.Durable.{SamePicks};
    ghost use Rattle.node_steps.specs.Framing.{ComesFramable, SendsFramable};
    ghost use Rattle.node_steps.specs.Promises.{no_disks, TakesStep, AfterError, StaysItself, goes_down};
    ghost use Rattle.node_steps.specs.Promises.{steps_of as steps_taken};
    ghost use Rattle.manager_core.specs.Standing.{Takes, node_state, settings, steps_of};
    ghost use Rattle.manager_core.specs.Laws as laws;

    ghost state = { node_state };

    fn place(&self) -> Place {
        Place::Man(self.talk.talk().settings.number())
    }

    #[tactic(auto, unfolding(crate::specs::Standing::StandsFor))]
    fn step(&mut self, alloc: Global, input: Input, _now: u64) -> Result<Step, NodeError>
        requires able { 0 < steps_of self.old }
        ensures answers { IfOk result
            (TakesStep (node_state self.old) (node_state self.new) input _now) }
        ensures framable { ComesFramable input → IfOk result SendsFramable }
        ensures after { IfErr result
            (AfterError (node_state self.old) (node_state self.new) input _now) }
        ensures same { StaysItself (node_state self.old) (node_state self.new) }
        ensures picks { SamePicks no_disks no_disks }
        ensures counted { steps_of self.new + steps_taken result ≡ steps_of self.old }
        ensures down { false ≡ goes_down result }

        // In its own words, and that want of memory is its only error.
        ensures takes { IfOk result (Takes self.old self.new input _now) }
        ensures settings { settings self.new ≡ settings self.old }
        ensures only { IfErr result (λ error. error ≡ NodeError.NoMemory) }
    {
        match self.talk.answer(alloc, &input) {
            Ok(step) => {
                drop(input);
                self.left -= 1;
                Ok(step)
            }
            Err(NoMemory) => {
                drop(input);
                Err(NodeError::NoMemory)
            }
        }
    }

    fn is_down(&self) -> bool {
        false
    }

    fn steps_left(&self) -> u32 {
        self.left
    }

    // A manager has no disk, so nothing is promised of these three, which do nothing.
    fn arm(&mut self, _calls: u32) {}

    fn crash(&mut self) {}

    fn restart(
        &mut self,
        _alloc: Global,
        _now: u64,
        _pick: u16,
        _calls: Option<u32>,
    ) -> Result<Act, OpenError> {
        Ok(Act::Nothing)
    }

    ghost lawful = { laws.lawful };
}
