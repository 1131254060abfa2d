//! A manager, as its own entries left it.
use judged_devices::same_act;
use manager_rules::{Phase, Settings};
use scenario_form::ManagerDef;
use seata_types::{Act, Duplicate, Input, NoMemory, Step};
use std::alloc::Global;

/// A manager, as its own entries left it, and how many these are.
#[derive(Drop)]
pub struct Talk {
    pub taken: u32,
    talk: manager_rules::Talk,
}

impl Talk {
    ghost use Rattle.std.specs.Prelude.{ℕ, ◌≤◌, ◌<◌, length, List as Entries, [], IfOk};
    ghost use Rattle.seata_types.specs.declared.limits.TheConstants.{CALLS};
    ghost use Rattle.history_rules.specs.Own.{Given, Own};
    ghost use Rattle.history_rules.specs.Nodes.{Manager};
    ghost use Rattle.history_rules.specs.ManagerRules.{Settings as Rules};
    ghost use Rattle.history_text.specs.Worlds.{settings_of};
    ghost use Rattle.judged_devices.specs.declared.limits.TheConstants.{OWN_ENTRIES};
    ghost use Rattle.judged_devices.specs.Taking.{Takes};
    ghost use Rattle.judged_talk.specs.Following.{CanTake, Follows};

    /// A manager without own entries, by its number, with the tries that each call has.
    pub fn new(alloc: Global, tries: u32, number: u16, def: &ManagerDef) -> Result<Talk, NoMemory>
        requires { length def.now.calls ≤ CALLS }
        ensures { IfOk result (Follows (settings_of tries number def.now) []) }
    {
        let calls = def.calls.copy(alloc)?;
        let settings = Settings::new(
            number,
            def.timeout,
            tries,
            calls,
            def.ending,
            def.silent,
            def.poll,
        );
        Ok(Talk {
            taken: 0,
            talk: manager_rules::Talk {
                settings,
                sent: 0,
                phase: Phase::Unstarted,
            },
        })
    }

    /// Takes an entry as its act shows it: the step that is done with it, or none where none may be. Nothing more is asked of a
    /// manager after an error, or after none.
    pub fn take(
        &mut self,
        alloc: Global,
        input: &Input,
        done: &Act,
    ) -> Result<Option<Step>, NoMemory>
        requires stands { CanTake self.old }
        requires room { self.old.taken < OWN_ENTRIES }
        ensures { IfOk result (λ step. (m : Rules) (os : Entries Own) (now : ℕ) →
            Follows m os self.old →
            Takes (Manager m) os (Given input.now) now done.now
            (λ after. Follows m after self.new) step) }
    {
        let step = self.talk.answer(alloc, input)?;
        self.taken += 1;
        if same_act(&step.act, done) {
            return Ok(Some(step));
        }
        drop(step);
        Ok(None)
    }
}
