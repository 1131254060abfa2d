//! The coordinator with its disk.
use crate::coordinators::Coordinator;
use coordinator_rules::Moments;
use judged_devices::{Device, Event};
use seata_types::{Act, NoMemory, Step};
use session_memory::Memory;
use std::alloc::Global;

/// The coordinator, as its own entries left it, with its disk.
#[derive(Drop)]
pub struct Desk {
    pub device: Device,
    coordinator: Coordinator,
}

impl Desk {
    ghost use Rattle.std.specs.Prelude.{ℕ, ◌<◌, List, [], IfOk};
    ghost use Rattle.history_rules.specs.CoordinatorMemory.{Times};
    ghost use Rattle.history_rules.specs.Own.{Own};
    ghost use Rattle.history_rules.specs.Nodes.{Coordinator as CoordinatorRole};
    ghost use Rattle.judged_devices.specs.declared.limits.TheConstants.{OWN_ENTRIES};
    ghost use Rattle.judged_devices.specs.Taking.{Takes, event_of};
    ghost use Rattle.coordinator_rules.specs.Knowledge.{waits};
    ghost use Rattle.judged_desk.specs.Following.{CanTake, Follows};

    /// The coordinator without own entries, over disks without records. It asks a branch again after `retry` ticks, and forgets a
    /// finished transaction after `forget` ticks, or never where that is 0. Takes no memory.
    pub fn new(alloc: Global, retry: u64, forget: u64) -> Desk
        ensures { Follows (waits retry forget) [] result }
    {
        let memory = Memory::new(alloc);
        let moments = Moments::new(alloc);
        Desk {
            device: Device::new(),
            coordinator: Coordinator {
                retry,
                forget,
                memory,
                moments,
                flight: None,
            },
        }
    }

    /// Takes an entry as its act shows it: the step that is done with it, or none where none may be. Nothing more is asked of the
    /// coordinator after an error, or after none.
    pub fn take(
        &mut self,
        alloc: Global,
        event: &Event,
        now: u64,
        done: &Act,
    ) -> Result<Option<Step>, NoMemory>
        requires stands { CanTake self.old }
        requires room { self.old.device.taken < OWN_ENTRIES }
        ensures { IfOk result (λ step. (t : Times) (os : List Own) → Follows t os self.old →
            Takes (CoordinatorRole t []) os (event_of event.now) now done.now
            (λ after. Follows t after self.new) step) }
    {
        let device = self.device;
        match self.coordinator.take(alloc, &device, event, now, done) {
            Ok(step) => {
                self.device.note(false, event, done);
                Ok(step)
            }
            Err(error) => Err(error),
        }
    }
}
