//! A resource with its disk.
ghost use Rattle.std.specs.Prelude.{◌≡◌, IfOk};
ghost use Rattle.local_tables.specs.Rows.{IsOpening, opened};
ghost use Rattle.resource_memory.specs.Known.{known_of};
ghost use Rattle.judged_bench.specs.Opening.{first_boot};

use crate::resources::Resource;
use durable_records::ResourceRecord;
use judged_devices::{Device, Event};
use local_tables::Schema;
use local_txn::LocalTxns;
use resource_memory::Memory;
use resource_rules::Setup;
use seata_types::{Act, List, NoMemory, Row, Step, Text};
use std::alloc::Global;

/// A resource, as its own entries left it, with its disk.
#[derive(Drop)]
pub struct Bench {
    pub device: Device,
    resource: Resource,
}

impl Bench {
    ghost use Rattle.std.specs.Prelude.{ℕ, ◌<◌, List as Entries, [], IfOk};
    ghost use Rattle.history_rules.specs.Own.{Own};
    ghost use Rattle.history_rules.specs.Nodes.{Resource as ResourceRole};
    ghost use Rattle.history_rules.specs.ResourceMemory.{Setup as Rules};
    ghost use Rattle.local_tables.specs.Rows.{IsOpening};
    ghost use Rattle.judged_devices.specs.declared.limits.TheConstants.{OWN_ENTRIES};
    ghost use Rattle.judged_devices.specs.Taking.{Takes, event_of};
    ghost use Rattle.resource_rules.specs.Answers.{AreCounted};
    ghost use Rattle.judged_bench.specs.Following.{CanTake, Follows};
    ghost use Rattle.judged_bench.specs.Leaving.{ServesEvent};
    ghost use Rattle.judged_bench.specs.Opening.{setup_with};

    /// A resource without own entries, over disks without records: its tables with the rows of their opening, each given with its
    /// table's name.
    pub fn new(
        alloc: Global,
        setup: Setup,
        schema: Schema,
        opening: List<(Text, Row)>,
    ) -> Result<Bench, NoMemory>
        requires opening { IsOpening setup.number schema opening }
        requires counted { AreCounted setup }
        ensures { IfOk result (Follows (setup_with setup schema opening) []) }
    {
        match first_memory(alloc, setup.number, schema, opening) {
            Ok(memory) => Ok(Bench {
                device: Device::new(),
                resource: Resource {
                    setup,
                    memory,
                    txns: LocalTxns::new(alloc, 1),
                    flight: None,
                },
            }),
            Err(error) => {
                drop(setup);
                Err(error)
            }
        }
    }

    /// Takes an entry as its act shows it: the step that is done with it, or none where none may be. Nothing more is asked of a
    /// resource after an error, or after none.
    pub fn take(
        &mut self,
        alloc: Global,
        event: &Event,
        done: &Act,
    ) -> Result<Option<Step>, NoMemory>
        requires stands { CanTake self.old }
        requires room { self.old.device.taken < OWN_ENTRIES }
        requires served { ServesEvent event.now }
        ensures { IfOk result (λ step. (s : Rules) (os : Entries Own) (now : ℕ) →
            Follows s os self.old →
            Takes (ResourceRole s []) os (event_of event.now) now done.now
            (λ after. Follows s after self.new) step) }
    {
        let device = self.device;
        match self.resource.take(alloc, &device, event, done) {
            Ok(step) => {
                self.device.note(true, event, done);
                Ok(step)
            }
            Err(error) => Err(error),
        }
    }
}

// What is known at the first boot, over disks without records.
fn first_memory(
    alloc: Global,
    number: u16,
    schema: Schema,
    opening: List<(Text, Row)>,
) -> Result<Memory, NoMemory>
    requires { IsOpening number schema opening }
    ensures { IfOk result (λ m. m ≡ known_of (opened number schema opening) first_boot) }
{
    let mut memory = Memory::new(alloc, number, schema, opening)?;
    match memory.take(alloc, ResourceRecord::Boot { number: 1 }) {
        Ok(()) => Ok(memory),
        Err(error) => {
            drop(memory);
            Err(error)
        }
    }
}
