//! A registration whose steps and passes are counted. What a count says is in clauses: it takes no bytes when it runs.
ghost use Rattle.std.specs.Prelude.{◌≡◌, ◌+◌, ◌^◌, ◌<◌, ◌≤◌, ℕ, false, [], length, IfOk};
ghost use Rattle.seata_types.specs.declared.ids.Place.TheVariants as place;
ghost use Rattle.seata_types.specs.declared.messages.Input.TheVariants as input;
ghost use Rattle.seata_types.specs.declared.messages.Message.TheVariants as message;
ghost use Rattle.seata_types.specs.declared.statuses.BranchKind.TheVariants as kind;
ghost use Rattle.session_memory.specs.Lookups.{branches_in};
ghost use Rattle.session_store.specs.Keeping.{known};
ghost use Rattle.coordinator_core.specs.Costs.{held_rows};
ghost use Rattle.coordinator_core.specs.Standing.{is_down, sessions_of, steps_left};
ghost use Rattle.history_tests.specs.Served.{Serves};

use crate::errors::Fail;
use crate::steps::has_line;
use coordinator_core::Coordinator;
use disk_model::MemDisk;
use lock_table::Steps;
use node_steps::Node;
use seata_types::{
    Boxed, BranchKind, Input, List, Message, NoMemory, NodeError, Place, Step, Ticket, Xid,
};
use std::alloc::Global;
use std::sync::ledger::{Blank, Ledger};

/// The registration of transaction 1's first call, of TCC mode and without rows.
fn registration(alloc: Global) -> Result<Input, NoMemory>
    ensures { IfOk result (λ given. given ≡
        input.Message (place.Res 1) (message.Register (record { 0 = 1 }) 1 1 (record { boot = 1; seq = 1 }) kind.Tcc [] [])) }
{
    let message = Message::Register {
        xid: Xid(1),
        resource: 1,
        call: 1,
        ticket: Ticket { boot: 1, seq: 1 },
        kind: BranchKind::Tcc,
        hold: List::of(Vec::new(alloc)),
        check: List::of(Vec::new(alloc)),
    };
    Ok(Input::Message {
        from: Place::Res(1),
        message: Boxed::new(alloc, message)?,
    })
}

/// Registers it, which takes three look-ups, one pass for transaction 1 and one for each of its branches.
fn register<L: Ledger, P: Ledger>(
    alloc: Global,
    tc: &mut Coordinator<MemDisk>,
    steps: &mut Steps<L>,
    passes: &mut Steps<P>,
) -> Result<Step, NodeError>
    requires serves { Serves tc.old }
    requires up { is_down tc.old ≡ false }
    requires able { 0 < steps_left tc.old }
    ensures steps { (d : ℕ) → held_rows (known (sessions_of tc.old)) < 2 ^ d → steps.new ≤ steps.old + 3 }
    ensures passes { passes.new ≤ passes.old + 1 + length (branches_in (known (sessions_of tc.old)) 1) }
{
    match registration(alloc) {
        Ok(given) => tc.step_counting_passes(alloc, given, 0, steps, passes),
        Err(NoMemory) => Err(NodeError::NoMemory),
    }
}

/// Whether its branch is granted.
pub fn counts<L: Ledger, P: Ledger>(
    alloc: Global,
    tc: &mut Coordinator<MemDisk>,
    steps: Blank,
    passes: Blank,
) -> Result<(), Fail>
    requires serves { Serves tc.old }
    requires steps_name { steps.name ≡ L.name }
    requires steps_parts { steps.parts ≡ L.parts }
    requires steps_some { 0 < steps.parts }
    requires passes_name { passes.name ≡ P.name }
    requires passes_parts { passes.parts ≡ P.parts }
    requires passes_some { 0 < passes.parts }
{
    let mut steps = Steps::<L>::new(steps);
    let mut passes = Steps::<P>::new(passes);
    if tc.is_down() || tc.steps_left() == 0 {
        return Err(Fail::Other("no step is left"));
    }
    let answer = register(alloc, tc, &mut steps, &mut passes);
    let wanted = "1 tc 0 turn | granted tc:1 b1 | granted t1.1 tc:1 b1 to r1";
    has_line(alloc, Place::Tc, answer, wanted)
}
