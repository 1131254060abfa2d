//! The coordinator's table, and what it answers.
ghost use Rattle.std.specs.Prelude.{◌≡◌, ◌≤◌, ◌<◌, ◌^◌, true, false, length};
ghost use Rattle.seata_types.specs.declared.limits.TheConstants.{BODY_BYTES};
ghost use Rattle.byte_fields.specs.Layout.{FitsKeys, FitsTicket};
ghost use Rattle.byte_fields.specs.Parts.{FitsBranch, FitsXid};
ghost use Rattle.durable_records.specs.SessionOrder.{is_within};
ghost use Rattle.session_log.specs.Records.{record_bytes};
ghost use Rattle.session_memory.specs.Changes.{may_come, taken_rows};
ghost use Rattle.session_store.specs.Keeping.{managers_of, resources_of, known, is_down, Makes as MakesRecord, TakesSteps};
ghost use Rattle.coordinator_core.specs.Plain.{is_failure};

use crate::asking::asks_nodes;
use coordinator_rules::Moments;
use disk_model::Disk;
use durable_records::SessionRecord;
use lock_table::Steps;
use node_steps::still;
use seata_types::{Act, BranchId, Input, Leg, NoMemory, NodeError, Step, StoreError, Ticket, Xid};
use session_log::SessionEntry;
use session_memory::Memory;
use session_store::Sessions;
use std::alloc::Global;
use std::sync::ledger::Ledger;

/// What is known of all transactions, on two disks, and the moments that it goes by. A branch is asked again after `retry`
/// ticks; a finished transaction is forgotten after `forget`, or never where that is 0.
#[derive(Drop)]
pub struct Table<D> {
    pub retry: u64,
    pub forget: u64,
    pub sessions: Sessions<D>,
    pub moments: Moments,
}

impl<D: Disk> Table<D> {
    ghost use Rattle.std.specs.Prelude.{◌≡◌, ◌≤◌, true, false, Some};
    ghost use Rattle.seata_types.specs.declared.limits.TheConstants.{LATEST_MOMENT};
    ghost use Rattle.seata_types.specs.declared.messages.Input.TheVariants as input;
    ghost use Rattle.session_store.specs.Keeping.{managers_of, resources_of, is_down};
    ghost use Rattle.coordinator_rules.specs.Costs.{InputCosts, InputPasses};
    ghost use Rattle.coordinator_core.specs.Plain.{IsNoTurn};
    ghost use Rattle.coordinator_core.specs.Knowledge.{memory};
    ghost use Rattle.coordinator_core.specs.Answers.{Answers, IsWithin, AddsOn};
    ghost use Rattle.coordinator_core.specs.Serving.{ServesInput};
    ghost use Rattle.coordinator_core.specs.Taking.{IsMadeOn, TakingCosts};

    /// What is known; takes no memory.
    pub(crate) fn memory(&self) -> &Memory
        ensures { result.now ≡ memory self.now }
    {
        self.sessions.memory()
    }

    /// The transactions that are known, in rising order.
    pub(crate) fn entries(&self) -> &[SessionEntry]
        ensures { result.now ≡ (memory self.now).sessions }
    {
        self.sessions.memory().snapshot().sessions.as_slice()
    }

    /// Makes a record that may come: one durable act. After want of memory, and where it doesn't fit, all is as before.
    pub(crate) fn make<L: Ledger>(
        &mut self,
        alloc: Global,
        item: SessionRecord,
        now: u64,
        steps: &mut Steps<L>,
    ) -> Result<(), StoreError>
        requires up { is_down self.old.sessions ≡ false }
        requires made { IsMadeOn self.old item }
        ensures added { AddsOn D.state self.old self.new item now result }
        ensures cost { TakingCosts (Some item) self.old steps.old steps.new }
    {
        let made = self.add(alloc, &item, now, steps);
        drop(item);
        made
    }

    // Adds a record that may come. What needs memory comes first, and the disks last.
    #[tactic(auto, using(crate::proofs::Counted::no_step))]
    fn add<L: Ledger>(
        &mut self,
        alloc: Global,
        item: &SessionRecord,
        now: u64,
        steps: &mut Steps<L>,
    ) -> Result<(), StoreError>
        requires up { is_down self.old.sessions ≡ false }
        requires made { IsMadeOn self.old item.now }
        ensures added { AddsOn D.state self.old self.new item.now now result }
        ensures cost { TakingCosts (Some item.now) self.old steps.old steps.new }
    {
        if let Err(NoMemory) = self.moments.prepare(item, now) {
            return Err(StoreError::NoMemory);
        }
        match put(alloc, &mut self.sessions, item, steps) {
            Ok(()) => {
                self.moments.settle(item, now, self.retry);
                Ok(())
            }
            Err(error) => {
                self.moments
                    .give_up(item, now, self.retry, is_failure(error));
                Err(error)
            }
        }
    }

    /// Answers an input. A step is a comparison of two keys or a look-up of a transaction; a pass is a transaction in which a
    /// branch is looked for, or a branch of it that is passed.
    pub fn answer<L: Ledger, P: Ledger>(
        &mut self,
        alloc: Global,
        input: &Input,
        now: u64,
        steps: &mut Steps<L>,
        passes: &mut Steps<P>,
    ) -> Result<Step, NodeError>
        requires up { is_down self.old.sessions ≡ false }
        requires moment { now ≤ LATEST_MOMENT }
        requires served { ServesInput (managers_of self.old.sessions)
            (resources_of self.old.sessions) input.now }
        ensures answers { Answers D.state (IsWithin self.old) self.old self.new input.now now
            result }
        ensures cost { InputCosts input.now (memory self.old) steps.old steps.new }
        ensures passes { InputPasses input.now (memory self.old) passes.old passes.new }
    {
        match input {
            Input::Turn => self.turn(alloc, now, steps),
            _ => self.by_rules(alloc, input, now, steps, passes),
        }
    }

    // Answers an input that is no turn.
    fn by_rules<L: Ledger, P: Ledger>(
        &mut self,
        alloc: Global,
        input: &Input,
        now: u64,
        steps: &mut Steps<L>,
        passes: &mut Steps<P>,
    ) -> Result<Step, NodeError>
        requires up { is_down self.old.sessions ≡ false }
        requires moment { now ≤ LATEST_MOMENT }
        requires served { ServesInput (managers_of self.old.sessions)
            (resources_of self.old.sessions) input.now }
        requires message { IsNoTurn input.now }
        ensures answers { Answers D.state (IsWithin self.old) self.old self.new input.now now
            result }
        ensures cost { InputCosts input.now (memory self.old) steps.old steps.new }
        ensures passes { InputPasses input.now (memory self.old) passes.old passes.new }
    {
        let memory = self.sessions.memory();
        let moments = &self.moments;
        match coordinator_rules::answer(
            alloc,
            memory,
            moments,
            self.forget,
            input,
            now,
            steps,
            passes,
        ) {
            Ok(answer) => self.take(alloc, answer, now, steps),
            Err(NoMemory) => Err(NodeError::NoMemory),
        }
    }

    // Takes a turn. A branch is asked where it is one of the scenario.
    fn turn<L: Ledger>(
        &mut self,
        alloc: Global,
        now: u64,
        steps: &mut Steps<L>,
    ) -> Result<Step, NodeError>
        requires up { is_down self.old.sessions ≡ false }
        requires moment { now ≤ LATEST_MOMENT }
        ensures { Answers D.state (IsWithin self.old) self.old self.new input.Turn now result }
    {
        let memory = self.sessions.memory();
        let answer = coordinator_rules::turn(memory, &self.moments, self.forget, now);
        let machine = self.sessions.machine();
        if asks_nodes(machine.managers, machine.resources, &answer.step.sent) {
            return self.take(alloc, answer, now, steps);
        }
        drop(answer);
        Ok(still(Act::Nothing))
    }
}

// Puts a record on the disks.
#[tactic(auto, using(crate::proofs::Counted::no_step))]
fn put<D: Disk, L: Ledger>(
    alloc: Global,
    sessions: &mut Sessions<D>,
    item: &SessionRecord,
    steps: &mut Steps<L>,
) -> Result<(), StoreError>
    requires up { is_down sessions.old ≡ false }
    requires keys { FitsKeys (taken_rows item.now) }
    requires small { length (record_bytes item.now) ≤ BODY_BYTES }
    requires within { is_within (managers_of sessions.old) (resources_of sessions.old)
        item.now ≡ true }
    requires allowed { may_come (known sessions.old) item.now ≡ true }
    ensures made { MakesRecord D.state item.now result sessions.old sessions.new }
    ensures cost { TakesSteps item.now sessions.old steps.old steps.new }
{
    match item {
        SessionRecord::Begun {
            xid: _,
            manager,
            begun,
            timeout,
        } => match sessions.begin(alloc, *manager, *begun, *timeout) {
            Ok(_) => Ok(()),
            Err(error) => Err(error),
        },
        SessionRecord::Decided { xid, how } => match sessions.decide(alloc, *xid, *how) {
            Ok(_) => Ok(()),
            Err(error) => Err(error),
        },
        SessionRecord::Ended { xid, branch } => sessions.branch_end(alloc, leg(*xid, *branch)),
        SessionRecord::Retrying { xid } => sessions.retrying(alloc, *xid),
        SessionRecord::Failed { xid, branch, stmt } => {
            sessions.failed(alloc, leg(*xid, *branch), *stmt)
        }
        SessionRecord::Finished { xid } => sessions.end(alloc, *xid),
        SessionRecord::Forgot { xid } => sessions.forget(alloc, *xid),
        SessionRecord::Granted {
            xid,
            branch,
            resource,
            call,
            ticket,
            ..
        } => {
            tell_numbers(*xid, *branch, *resource, *call, *ticket);
            sessions.add_counted(alloc, item, steps)
        }
    }
}

// Tells of a branch's numbers what their types say, for its record.
fn tell_numbers(xid: Xid, branch: BranchId, resource: u16, call: u16, ticket: Ticket)
    ensures leg { FitsXid xid × FitsBranch branch }
    ensures place { (resource < 2 ^ 16) × (call < 2 ^ 16) }
    ensures ticket { FitsTicket ticket }
{}

fn leg(xid: Xid, branch: BranchId) -> Leg
    ensures { result ≡ record { xid = xid; branch = branch } }
{
    Leg { xid, branch }
}

// Whether the disks failed.
fn is_failure(error: StoreError) -> bool
    ensures { result ≡ is_failure error }
{
    matches!(error, StoreError::Failed)
}
