//! The coordinator as a node.
ghost use Rattle.std.specs.Prelude.{◌≡◌};
ghost use Rattle.disk_model.specs.Stop.{below};

use crate::counting;
use crate::table::Table;
use coordinator_rules::{start_of, started};
use disk_model::{Disk, Stoppable};
use lock_table::Steps;
use node_steps::Node;
use seata_types::limits::NODE_STEPS;
use seata_types::{Act, Durable, Input, NoMemory, NodeError, OpenError, Place, Step};
use session_store::Sessions;
use std::alloc::Global;
use std::marker::Brand;
use std::sync::ledger::{Blank, Ledger};

/// The transaction coordinator, over its two disks.
#[derive(Drop)]
pub struct Coordinator<D> {
    table: Table<Stoppable<D>>,
    start: u64,
    // The act in flight, while it is down, and how many records stood before it.
    flight: Option<Durable>,
    records: u32,
    left: u32,
}

// An error, and the disks without their stops.
fn give_back<D: Disk>(
    error: OpenError,
    first: Stoppable<D>,
    second: Stoppable<D>,
) -> (OpenError, D, D)
    ensures { result ≡ (error, below first, below second) }
{
    (error, first.into_inner(), second.into_inner())
}

impl<D: Disk> Coordinator<D> {
    ghost use Rattle.std.specs.Prelude.{◌≡◌, ◌<◌, ◌≤◌, false, List, Some, IfOk, IfErr};
    ghost use Rattle.std.specs.Borrow.{sem};
    ghost use Rattle.disk_model.specs.Disk.{IsSettled};
    ghost use Rattle.durable_records.specs.declared.coordinators.SessionRecord.{SessionRecord};
    ghost use Rattle.session_store.specs.Keeping.{twin, known, found_of};
    ghost use Rattle.session_log.specs.SnapshotOf.{snapshot_of};
    ghost use Rattle.journal_checkpoint.specs.Keeping.{active_disk, first_disk, second_disk};
    ghost use Rattle.disk_model.specs.Stop.{below};
    ghost use Rattle.seata_types.specs.declared.limits.TheConstants.{MANAGERS};
    ghost use Rattle.coordinator_core.specs.Opening.{IsOpened, HandsBack};
    ghost use Rattle.coordinator_core.specs.Standing.{StandsOver, start_of, times_of, steps_left, is_down, sessions_of, course, unended_sessions};
    ghost use Rattle.coordinator_rules.specs.Costs.{InputPasses};
    ghost use Rattle.coordinator_core.specs.Moving.{kept_of, Misses, Arms, ArmsWith, ComesBack, LendsActive};
    ghost use Rattle.coordinator_core.specs.Stepping.{CountsStep, MayStep, StepsBy};
    ghost use Rattle.coordinator_rules.specs.Tracks.{records};
    ghost use Rattle.history_rules.specs.Own.{Own};
    ghost use Rattle.history_rules.specs.CoordinatorMemory.{start};

    /// Opens two disks, of the scenario with so many managers and resources. It asks a branch again after `retry`
    /// ticks, and forgets a finished transaction after `forget`, or never where that is 0. The disks come back where it fails;
    /// `Full` never comes.
    pub fn open(
        alloc: Global,
        first: D,
        second: D,
        retry: u64,
        forget: u64,
        managers: u16,
        resources: u16,
    ) -> Result<Coordinator<D>, (OpenError, D, D)>
        requires first { IsSettled (D.state first) }
        requires second { IsSettled (D.state second) }
        requires managers { managers ≤ MANAGERS }
        ensures opened { IfOk result (IsOpened D.state first second managers resources) }
        ensures times { IfOk result (λ c. times_of c ≡ record { retry = retry; forget = forget }) }
        ensures refused { IfErr result (HandsBack D.state first second managers resources) }
    {
        let first = Stoppable::new(first);
        let second = Stoppable::new(second);
        let sessions = match Sessions::open(alloc, first, second, managers, resources) {
            Ok(sessions) => sessions,
            Err((error, first, second)) => return Err(give_back(error, first, second)),
        };
        let start = start_of(sessions.memory());
        match started(alloc, sessions.memory(), start) {
            Ok(moments) => {
                let table = Table {
                    retry,
                    forget,
                    sessions,
                    moments,
                };
                Ok(Coordinator {
                    table,
                    start,
                    flight: None,
                    records: 0,
                    left: NODE_STEPS,
                })
            }
            Err(NoMemory) => {
                let (first, second) = sessions.into_disks();
                Err(give_back(OpenError::NoMemory, first, second))
            }
        }
    }

    /// Its transactions on their disks; takes no memory.
    pub fn sessions(&self) -> &Sessions<Stoppable<D>>
        requires up { is_down self.now ≡ false }
        ensures value { result.now ≡ sessions_of self.now }
        ensures known { (past : List SessionRecord) (owns : List Own) →
            StandsOver D.state self.now past owns →
            known result.now ≡ snapshot_of (records (course past owns)) }
    {
        &self.table.sessions
    }

    /// The moment at which its scenario's clock starts, in ticks: the latest at which a transaction began that its disks knew
    /// at the opening, and at most 2^62.
    pub fn start(&self) -> u64
        ensures value { result ≡ start_of self.now }
        ensures told { (past : List SessionRecord) (owns : List Own) →
            StandsOver D.state self.now past owns → result ≡ start past }
    {
        self.start
    }

    /// How many transactions began and are neither finished nor failed; takes no memory.
    pub fn unended(&self) -> usize
        requires up { is_down self.now ≡ false }
        ensures { (past : List SessionRecord) (owns : List Own) →
            StandsOver D.state self.now past owns →
            result ≡ unended_sessions (records (course past owns)) }
    {
        counting::unended(self.table.entries())
    }

    /// The first record that its opening read, if there was one: whether it stands on the second disk, and its offset, which
    /// is that of a snapshot too; takes no memory.
    pub fn found(&self) -> Option<(bool, u64)>
        ensures { result ≡ found_of (sessions_of self.now) }
    {
        self.table.sessions.found()
    }

    /// The active disk with its stop, to arm it or to read it; takes no memory. The coordinator stands for what it stood for only
    /// where no call changes the images or what a stop lets pass.
    pub fn disk_mut(&mut self) -> &mut Stoppable<D>
        ensures* lends { sem 𝓛 (LendsActive D.row self.entry result) }
        ensures disk { result.now ≡ active_disk (twin (sessions_of self.old)) }
    {
        let table = &mut self.table;
        table.sessions.disk_mut()
    }

    /// Its two disks, in their order; takes no memory.
    pub fn into_disks(self) -> (D, D)
        ensures first { result.0 ≡ below (first_disk (twin (sessions_of self))) }
        ensures second { result.1 ≡ below (second_disk (twin (sessions_of self))) }
    {
        let Coordinator { table, .. } = self;
        let Table { sessions, .. } = table;
        let (first, second) = sessions.into_disks();
        (first.into_inner(), second.into_inner())
    }

    /// Takes a step as `step` does, and counts the comparisons of keys and the look-ups of transactions.
    pub fn step_counted<L: Ledger>(
        &mut self,
        alloc: Global,
        input: Input,
        now: u64,
        steps: &mut Steps<L>,
    ) -> Result<Step, NodeError>
        requires { MayStep self.old input now }
        ensures { CountsStep D.state self.old self.new input now result steps.old steps.new }
    {
        self.step_with_passes::<L, Brand>(alloc, input, now, steps, Blank::new(1))
    }

    /// Takes a step as `step_counted` does, and counts apart how a registration's own branch is looked for: a pass for the
    /// transaction in which it is looked for, and one for each branch that is passed.
    pub fn step_counting_passes<L: Ledger, P: Ledger>(
        &mut self,
        alloc: Global,
        input: Input,
        now: u64,
        steps: &mut Steps<L>,
        passes: &mut Steps<P>,
    ) -> Result<Step, NodeError>
        requires { MayStep self.old input now }
        ensures counts { CountsStep D.state self.old self.new input now result steps.old steps.new }
        ensures passes { InputPasses input (known (sessions_of self.old)) passes.old passes.new }
    {
        let records = self.table.sessions.records();
        match self.table.answer(alloc, &input, now, steps, passes) {
            Ok(step) => {
                drop(input);
                self.left -= 1;
                Ok(step)
            }
            Err(error) => {
                drop(input);
                self.miss(records, error);
                Err(error)
            }
        }
    }

    // A step ended without an answer. Where the disks failed, its act is in flight over so many records.
    fn miss(&mut self, records: u32, error: NodeError)
        requires able { 0 < steps_left self.old }
        ensures misses { Misses records error self.old self.new }
        ensures start { start_of self.new ≡ start_of self.old }
    {
        if let NodeError::Failed { at } = error {
            self.flight = Some(at);
            self.records = records;
            self.left -= 1;
        }
    }

    // A counted step, where nobody asks for the passes.
    fn step_with_passes<L: Ledger, P: Ledger>(
        &mut self,
        alloc: Global,
        input: Input,
        now: u64,
        steps: &mut Steps<L>,
        blank: Blank,
    ) -> Result<Step, NodeError>
        requires name { blank.name ≡ P.name }
        requires parts { blank.parts ≡ P.parts }
        requires some { 0 < blank.parts }
        requires may { MayStep self.old input now }
        ensures { CountsStep D.state self.old self.new input now result steps.old steps.new }
    {
        let mut passes = Steps::<P>::new(blank);
        self.step_counting_passes(alloc, input, now, steps, &mut passes)
    }

    // A step, where nobody asks for the count.
    fn step_with<L: Ledger>(
        &mut self,
        alloc: Global,
        input: Input,
        now: u64,
        blank: Blank,
    ) -> Result<Step, NodeError>
        requires name { blank.name ≡ L.name }
        requires parts { blank.parts ≡ L.parts }
        requires some { 0 < blank.parts }
        requires may { MayStep self.old input now }
        ensures { StepsBy D.state self.old self.new input now result }
    {
        let mut steps = Steps::<L>::new(blank);
        self.step_counted(alloc, input, now, &mut steps)
    }

    // Lets so many writes and syncs of the active disk pass.
    fn arm_active(&mut self, calls: u32)
        ensures { Arms D.state calls self.old self.new }
    {
        self.table.sessions.disk_mut().arm(calls);
    }

    // The same, where calls are given.
    fn arm_with(&mut self, calls: Option<u32>)
        ensures { ArmsWith D.state calls self.old self.new }
    {
        if let Some(calls) = calls {
            self.arm_active(calls);
        }
    }

    // Takes over what its disks hold after their restart.
    fn come_back(&mut self, alloc: Global, now: u64) -> Result<(), NoMemory>
        ensures { ComesBack now result self.old self.new }
    {
        match started(alloc, self.table.sessions.memory(), now) {
            Ok(moments) => {
                self.table.moments = moments;
                Ok(())
            }
            Err(NoMemory) => {
                self.table.sessions.fall();
                Err(NoMemory)
            }
        }
    }

    // The act in flight, where its record is on the disks.
    fn kept(&self) -> Option<Durable>
        ensures { result ≡ kept_of self.now }
    {
        if self.table.sessions.records() > self.records {
            self.flight
        } else {
            None
        }
    }
}

impl<D: Disk> Node for Coordinator<D> {
    ghost use Rattle.std.specs.Prelude.{◌≡◌, ◌<◌, ◌≤◌, ◌^◌, true, false};
    ghost use Rattle.seata_types.specs.declared.limits.TheConstants.{LATEST_MOMENT};
    ghost use Rattle.disk_model.specs.declared.disk.TheConstants.{LAST_PICK};
    ghost use Rattle.coordinator_core.specs.Standing.{node_state, serves, steps_left, is_down};
    ghost use Rattle.coordinator_core.specs.Stepping.{StepsBy, ArmsBy, CrashesBy, RestartsBy};
    ghost use Rattle.coordinator_core.specs.NodeLaws as laws;

    ghost state = { node_state D.state };

    fn place(&self) -> Place {
        Place::Tc
    }

    // What every node promises of its calls, and that its scenario and what its opening found stay.
    fn step(&mut self, alloc: Global, input: Input, now: u64) -> Result<Step, NodeError>
        requires up { is_down self.old ≡ false }
        requires able { 0 < steps_left self.old }
        requires moment { now ≤ LATEST_MOMENT }
        requires served { serves self.old input }
        ensures { StepsBy D.state self.old self.new input now result }
    {
        self.step_with::<Brand>(alloc, input, now, Blank::new(1))
    }

    fn is_down(&self) -> bool {
        self.table.sessions.is_down()
    }

    fn steps_left(&self) -> u32 {
        self.left
    }

    fn arm(&mut self, calls: u32)
        requires up { is_down self.old ≡ false }
        ensures { ArmsBy D.state self.old self.new calls }
    {
        self.arm_active(calls);
    }

    fn crash(&mut self)
        requires up { is_down self.old ≡ false }
        ensures { CrashesBy D.state self.old self.new }
    {
        self.flight = None;
        self.records = self.table.sessions.records();
        self.table.sessions.fall();
    }

    // And that a snapshot comes in place of the records where one is due.
    fn restart(
        &mut self,
        alloc: Global,
        now: u64,
        pick: u16,
        calls: Option<u32>,
    ) -> Result<Act, OpenError>
        requires down { is_down self.old ≡ true }
        requires moment { now ≤ LATEST_MOMENT }
        requires pick { pick ≤ LAST_PICK }
        ensures { RestartsBy D.state self.old self.new pick calls now result }
    {
        if let Err(error) = self.table.sessions.restart(alloc, pick) {
            return Err(error);
        }
        if let Err(NoMemory) = self.come_back(alloc, now) {
            return Err(OpenError::NoMemory);
        }
        self.arm_with(calls);
        let kept = self.kept();
        Ok(Act::Restarted { kept })
    }

    ghost lawful = { laws.lawful D.state };
}
