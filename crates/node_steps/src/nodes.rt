//! The nodes of a run: the coordinator, the resources and the managers.
use seata_types::{Act, Input, NodeError, OpenError, Place, Step};
use std::alloc::Global;

/// A node. It keeps no history: what it promises is said of each role, with the records that its disks had before, and of each
/// list of own entries, newest first, that it stands for. A node just opened stands for the empty list, and lies where its
/// journal stood. A manager has no disk and is never down; what `arm`, `crash` and `restart` promise is said of a node with
/// disks.
pub trait Node {
    ghost use Rattle.std.specs.Prelude.{◌≡◌, ◌+◌, ◌^◌, ◌<◌, ◌≤◌, ℕ, None, true, false, IfOk, IfErr, OnOk, Err};
    ghost use Rattle.seata_types.specs.declared.limits.TheConstants.{LATEST_MOMENT};
    ghost use Rattle.disk_model.specs.declared.disk.TheConstants.{LAST_PICK};
    ghost use Rattle.seata_types.specs.declared.acts.Act.TheVariants as act;
    ghost use Rattle.history_rules.specs.Own.{Stopped, Crashed, still};
    ghost use Rattle.node_steps.specs.Durable.{SamePicks, HavePick};
    ghost use Rattle.node_steps.specs.Framing.{ComesFramable, SendsFramable};
    ghost use Rattle.node_steps.specs.Nodes.{NodeState, IsLawful};
    ghost use Rattle.node_steps.specs.Promises.{AreTold, DisksFail, StaysItself, Does, TakesStep, AfterError, steps_of, goes_down, Restarts, FailsRestart, Brings, stays_down};

    /// What it stands for and lies by, where it stands, which inputs it serves, how many steps are left, whether it is down, and
    /// its disks.
    ghost state: { Self → NodeState };

    /// Where it stands.
    fn place(&self) -> Place
        ensures { result ≡ (state self.now).place };

    /// Takes a turn, a message or a local transaction, at this moment in ticks: what happens by the rules of all nodes. After
    /// want of memory and `Full` the node is as before; after `Failed` it is down with the act in flight. `Full` comes exactly
    /// where the record that it asks for would end behind the disk's last byte, by where its journal stands.
    fn step(&mut self, alloc: Global, input: Input, now: u64) -> Result<Step, NodeError>
        requires up { (state self.old).down ≡ false }
        requires able { 0 < (state self.old).left }
        requires moment { now ≤ LATEST_MOMENT }
        requires served { (state self.old).serves input }
        ensures answers { IfOk result (TakesStep (state self.old) (state self.new) input now) }
        ensures framable { ComesFramable input → IfOk result SendsFramable }
        ensures after { IfErr result (AfterError (state self.old) (state self.new) input now) }
        ensures same { StaysItself (state self.old) (state self.new) }
        ensures picks { SamePicks (state self.old).disks (state self.new).disks }
        ensures counted { (state self.new).left + steps_of result ≡ (state self.old).left }
        ensures down { (state self.new).down ≡ goes_down result };

    /// Whether it is down.
    fn is_down(&self) -> bool
        ensures { result ≡ (state self.now).down };

    /// How many steps it can still make.
    fn steps_left(&self) -> u32
        ensures { result ≡ (state self.now).left };

    /// Lets so many writes and syncs of the disk that takes its records pass, and then no more.
    fn arm(&mut self, calls: u32)
        requires up { (state self.old).down ≡ false }
        ensures does { (state self.old).stops ≡ true → (now : ℕ) →
            Does (state self.old) (state self.new) (Stopped calls) now (still act.Armed) }
        ensures same { StaysItself (state self.old) (state self.new) }
        ensures picks { SamePicks (state self.old).disks (state self.new).disks }
        ensures counted { (state self.new).left ≡ (state self.old).left }
        ensures up { (state self.new).down ≡ false };

    /// Goes down with no act in flight.
    fn crash(&mut self)
        requires up { (state self.old).down ≡ false }
        ensures does { (state self.old).stops ≡ true → (now : ℕ) →
            Does (state self.old) (state self.new) Crashed now (still (act.Down None None)) }
        ensures same { StaysItself (state self.old) (state self.new) }
        ensures picks { SamePicks (state self.old).disks (state self.new).disks }
        ensures counted { (state self.new).left ≡ (state self.old).left }
        ensures down { (state self.old).stops ≡ true → (state self.new).down ≡ true };

    /// Comes back after a crash, in place: both disks restart with this pick and are read, then so many writes and syncs
    /// pass, where `calls` is given, and a resource writes its boot. A boot that a disk fails is answered by the act that
    /// takes the node down again. What was in flight is kept where the pick brought it back. After an error it is still down,
    /// as before, and may be restarted again. What is said of the own entries is said where the disks tell their bytes.
    fn restart(
        &mut self,
        alloc: Global,
        now: u64,
        pick: u16,
        calls: Option<u32>,
    ) -> Result<Act, OpenError>
        requires down { (state self.old).stops ≡ true → (state self.old).down ≡ true }
        requires moment { now ≤ LATEST_MOMENT }
        requires pick { pick ≤ LAST_PICK }
        ensures restarts { AreTold (state self.old).disks →
            IfOk result (Restarts (state self.old) (state self.new) pick calls now) }
        ensures after { AreTold (state self.old).disks →
            IfErr result (FailsRestart (state self.old) (state self.new) pick calls now) }
        ensures brings { AreTold (state self.old).disks →
            IfOk result (Brings (state self.old) pick) }
        ensures picked { (state self.old).stops ≡ true → OnOk result (HavePick pick (state self.new).disks) }
        ensures failed { result ≡ Err OpenError.Failed →
            DisksFail (state self.old).disks (state self.new).disks }
        ensures same { StaysItself (state self.old) (state self.new) }
        ensures counted { (state self.new).left ≡ (state self.old).left }
        ensures down { (state self.old).stops ≡ true → (state self.new).down ≡ stays_down result };

    /// What always holds of it.
    ghost lawful: { (node : Self) → IsLawful (state node) };
}
