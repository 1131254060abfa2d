//! What is left of a node's seat at its end, without the node.
ghost use Rattle.std.specs.Prelude.{◌≡◌, true, IfSome};
ghost use Rattle.node_steps.specs.Nodes.{IsLawful};
ghost use Rattle.node_seat.specs.Running.{KeepsSeat};
ghost use Rattle.run_ends.specs.Ending.{GivesSender, LosesSenders, SendsThere, TakeAt, ending_of, without_takers};

use history_text::Entry;
use link_queue::{SendSeat, TakeSeat};
use node_seat::{RunFault, RunName, Seat, is_same};
use node_steps::Node;
use seata_types::{List, Place};
use std::alloc::Global;
use std::marker::{Model, PhantomData};
use std::mem;

/// The place of a node of the run that `K` names, the fault of its seat, its trace and the ends of its links, which are those
/// that the run names for its place.
#[derive(Drop)]
pub struct Ended<K: RunName> {
    place: Place,
    fault: Option<RunFault>,
    trace: List<Entry>,
    takers: Vec<TakeSeat>,
    senders: Vec<SendSeat>,
    run: PhantomData<K>,
}

impl<K: RunName> Model for Ended<K> {
    ghost use Rattle.run_ends.specs.Ending.{Ending, HasLinks, ending, ending_code};

    ghost Value = { Ending };

    ghost coded = { ending_code };

    ghost view = { λ e. ending e.place e.fault e.trace e.takers.items e.senders.items };

    ghost invariant = { λ e.
        HasLinks K.run (ending e.place e.fault e.trace e.takers.items e.senders.items) };
}

/// Takes the node of a run out of its seat, with what its type keeps; the rest of the seat is kept for the end of the run.
/// Takes no memory.
pub fn end_of<N: Node, K: RunName>(seat: Seat<N, K>) -> (N, Ended<K>)
    requires run { seat.runs ≡ true }
    ensures node { result.0 ≡ seat.node }
    ensures ended { result.1 ≡ ending_of (N.state seat.node).place seat }
    ensures keeps { KeepsSeat (N.state seat.node) K.world K.held K.run seat }
    ensures lawful { IsLawful (N.state seat.node) }
{
    let place = seat.node().place();
    let fault = seat.fault();
    let (node, trace, takers, senders) = seat.finish();
    let ended = Ended {
        place,
        fault,
        trace,
        takers: takers.into_vec(),
        senders: senders.into_vec(),
        run: PhantomData,
    };
    (node, ended)
}

/// Where the end that sends to a place stands among these.
fn sender_at(senders: &[SendSeat], to: Place) -> Option<usize>
    ensures { IfSome result (SendsThere to senders.now) }
{
    for k in 0..senders.len() {
        if is_same(senders[k].to(), to) {
            return Some(k);
        }
    }
    None
}

impl<K: RunName> Ended<K> {
    /// Its place.
    pub fn place(&self) -> Place
        ensures { result ≡ self.now.place }
    {
        self.place
    }

    /// Gives its trace away.
    pub(crate) fn into_trace(self) -> List<Entry>
        ensures { result ≡ self.trace }
    {
        self.trace
    }

    /// Gives its ends away that take.
    pub(crate) fn give_takers(&mut self, alloc: Global) -> Vec<TakeSeat>
        ensures takers { result.items ≡ self.old.takers }
        ensures links { TakeAt K.run self.old.place result.items }
        ensures rest { self.new ≡ without_takers self.old }
    {
        mem::replace(&mut self.takers, Vec::new(alloc))
    }

    /// Gives its end away that sends to a place, if it has one.
    pub(crate) fn give_sender(&mut self, to: Place) -> Option<SendSeat>
        ensures given { IfSome result (GivesSender to self.old.senders self.new.senders) }
        ensures queue { IfSome result (λ sender.
            sender.line.queue ≡ K.run.queue self.old.place to) }
        ensures rest { LosesSenders self.old self.new }
    {
        let k = sender_at(self.senders.as_slice(), to)?;
        Some(self.senders.remove(k))
    }
}
