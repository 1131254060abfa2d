//! The end of a run: its links are gathered, so that the traces of its nodes are those of one history.
ghost use Rattle.std.specs.Prelude.{◌≡◌, ◌≤◌, [], length, map, vec_capacity, IfSome, OnSome};
ghost use Rattle.history_rules.specs.Nodes.{Past};
ghost use Rattle.run_ends.specs.Ending.{trace_of};
ghost use Rattle.run_ends.specs.Joining.{AreJoined, AreLeft, AreNamed, AreOfRun, IsNamed, Joins, JoinsAll, StandsThere};
ghost use Rattle.run_ends.specs.Settled.{AreSettled};

use crate::ended::Ended;
use history_text::Entry;
use link_queue::{TakeSeat, gather};
use node_seat::{RunName, is_same};
use seata_types::{List, Place};
use std::alloc::Global;
use trace_rules::laws::{ended_nodes_make_a_history, ended_nodes_make_a_run};

/// Where the node of a place stands among these.
fn node_at<K: RunName>(nodes: &[Ended<K>], place: Place) -> Option<usize>
    ensures { IfSome result (StandsThere place nodes.now) }
{
    for k in 0..nodes.len() {
        if is_same(nodes[k].place(), place) {
            return Some(k);
        }
    }
    None
}

/// Gathers an end that takes with its other end, at the node that it comes from. None where that isn't there.
fn join<K: RunName>(nodes: &mut [Ended<K>], taker: TakeSeat) -> Option<()>
    requires named { IsNamed K.run taker }
    ensures { OnSome result (Joins nodes.old nodes.new taker) }
{
    let k = node_at(nodes, taker.from())?;
    let sender = nodes[k].give_sender(taker.to())?;
    let _end = gather(sender, taker);
    Some(())
}

/// Gathers each of these ends with its other end.
fn join_all<K: RunName>(nodes: &mut [Ended<K>], takers: Vec<TakeSeat>) -> Option<()>
    requires named { AreNamed K.run takers.items }
    ensures { OnSome result (JoinsAll nodes.old nodes.new takers.items) }
{
    for taker in takers {
        join(nodes, taker)?;
    }
    Some(())
}

/// Gathers all links of these nodes.
fn join_nodes<K: RunName>(alloc: Global, nodes: &mut [Ended<K>]) -> Option<()>
    ensures { OnSome result (AreLeft (length nodes.old) nodes.old nodes.new) }
{
    for k in 0..nodes.len() {
        let takers = nodes[k].give_takers(alloc);
        join_all(nodes, takers)?;
    }
    Some(())
}

/// The traces of these nodes, for which there is room.
fn traces_of<K: RunName>(nodes: Vec<Ended<K>>, mut traces: Vec<List<Entry>>) -> List<List<Entry>>
    requires empty { traces.items ≡ [] }
    requires room { length nodes.items ≤ vec_capacity traces }
    ensures { result ≡ map trace_of nodes.items }
{
    for node in nodes {
        traces.push_reserved(node.into_trace());
    }
    List::of(traces)
}

/// Gathers all links of the nodes of a run, and gives their traces, for which there is room. None where the other end of a
/// link isn't at one of these nodes, which is never so. Takes no memory, and doesn't wait.
pub fn settle<K: RunName>(
    alloc: Global,
    nodes: Vec<Ended<K>>,
    traces: Vec<List<Entry>>,
) -> Option<List<List<Entry>>>
    requires run { (past : Past) → AreOfRun K.world past nodes.items }
    requires empty { traces.items ≡ [] }
    requires room { length nodes.items ≤ vec_capacity traces }
    ensures traces { IfSome result (λ traces. traces ≡ map trace_of nodes.items) }
    ensures joined { OnSome result (AreJoined nodes.items) }
    ensures settled { OnSome result ((past : Past) →
        AreSettled K.world past K.run.stops nodes.items) }
{
    let mut left = nodes;
    join_nodes(alloc, left.as_mut_slice())?;
    // Why traces of joined nodes make one history.
    ended_nodes_make_a_run();
    ended_nodes_make_a_history();
    Some(traces_of(left, traces))
}
