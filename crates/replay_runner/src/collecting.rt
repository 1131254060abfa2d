//! The history of a replay, out of the traces of its nodes.
ghost use Rattle.std.specs.Prelude.{◌≡◌, ◌<◌, ◌-◌, ◌++◌, ◌∷◌, [], List as Items, Some, IfOk, OnOk, length, slice_get};
ghost use Rattle.history_text.specs.declared.entries.Entry.{Entry as TheEntry};
ghost use Rattle.history_rules.specs.Histories.{Moment};
ghost use Rattle.history_text.specs.History.{entries};
ghost use Rattle.replay_runner.specs.Traces.{places_of};
ghost use Rattle.replay_runner.specs.Collecting.{AreTraces, IsShortened, trace_among, trace_at};

use history_text::Entry;
use seata_types::{List, NoMemory, Place};
use std::alloc::Global;

/// The traces of a replay, each with the oldest entry first: of the network, of the coordinator, of each resource and of each
/// manager, which are counted from 1.
#[derive(Drop)]
pub struct Traces {
    pub network: Vec<Entry>,
    pub coordinator: Vec<Entry>,
    pub resources: Vec<Vec<Entry>>,
    pub managers: Vec<Vec<Entry>>,
}

/// Puts an item at the end of a list.
pub fn put<T: Drop>(list: &mut Vec<T>, item: T) -> Result<(), NoMemory>
    ensures { OnOk result (list.new.items ≡ list.old.items ++ item ∷ []) }
{
    list.push(item)?;
    Ok(())
}

/// Takes out the newest entry.
fn pop_entry(trace: &mut Vec<Entry>) -> Option<Entry>
    ensures { (front : Items TheEntry) (e : TheEntry) → trace.old.items ≡ front ++ e ∷ [] →
        (result ≡ Some e) × (trace.new.items ≡ front) }
{
    trace.pop()
}

/// Takes out the newest entry of one of these traces, counted from 1.
fn pop_among(traces: &mut Vec<Vec<Entry>>, n: usize) -> Option<Entry>
    ensures { (front : Items TheEntry) (e : TheEntry) →
        trace_among traces.old.items n ≡ Some (front ++ e ∷ []) →
        (result ≡ Some e) × IsShortened traces.old.items traces.new.items n front }
{
    if n == 0 || n > traces.len() {
        return None;
    }
    pop_entry(&mut traces[n - 1])
}

impl Traces {
    ghost use Rattle.std.specs.Prelude.{◌≡◌, ◌++◌, ◌∷◌, [], List as Items, Some, OnOk};
    ghost use Rattle.history_text.specs.History.{entry_of};

    /// Takes out the newest entry of a place.
    fn pop(&mut self, place: Place) -> Option<Entry>
        ensures { (m : Moment) (ms : Items Moment) → AreTraces (trace_at self.old) (m ∷ ms) →
            m.place ≡ place → (result ≡ Some (entry_of m)) × AreTraces (trace_at self.new) ms }
    {
        match place {
            Place::Net => pop_entry(&mut self.network),
            Place::Tc => pop_entry(&mut self.coordinator),
            Place::Res(n) => pop_among(&mut self.resources, n as usize),
            Place::Man(n) => pop_among(&mut self.managers, n as usize),
        }
    }

    /// Moves the newest entry of a place behind those of a history.
    fn move_newest(&mut self, place: Place, history: &mut Vec<Entry>) -> Result<(), NoMemory>
        ensures { OnOk result ((m : Moment) (ms : Items Moment) →
            AreTraces (trace_at self.old) (m ∷ ms) → m.place ≡ place →
            (history.new.items ≡ history.old.items ++ entry_of m ∷ [])
            × AreTraces (trace_at self.new) ms) }
    {
        match self.pop(place) {
            Some(entry) => put(history, entry),
            None => Ok(()),
        }
    }
}

/// The k-th place from the end, counted from 0.
fn from_end(places: &[Place], k: usize) -> Place
    requires { k < length places.now }
    ensures { slice_get places.now (length places.now - 1 - k) ≡ Some result }
{
    places[places.len() - 1 - k]
}

/// The history whose entries stand at these places one after the other, out of the traces of each place.
pub fn collected(alloc: Global, places: &[Place], traces: Traces) -> Result<List<Entry>, NoMemory>
    ensures { IfOk result (λ history. (ms : Items Moment) → places.now ≡ places_of ms →
        AreTraces (trace_at traces) ms → history ≡ entries ms) }
{
    let mut traces = traces;
    let mut history = Vec::with_capacity(alloc, places.len())?;
    for k in 0..places.len() {
        // The newest entry first.
        traces.move_newest(from_end(places, k), &mut history)?;
    }
    history.reverse();
    Ok(List::of(history))
}
