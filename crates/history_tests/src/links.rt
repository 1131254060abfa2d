//! A link and a merge with ample memory, and what no clause says of a link: it takes 64 packets, gives the next one back, has
//! none left once they are taken, and then takes the next one. Each end is in a thread of its own.
use crate::errors::Fail;
use frame_codec::{Packet, encode};
use history_text::{Cause, Entry};
use link_queue::{SendSeat, TakeSeat, link};
use seata_types::{Act, List, Message, NoMemory, Place, Xid};
use std::alloc::Global;
use std::sync::Wait;
use std::thread;
use std::thread::Threads;
use trace_merge::merge;

/// How many packets a link holds.
const ROOM: u32 = 64;

fn packet(alloc: Global, stamp: u32) -> Result<Packet, NoMemory> {
    encode(alloc, &Message::Begun { xid: Xid(1) }, stamp)
}

/// Whether a packet with this stamp goes over the link.
fn goes<R: Wait>(rt: &R, alloc: Global, sender: &mut SendSeat, stamp: u32) -> Result<bool, Fail> {
    if sender.refused() == u64::MAX {
        return Err(Fail::Other("no count is left"));
    }
    let packet = packet(alloc, stamp)?;
    Ok(sender.send(rt, packet).is_ok())
}

/// Whether the link takes as many packets as it holds, and none more.
fn fills<R: Wait>(rt: &R, alloc: Global, sender: &mut SendSeat) -> Result<(), Fail> {
    for stamp in 0..ROOM {
        if !goes(rt, alloc, sender, stamp)? {
            return Err(Fail::Other("a packet comes back early"));
        }
    }
    if goes(rt, alloc, sender, ROOM)? {
        return Err(Fail::Other("a packet too many goes over"));
    }
    Ok(())
}

/// Whether as many packets are there, and none more.
fn empties<R: Wait>(rt: &R, taker: &mut TakeSeat) -> Result<(), Fail> {
    for _ in 0..ROOM {
        if taker.take(rt).is_none() {
            return Err(Fail::Other("a packet is missing"));
        }
    }
    if taker.take(rt).is_some() {
        return Err(Fail::Other("a packet too many is there"));
    }
    Ok(())
}

fn filled<R: Wait>(rt: &R, alloc: Global, mut sender: SendSeat) -> Result<SendSeat, Fail> {
    match fills(rt, alloc, &mut sender) {
        Ok(()) => Ok(sender),
        Err(fail) => Err(fail),
    }
}

/// Fills a link in one thread while its other end is in another, empties it, and has one more packet go over it.
fn goes_over<R: Threads + Wait + Sync>(rt: &R, alloc: Global) -> Result<(), Fail> {
    let (sender, taker) = link(alloc, Place::Tc, Place::Res(1))?;
    let (filled, mut taker) = thread::join(rt, move || filled(rt, alloc, sender), move || taker);
    let mut sender = filled?;
    empties(rt, &mut taker)?;
    if !goes(rt, alloc, &mut sender, ROOM)? || taker.take(rt).is_none() {
        return Err(Fail::Other("an empty link gives a packet back"));
    }
    Ok(())
}

#[test]
fn a_link_holds_64_packets(rt: HostRuntime) -> Result<(), Fail> {
    goes_over(&rt, rt.alloc())
}

fn entry(stamp: u32, place: Place) -> Entry {
    Entry {
        stamp,
        place,
        now: 0,
        cause: Cause::Turn,
        act: Act::Nothing,
        sent: None,
    }
}

fn trace(alloc: Global, stamp: u32, place: Place) -> Result<List<Entry>, NoMemory> {
    let mut entries = Vec::new(alloc);
    entries.push(entry(stamp, place))?;
    Ok(List::of(entries))
}

/// A trace of the coordinator and one of the first resource.
fn traces(alloc: Global) -> Result<List<List<Entry>>, NoMemory> {
    let mut traces = Vec::new(alloc);
    traces.push(trace(alloc, 2, Place::Tc)?)?;
    traces.push(trace(alloc, 1, Place::Res(1))?)?;
    Ok(List::of(traces))
}

fn merges(alloc: Global) -> Result<(), Fail> {
    let merged = merge(alloc, traces(alloc)?);
    if merged?.as_slice().len() != 2 {
        return Err(Fail::Other("an entry is missing"));
    }
    Ok(())
}

#[test]
fn merges_two_traces(rt: HostRuntime) -> Result<(), Fail> {
    merges(rt.alloc())
}
