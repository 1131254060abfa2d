//! The ends of links that send.
ghost use Rattle.std.specs.Prelude.{◌≡◌, ◌<◌, ◌^◌, ◌-◌};
ghost use Rattle.node_seat.specs.Ends.{CanCount, GoApart, HaveOffered, HaveSent, WasOffered};

use crate::places::is_same;
use frame_codec::Packet;
use link_queue::SendSeat;
use seata_types::Place;
use std::sync::Wait;

/// Pushes a packet. Where the link is full the packet is lost.
fn hand_over<R: Wait>(rt: &R, sender: &mut SendSeat, packet: Packet)
    requires counts { sender.old.refused < 2 ^ 64 - 1 }
    ensures { WasOffered packet sender.old sender.new }
{
    match sender.send(rt, packet) {
        Ok(()) => {}
        Err(back) => drop(back),
    }
}

/// Hands a packet to the end that goes to a place, if there is one.
fn offer_among<R: Wait>(rt: &R, senders: &mut [SendSeat], to: Place, packet: Packet)
    requires apart { GoApart senders.old }
    requires counts { CanCount senders.old }
    ensures { HaveOffered to packet senders.old senders.new }
{
    for k in 0..senders.len() {
        if is_same(senders[k].to(), to) {
            hand_over(rt, &mut senders[k], packet);
            return;
        }
    }
}

/// Hands a packet to the end that goes to its receiver, if both are there.
pub(crate) fn offer<R: Wait>(
    rt: &R,
    senders: &mut Vec<SendSeat>,
    to: Option<Place>,
    packet: Option<Packet>,
)
    requires apart { GoApart senders.old.items }
    requires counts { CanCount senders.old.items }
    ensures { HaveSent to packet senders.old.items senders.new.items }
{
    if let (Some(to), Some(packet)) = (to, packet) {
        offer_among(rt, senders.as_mut_slice(), to, packet);
    }
}
