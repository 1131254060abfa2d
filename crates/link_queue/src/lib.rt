//! A link: a bounded queue of packets from one node to another, which two threads share. One end sends, the other takes. What
//! was taken is the first of what was pushed, and once both ends are given back it is known what went over the link.
#![tactic(auto)]

mod known;
mod rule;
mod seats;

pub use seats::{LinkEnd, SendSeat, TakeSeat, gather, link};
