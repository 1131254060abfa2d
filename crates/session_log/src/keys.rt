//! What stands once in a snapshot.
use seata_types::{Ticket, Xid};

/// What an AT branch alone has: its resource and that resource's ticket.
#[derive(Clone, Copy, PartialEq, Eq, PartialOrd, Ord)]
pub struct TicketKey {
    pub resource: u16,
    pub ticket: Ticket,
}

/// What a TCC branch alone has: its transaction, its resource and the manager's call.
#[derive(Clone, Copy, PartialEq, Eq, PartialOrd, Ord)]
pub struct CallKey {
    pub xid: Xid,
    pub resource: u16,
    pub call: u16,
}
