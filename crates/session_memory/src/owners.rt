//! Each AT branch with its transaction, by its ticket.
ghost use Rattle.std.specs.Prelude.{◌≡◌, ◌∷◌, [], IfOk, OnOk, OnErr, Some, false};
ghost use Rattle.std.specs.BTreeMap.{insert_entry, is_at as is_at_key};
ghost use Rattle.std.specs.Map.{remove_entry};
ghost use Rattle.lock_table.specs.Locks.{is_holder};
ghost use Rattle.session_log.specs.Soundness.{is_at_branch};
ghost use Rattle.session_memory.specs.Lookups.{leg_of};
ghost use Rattle.session_memory.specs.Owners.{ticket_order, owned_leg, owner_of, IsOwned, KeepsOthers, OthersStay, first_owned, owned_among, Takes};

use seata_types::{BranchKind, Leg, NoMemory, Ticket, Xid};
use session_log::{Branch, SessionEntry, TicketKey};
use std::alloc::Global;
use std::collections::BTreeMap;
use std::marker::Model;

/// The AT branch that was registered of each ticket, with its transaction. A forgotten transaction has none.
#[derive(Drop)]
pub(crate) struct TicketOwners {
    owners: BTreeMap<TicketKey, Leg>,
}

impl Model for TicketOwners {
    ghost use Rattle.session_memory.specs.Owners.{Owners};

    ghost Value = { Owners };

    ghost view = { λ o. o.owners.entries };
}

fn is_at(branch: &Branch) -> bool
    ensures { result ≡ is_at_branch branch.now }
{
    matches!(branch.place.kind, BranchKind::At)
}

fn key_of(branch: &Branch) -> TicketKey
    ensures { result ≡ record { resource = branch.now.place.resource; ticket = branch.now.place.ticket } }
{
    TicketKey {
        resource: branch.place.resource,
        ticket: branch.place.ticket,
    }
}

fn leg_of(xid: Xid, branch: &Branch) -> Leg
    ensures { result ≡ leg_of xid branch.now }
{
    Leg {
        xid,
        branch: branch.id,
    }
}

impl TicketOwners {
    /// No ticket has a branch; takes no memory.
    pub(crate) fn new(alloc: Global) -> TicketOwners
        ensures { result ≡ [] }
    {
        TicketOwners {
            owners: BTreeMap::new(alloc),
        }
    }

    /// The tickets of these transactions' branches, each with the first branch of it.
    pub(crate) fn of(alloc: Global, sessions: &[SessionEntry]) -> Result<TicketOwners, NoMemory>
        ensures { IfOk result (λ owners. Takes [] (first_owned sessions.now) owners) }
    {
        let mut owners = TicketOwners::new(alloc);
        for entry in sessions {
            owners.take_each(entry.xid, entry.session.branches.as_slice())?;
        }
        Ok(owners)
    }

    /// The branch of a resource's ticket.
    pub(crate) fn find(&self, resource: u16, ticket: Ticket) -> Option<Leg>
        ensures { result ≡ owned_leg self.now resource ticket }
    {
        match self.owners.get(&TicketKey { resource, ticket }) {
            Some(leg) => Some(*leg),
            None => None,
        }
    }

    fn set(&mut self, key: TicketKey, leg: Leg) -> Result<(), NoMemory>
        ensures ok { OnOk result (self.new ≡ insert_entry ticket_order self.old key leg) }
        ensures err { OnErr result (self.new ≡ self.old) }
    {
        self.owners.insert(key, leg)?;
        Ok(())
    }

    fn unset(&mut self, key: TicketKey)
        ensures { self.new ≡ remove_entry (is_at_key (ticket_order key)) self.old }
    {
        self.owners.remove(&key);
    }

    /// A branch of a transaction is the one of its ticket, where it is AT. After an error all is as before.
    pub(crate) fn put(&mut self, xid: Xid, branch: &Branch) -> Result<(), NoMemory>
        ensures owned { OnOk result (IsOwned self.new xid branch.now) }
        ensures others { KeepsOthers branch.now self.old self.new }
        ensures err { OnErr result (self.new ≡ self.old) }
    {
        if is_at(branch) {
            self.set(key_of(branch), leg_of(xid, branch))?;
        }
        Ok(())
    }

    // A branch of a transaction is the one of its ticket, unless there is one already.
    fn take(&mut self, xid: Xid, branch: &Branch) -> Result<(), NoMemory>
        ensures { OnOk result (Takes self.old (owned_among xid (branch.now ∷ [])) self.new) }
    {
        if self
            .find(branch.place.resource, branch.place.ticket)
            .is_none()
        {
            self.put(xid, branch)?;
        }
        Ok(())
    }

    // So is each of these branches.
    fn take_each(&mut self, xid: Xid, branches: &[Branch]) -> Result<(), NoMemory>
        ensures { OnOk result (Takes self.old (owned_among xid branches.now) self.new) }
    {
        for branch in branches {
            self.take(xid, branch)?;
        }
        Ok(())
    }

    // A ticket has no branch, where it had one of this transaction.
    fn drop_one(&mut self, xid: Xid, key: TicketKey)
        ensures { OthersStay xid self.old self.new }
    {
        if self.is_of(xid, key) {
            self.unset(key);
        }
    }

    fn is_of(&self, xid: Xid, key: TicketKey) -> bool
        ensures { result ≡ is_holder (owner_of self.now key.resource key.ticket) xid }
    {
        match self.find(key.resource, key.ticket) {
            Some(leg) => leg.xid.0 == xid.0,
            None => false,
        }
    }

    /// The tickets of these branches of a transaction have none of its branches; takes no memory.
    pub(crate) fn drop_each(&mut self, xid: Xid, branches: &[Branch])
        ensures { OthersStay xid self.old self.new }
    {
        for branch in branches {
            self.drop_one(xid, key_of(branch));
        }
    }
}
