//! The calls that branches were tried for.
ghost use Rattle.std.specs.Prelude.{◌≡◌, ◌&&◌, ◌==◌, Some, None, if◌then◌else◌, IfOk, OnOk, OnErr};
ghost use Rattle.resource_memory.specs.Lookups.{is_for_call};

use seata_types::{Leg, NoMemory, Xid};
use std::alloc::Global;
use std::collections::BTreeMap;
use std::marker::Model;

/// Of each branch that was tried its call, counted from 1, by transaction and branch.
#[derive(Drop)]
pub(crate) struct TriedCalls {
    entries: BTreeMap<Leg, u16>,
}

impl Model for TriedCalls {
    ghost use Rattle.resource_memory.specs.Known.{Calls};

    ghost Value = { Calls };

    ghost view = { λ c. c.entries.entries };
}

impl TriedCalls {
    ghost use Rattle.std.specs.Prelude.{◌≡◌, [], OnOk, OnErr};
    ghost use Rattle.resource_memory.specs.Known.{with_call};
    ghost use Rattle.resource_memory.specs.Lookups.{call_at, without_call, tried_leg};

    /// No branch was tried; takes no memory.
    pub(crate) fn new(alloc: Global) -> TriedCalls
        ensures { result ≡ [] }
    {
        TriedCalls {
            entries: BTreeMap::new(alloc),
        }
    }

    /// A branch was tried for a call; nothing is kept of call 0, which is none. After an error all is as before.
    pub(crate) fn put(&mut self, leg: Leg, call: u16) -> Result<(), NoMemory>
        ensures ok { OnOk result (self.new ≡ with_call self.old leg call) }
        ensures err { OnErr result (self.new ≡ self.old) }
    {
        if call == 0 {
            return Ok(());
        }
        self.entries.insert(leg, call)?;
        Ok(())
    }

    /// Takes the call of a branch out; takes no memory.
    pub(crate) fn remove(&mut self, leg: Leg)
        ensures { self.new ≡ without_call self.old leg }
    {
        self.entries.remove(&leg);
    }

    /// The call that a branch was tried for, 0 for none; takes no memory.
    pub(crate) fn of_branch(&self, leg: Leg) -> u16
        ensures { result ≡ call_at self.now leg }
    {
        match self.entries.get(&leg) {
            Some(call) => *call,
            None => 0,
        }
    }

    /// The least branch that was tried for a call of a transaction; takes no memory.
    pub(crate) fn find(&self, xid: Xid, call: u16) -> Option<Leg>
        ensures { result ≡ tried_leg xid.0 call self.now }
    {
        for (leg, tried) in &self.entries {
            if is_for_call(*leg, *tried, xid, call) {
                return Some(*leg);
            }
        }
        None
    }
}

fn is_for_call(leg: Leg, tried: u16, xid: Xid, call: u16) -> bool
    ensures { result ≡ is_for_call xid.0 call leg tried }
{
    leg.xid.0 == xid.0 && tried == call
}
