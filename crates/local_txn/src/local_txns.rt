//! The open local transactions of a resource.
ghost use Rattle.std.specs.Prelude.{◌≡◌, ◌<◌, ◌≤◌, ◌^◌, ◌-◌, true, None, is_some, length, option_map, OnOk, OnErr, IfOk, Ok};
ghost use Rattle.local_txn.specs.OpenTickets.{has_row, ticket_with, busy_row};
ghost use Rattle.local_txn.specs.Answers.{open_of, new_ticket, with_open};
ghost use Rattle.seata_types.specs.declared.rows.RowKey.{RowKey as Key};

use crate::transactions::{ExecError, OpenTxn};
use crate::{opening, order, rows};
use local_tables::{Effect, Tables};
use seata_types::{Action, List, NoMemory, RowKey, Shared, Stmt, Ticket, Xid};
use std::alloc::Global;
use std::collections::{BTreeMap, VecDeque};
use std::marker::Model;

/// The local transactions that a resource has open since its boot, after AT mode. Tickets, and the answer that a row is busy
/// in place of a wait, are this project's own. Contracts see the boot, how many tickets were opened since, and those that
/// are open, the one that was sent last first: the open tickets of a resource's rules.
#[derive(Drop)]
pub struct LocalTxns {
    boot: u32,
    opened: u32,
    txns: VecDeque<OpenTxn>,
    rows: BTreeMap<RowKey, Ticket>,
}

impl Model for LocalTxns {
    ghost use Rattle.std.specs.Prelude.{map};
    ghost use Rattle.std.specs.Coded.{codes};
    ghost use Rattle.seata_types.specs.contracts.statements.Work as work_type;
    ghost use Rattle.local_txn.specs.Answers.{Tickets, open_of};
    ghost use Rattle.local_txn.specs.RowIndex.{KeepsRows};

    ghost Value = { Tickets };

    ghost coded = { Prim.hlevel (codes, work_type.the_row.coded) };

    ghost view = { λ t. record { boot = t.boot; opened = t.opened; opens = map open_of t.txns.items } };

    ghost invariant = { λ t. KeepsRows t.boot t.opened (map open_of t.txns.items) t.rows.entries };
}

impl LocalTxns {
    ghost use Rattle.std.specs.Prelude.{◌≡◌, ◌<◌, ◌≤◌, ◌^◌, ◌-◌, true, Some, None, Ok, is_some, length, find, option_map, OnOk, OnErr, IfOk};
    ghost use Rattle.std.specs.Option.{option_copied};
    ghost use Rattle.seata_types.specs.declared.limits.TheConstants.{FIELD_ITEMS};
    ghost use Rattle.seata_types.specs.declared.statements.Work.TheVariants as work;
    ghost use Rattle.local_tables.specs.Calls.{effect};
    ghost use Rattle.local_txn.specs.OpenTickets.{AreDistinct, Open, open_at, without, sent_again, last_of, has_row, ticket_with, no_effect, busy_row};
    ghost use Rattle.local_txn.specs.Answers.{open_of, owner_by, is_for, ticket_of, no_tickets, new_ticket, last_ticket, with_open, with_opens, taken_back, raised, counted, Plans, Executes, Prepares, TakesBack};
    ghost use Rattle.seata_types.specs.declared.rows.RowKey.{RowKey as Key};

    /// No ticket was opened since this boot; takes no memory.
    pub fn new(alloc: Global, boot: u32) -> LocalTxns
        ensures { result ≡ no_tickets boot }
    {
        LocalTxns {
            boot,
            opened: 0,
            txns: VecDeque::new(alloc),
            rows: BTreeMap::new(alloc),
        }
    }

    /// What an opening of a call's statements comes to, and nothing changes: the local transaction that `open` takes, or why
    /// there is none. With transaction 0 it is a guarded local transaction, whose number is the call.
    pub fn plan(
        &self,
        alloc: Global,
        xid: Xid,
        call: u16,
        manager: u16,
        stmts: &Shared<List<Stmt>>,
        tables: &Tables,
    ) -> Result<OpenTxn, ExecError>
        requires statements { length stmts.now ≤ FIELD_ITEMS }
        requires tickets { self.now.opened < 2 ^ 32 - 1 }
        ensures { Plans self.now xid call manager (work.At stmts.now) (effect tables.now stmts.now) result }
    {
        let effect = match tables.effect(alloc, stmts.get().as_slice()) {
            Ok(effect) => effect,
            Err(error) => return Err(opening::refused(error)),
        };
        if let Some((key, by)) = self.busy(&effect) {
            return Err(opening::busy(alloc, key, by));
        }
        match opening::at_call(alloc, self.next(), xid, call, manager, stmts, effect) {
            Ok(txn) => Ok(txn),
            Err(NoMemory) => Err(ExecError::NoMemory),
        }
    }

    /// The same of the Try of a call, of no rows yet: nothing but memory can be wanting.
    pub fn plan_try(
        &self,
        alloc: Global,
        xid: Xid,
        call: u16,
        manager: u16,
        action: &Shared<Action>,
    ) -> Result<OpenTxn, NoMemory>
        requires { self.now.opened < 2 ^ 32 - 1 }
        ensures { IfOk result (λ txn.
            Plans self.now xid call manager (work.Tcc action.now) (Ok no_effect) (Ok txn)) }
    {
        opening::tcc_call(alloc, self.next(), xid, call, manager, action)
    }

    /// Opens a local transaction for statements of a call, as it is planned, which is then the one that was sent last. The
    /// tables stay as they are. After an error all is as before.
    pub fn execute(
        &mut self,
        alloc: Global,
        xid: Xid,
        call: u16,
        manager: u16,
        stmts: &Shared<List<Stmt>>,
        tables: &Tables,
    ) -> Result<Ticket, ExecError>
        requires statements { length stmts.now ≤ FIELD_ITEMS }
        requires tickets { self.old.opened < 2 ^ 32 - 1 }
        ensures { Executes self.old (owner_by xid.0 manager call (work.At stmts.now)) (effect tables.now stmts.now) result self.new }
    {
        let txn = match self.plan(alloc, xid, call, manager, stmts, tables) {
            Ok(txn) => txn,
            Err(why) => return Err(why),
        };
        match self.open(alloc, txn) {
            Ok(ticket) => Ok(ticket),
            Err(NoMemory) => Err(ExecError::NoMemory),
        }
    }

    /// Opens a local transaction for the Try of a call, of no rows yet. Without memory all is as before.
    pub fn prepare(
        &mut self,
        alloc: Global,
        xid: Xid,
        call: u16,
        manager: u16,
        action: &Shared<Action>,
    ) -> Result<Ticket, NoMemory>
        requires { self.old.opened < 2 ^ 32 - 1 }
        ensures { Prepares self.old (owner_by xid.0 manager call (work.Tcc action.now)) result self.new }
    {
        let txn = self.plan_try(alloc, xid, call, manager, action)?;
        self.open(alloc, txn)
    }

    /// The open ticket of a call of a transaction, or of a guarded local transaction, with transaction 0 and its number;
    /// none exactly where there is none. Takes no memory.
    pub fn find_call(&self, xid: Xid, call: u16) -> Option<Ticket>
        ensures { result ≡ option_map ticket_of (find (is_for xid.0 call) self.now.opens) }
    {
        order::find_call(&self.txns, xid, call)
    }

    /// An open local transaction; none exactly where its ticket isn't open. Takes no memory.
    pub fn find(&self, ticket: Ticket) -> Option<&OpenTxn>
        ensures { option_map open_of (option_copied result) ≡ open_at self.now.opens ticket }
    {
        order::find(&self.txns, ticket)
    }

    /// Takes an open local transaction out, whose rows are then free; none exactly where its ticket isn't open. Takes no
    /// memory.
    pub fn take(&mut self, ticket: Ticket) -> Option<OpenTxn>
        ensures taken { option_map open_of result ≡ open_at self.old.opens ticket }
        ensures left { self.new ≡ with_opens self.old (without self.old.opens ticket) }
    {
        let txn = order::take(&mut self.txns, ticket)?;
        rows::close(&mut self.rows, txn.images.as_slice(), txn.reads.as_slice());
        Some(txn)
    }

    /// The open ticket that touched or read a row; none exactly where none did. Takes no memory.
    pub fn holder(&self, key: &RowKey) -> Option<Ticket>
        ensures { result ≡ option_map ticket_of (ticket_with self.now.opens key.now) }
    {
        self.rows.get(key).copied()
    }

    /// The least row of an effect that an open ticket has, and that ticket; none exactly where each is free. Images and reads
    /// stand in rising order. Takes no memory.
    pub fn busy<'a>(&self, effect: &'a Effect) -> Option<(&'a RowKey, Ticket)>
        ensures { option_map (λ p. (p.0.now, p.1)) result ≡ busy_row self.now.opens effect.now }
    {
        let images = effect.images.as_slice();
        rows::busy(&self.rows, images, effect.reads.as_slice())
    }

    /// The open ticket that was sent longest ago; none exactly where none is open. Each ticket is open once. Takes no memory.
    pub fn next_to_send(&self) -> Option<Ticket>
        ensures last { result ≡ option_map ticket_of (last_of self.now.opens) }
        ensures once { AreDistinct self.now.opens }
        ensures found { (o : Open) → last_of self.now.opens ≡ Some o → open_at self.now.opens o.ticket ≡ Some o }
    {
        order::last(&self.txns)
    }

    /// An open ticket was now sent last; nothing changes for one that isn't open. Takes no memory.
    pub fn sent(&mut self, ticket: Ticket)
        ensures { self.new ≡ with_opens self.old (sent_again ticket self.old.opens) }
    {
        if let Some(txn) = order::take(&mut self.txns, ticket) {
            self.txns.push_front_reserved(txn);
        }
    }

    /// Takes back the opening of the ticket that was opened last, which is open: it isn't counted any more, and its number is
    /// given again. Takes no memory.
    pub fn withdraw(&mut self, ticket: Ticket)
        requires last { ticket ≡ last_ticket self.old }
        requires is_open { is_some (open_at self.old.opens ticket) ≡ true }
        ensures gone { self.new ≡ taken_back self.old ticket }
        ensures back { TakesBack self.old ticket self.new }
    {
        let opened = self.opened - 1;
        drop(self.take(ticket));
        self.opened = opened;
    }

    /// One conflict more of an open ticket: its count, which stands still at 4,294,967,295. None exactly where the ticket
    /// isn't open, and then nothing changes. Takes no memory.
    pub fn conflicted(&mut self, ticket: Ticket) -> Option<u32>
        ensures count { result ≡ option_map raised (open_at self.old.opens ticket) }
        ensures counted { self.new ≡ with_opens self.old (counted (open_at self.old.opens ticket) ticket self.old.opens) }
    {
        order::count_conflict(&mut self.txns, ticket)
    }

    /// Opens a ticket whose rows are free, and makes it the one that was sent last. Without memory all is as before.
    pub fn open(&mut self, alloc: Global, txn: OpenTxn) -> Result<Ticket, NoMemory>
        requires ticket { txn.ticket ≡ new_ticket self.old }
        requires tickets { self.old.opened < 2 ^ 32 - 1 }
        requires free { (q : Key) → has_row q (open_of txn) ≡ true → ticket_with self.old.opens q ≡ None }
        ensures ticket { IfOk result (λ t. t ≡ txn.ticket) }
        ensures ok { OnOk result (self.new ≡ with_open self.old (open_of txn)) }
        ensures err { OnErr result (self.new ≡ self.old) }
    {
        let ticket = txn.ticket;
        self.txns.reserve(1)?;
        let images = txn.images.as_slice();
        rows::open(alloc, &mut self.rows, images, txn.reads.as_slice(), ticket)?;
        self.txns.push_front_reserved(txn);
        self.opened += 1;
        Ok(ticket)
    }

    /// The ticket that is opened next; takes no memory.
    pub fn next(&self) -> Ticket
        requires { self.now.opened < 2 ^ 32 - 1 }
        ensures { result ≡ new_ticket self.now }
    {
        Ticket {
            boot: self.boot,
            seq: self.opened + 1,
        }
    }
}
