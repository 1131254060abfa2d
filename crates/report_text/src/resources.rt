//! One more entry of a resource.
ghost use Rattle.std.specs.Prelude.{◌≡◌, IfOk, OnOk};
ghost use Rattle.std.specs.Option.{option_copied};
ghost use Rattle.history_rules.specs.ResourceMemory.{or_empty};
ghost use Rattle.report_text.specs.Keeping.{known_with};

use crate::kept::OpenWork;
use crate::left::ResourceLeft;
use crate::open_works::OpenWorks;
use crate::records::{committed, effect_of, local_committed, plain_record, tried};
use crate::sections::put_reads;
use durable_records::ResourceRecord;
use history_text::{Entry, Names};
use local_tables::Effect;
use resource_memory::Memory;
use seata_types::{Act, Duplicate, Durable, List, NoMemory, Stmt, Ticket};
use std::alloc::{AllocError, Global};
use std::mem;

impl ResourceLeft {
    ghost use Rattle.std.specs.Prelude.{◌≡◌, ◌++◌, IfOk, OnOk, None, string_bytes};
    ghost use Rattle.std.specs.Option.{option_copied, option_and_then};
    ghost use Rattle.history_rules.specs.Own.{kept_part};
    ghost use Rattle.report_text.specs.Made.{next_boot};
    ghost use Rattle.report_text.specs.Numbered.{AreFew};
    ghost use Rattle.report_text.specs.Sections.{reads_text};
    ghost use Rattle.report_text.specs.Keeping.{resource_over, with_record, booted, landed, less_open, asked_now, with_open, less_work, fallen, resource_taken, standing};

    /// Before the first entry: a boot over what the resource's disks held.
    pub(crate) fn over(alloc: Global, memory: Memory) -> Result<ResourceLeft, NoMemory>
        ensures { IfOk result (λ made. made ≡ resource_over memory) }
    {
        let mut made = ResourceLeft {
            memory,
            flight: None,
            works: OpenWorks::new(alloc),
        };
        made.boot(alloc)?;
        Ok(made)
    }

    /// The next entry, with the statements that it is about and those of a Try that it opens a ticket for. The rows that a
    /// local commit read are told where its record comes to stand.
    pub(crate) fn take(
        &mut self,
        alloc: Global,
        next: &Entry,
        run: Option<&List<Stmt>>,
        tries: Option<&List<Stmt>>,
        reads: &mut String,
        names: &Names,
    ) -> Result<(), NoMemory>
        requires run { AreFew (option_copied run) }
        requires tries { AreFew (option_copied tries) }
        ensures kept { OnOk result (self.new ≡
            resource_taken (option_copied run.entry)
            (option_copied tries.entry) next.entry.now.act self.old) }
        ensures reads { OnOk result (string_bytes reads.new ≡ string_bytes reads.old ++
            reads_text names.now (standing (option_copied run.entry) next.entry.now.act self.old)) }
    {
        match &next.act {
            Act::Durable(done) => self.commit(alloc, *done, run, reads, names),
            Act::Down { kept, at } => {
                self.land(alloc, *kept, reads, names)?;
                self.fall(alloc, *at, run)
            }
            Act::Restarted { kept } => {
                self.land(alloc, *kept, reads, names)?;
                self.boot(alloc)
            }
            Act::Opened { call, ticket, .. } => self.open(alloc, *ticket, *call, run, tries),
            Act::OpenedLocal { ticket, .. } => self.open(alloc, *ticket, 0, run, None),
            Act::Dropped { ticket, .. } => {
                self.close(*ticket);
                Ok(())
            }
            Act::DroppedLocal { ticket, .. } => {
                self.close(*ticket);
                Ok(())
            }
            _ => Ok(()),
        }
    }

    // A durable act was done.
    fn commit(
        &mut self,
        alloc: Global,
        done: Durable,
        run: Option<&List<Stmt>>,
        reads: &mut String,
        names: &Names,
    ) -> Result<(), NoMemory>
        requires { AreFew (option_copied run) }
        ensures kept { OnOk result (self.new ≡
            with_record (asked_now (option_copied run.entry) (landed None self.old) done)
            (less_open done (landed None self.old))) }
        ensures reads { OnOk result (string_bytes reads.new ≡ string_bytes reads.old ++
            reads_text names.now
            (asked_now (option_copied run.entry) (landed None self.old) done)) }
    {
        self.land(alloc, None, reads, names)?;
        let made = self.record(alloc, run, done)?;
        self.stand(alloc, made, reads, names)
    }

    // The node went down with an act in flight, if any, and no ticket is open any more.
    fn fall(
        &mut self,
        alloc: Global,
        at: Option<Durable>,
        run: Option<&List<Stmt>>,
    ) -> Result<(), NoMemory>
        requires { AreFew (option_copied run) }
        ensures { OnOk result (self.new ≡
            fallen (option_and_then (asked_now (option_copied run.entry) self.old) at) self.old) }
    {
        let made = match at {
            Some(done) => self.record(alloc, run, done)?,
            None => None,
        };
        drop(mem::replace(&mut self.flight, made));
        self.works = OpenWorks::new(alloc);
        Ok(())
    }

    // Nothing is in flight any more, and what was stands where it was kept.
    fn land(
        &mut self,
        alloc: Global,
        kept: Option<Durable>,
        reads: &mut String,
        names: &Names,
    ) -> Result<(), NoMemory>
        ensures kept { OnOk result (self.new ≡ landed kept self.old) }
        ensures reads { OnOk result (string_bytes reads.new ≡ string_bytes reads.old ++
            reads_text names.now (kept_part kept self.old.flight)) }
    {
        let flight = mem::replace(&mut self.flight, None);
        if kept.is_some() {
            return self.stand(alloc, flight, reads, names);
        }
        drop(flight);
        Ok(())
    }

    // One more record stands, if there is one, and the rows that it read are told.
    fn stand(
        &mut self,
        alloc: Global,
        made: Option<ResourceRecord>,
        reads: &mut String,
        names: &Names,
    ) -> Result<(), NoMemory>
        ensures kept { OnOk result (self.new ≡ with_record made self.old) }
        ensures reads { OnOk result (string_bytes reads.new ≡ string_bytes reads.old ++
            reads_text names.now made) }
    {
        match put_reads(reads, &made, names) {
            Ok(()) => self.put(alloc, made),
            Err(AllocError) => {
                drop(made);
                Err(NoMemory)
            }
        }
    }

    // One more record stands, if there is one.
    fn put(&mut self, alloc: Global, made: Option<ResourceRecord>) -> Result<(), NoMemory>
        ensures { OnOk result (self.new ≡ with_record made self.old) }
    {
        match made {
            Some(record) => add(alloc, &mut self.memory, record),
            None => Ok(()),
        }
    }

    // The resource was opened again.
    fn boot(&mut self, alloc: Global) -> Result<(), NoMemory>
        ensures { OnOk result (self.new ≡ booted self.old) }
    {
        let record = self.next_boot();
        add(alloc, &mut self.memory, record)
    }

    fn next_boot(&self) -> ResourceRecord
        ensures { result ≡ next_boot self.now.known }
    {
        ResourceRecord::Boot {
            number: self.memory.boots().saturating_add(1),
        }
    }

    // A ticket is opened for these statements, or for those of a Try.
    fn open(
        &mut self,
        alloc: Global,
        ticket: Ticket,
        call: u16,
        run: Option<&List<Stmt>>,
        tries: Option<&List<Stmt>>,
    ) -> Result<(), NoMemory>
        requires run { AreFew (option_copied run) }
        requires tries { AreFew (option_copied tries) }
        ensures { OnOk result (self.new ≡
            with_open ticket call (option_copied run.entry) (option_copied tries.entry) self.old) }
    {
        let tries = copied(alloc, tries)?;
        let effect = effect_of(alloc, self.memory.tables(), run)?;
        let Effect { images, reads, .. } = effect;
        let work = OpenWork {
            call,
            tries,
            images,
            reads,
        };
        self.works.open(ticket, work)
    }

    // A ticket is open no more.
    fn close(&mut self, ticket: Ticket)
        ensures { self.new ≡ less_work ticket self.old }
    {
        drop(self.works.take(ticket));
    }

    // The record of a durable act; the ticket that it ends is open no more.
    fn record(
        &mut self,
        alloc: Global,
        run: Option<&List<Stmt>>,
        done: Durable,
    ) -> Result<Option<ResourceRecord>, NoMemory>
        requires { AreFew (option_copied run) }
        ensures made { IfOk result (λ made. made ≡
            asked_now (option_copied run.entry) self.old done) }
        ensures left { OnOk result (self.new ≡ less_open done self.old) }
    {
        match done {
            Durable::Committed {
                xid,
                branch,
                ticket,
            } => Ok(committed(xid, branch, self.works.take(ticket))),
            Durable::Tried {
                xid,
                branch,
                ticket,
            } => {
                let work = self.works.take(ticket);
                tried(alloc, self.memory.tables(), xid, branch, work)
            }
            Durable::LocalCommitted { number, ticket } => {
                Ok(local_committed(number, self.works.take(ticket)))
            }
            Durable::Boot => Ok(Some(self.next_boot())),
            _ => plain_record(alloc, self.memory.tables(), run, done),
        }
    }
}

// One more record stands; no legal history has one that may not come.
fn add(alloc: Global, memory: &mut Memory, item: ResourceRecord) -> Result<(), NoMemory>
    ensures { OnOk result (memory.new ≡ known_with item memory.old) }
{
    if memory.acts() == u32::MAX || !memory.allows(&item) {
        drop(item);
        return Ok(());
    }
    memory.take(alloc, item)
}

// A copy of statements, none of which may be there.
fn copied(alloc: Global, stmts: Option<&List<Stmt>>) -> Result<List<Stmt>, NoMemory>
    ensures { IfOk result (λ copied. copied ≡ or_empty (option_copied stmts.entry)) }
{
    match stmts {
        Some(stmts) => stmts.copy(alloc),
        None => Ok(List::of(Vec::new(alloc))),
    }
}
