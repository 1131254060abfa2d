//! The open tickets of a resource.
use crate::kept::OpenWork;
use seata_types::{NoMemory, Ticket};
use std::alloc::Global;
use std::collections::BTreeMap;
use std::marker::Model;

/// What is kept of each open ticket of a resource. Contracts see the tickets in order of boot and count.
#[derive(Drop)]
pub(crate) struct OpenWorks {
    works: BTreeMap<Ticket, OpenWork>,
}

impl Model for OpenWorks {
    ghost use Rattle.std.specs.Coded.{codes};
    ghost use Rattle.seata_types.specs.contracts.statements.Stmt as stmt_type;
    ghost use Rattle.report_text.specs.Opens.{Works, HaveFew};

    ghost Value = { Works };

    ghost coded = { Prim.hlevel (codes, stmt_type.the_row.coded) };

    ghost view = { λ w. w.works.entries };

    ghost invariant = { λ w. HaveFew w.works.entries };
}

impl OpenWorks {
    ghost use Rattle.std.specs.Prelude.{◌≡◌, [], IfSome, OnOk};
    ghost use Rattle.report_text.specs.Opens.{HasFew, work_at, with_work, without_work};

    /// No ticket is open; takes no memory.
    pub(crate) fn new(alloc: Global) -> OpenWorks
        ensures { result ≡ [] }
    {
        OpenWorks {
            works: BTreeMap::new(alloc),
        }
    }

    /// A ticket is opened.
    pub(crate) fn open(&mut self, ticket: Ticket, work: OpenWork) -> Result<(), NoMemory>
        requires { HasFew work }
        ensures { OnOk result (self.new ≡ with_work self.old ticket work) }
    {
        match self.works.insert(ticket, work) {
            Ok(_) => Ok(()),
            Err(_) => Err(NoMemory),
        }
    }

    /// A ticket is open no more; none where it wasn't. Takes no memory.
    pub(crate) fn take(&mut self, ticket: Ticket) -> Option<OpenWork>
        ensures taken { result ≡ work_at self.old ticket }
        ensures left { self.new ≡ without_work self.old ticket }
        ensures few { IfSome result HasFew }
    {
        self.works.remove(&ticket)
    }
}
