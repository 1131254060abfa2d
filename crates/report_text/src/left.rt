//! What the entries of a history leave.
use crate::numbers::Numbers;
use crate::open_works::OpenWorks;
use crate::sent::SentIndex;
use durable_records::{ResourceRecord, SessionRecord};
use resource_memory::Memory as ResourceMemory;
use session_memory::Memory as SessionMemory;
use std::marker::Model;

/// What the coordinator's entries leave: what its records say, the record in flight while it is down, and the manager of
/// each transaction and the call of each branch, but of those that were forgotten before the history. They are asked for also
/// once a transaction is forgotten.
#[derive(Drop)]
pub(crate) struct CoordinatorLeft {
    pub memory: SessionMemory,
    pub flight: Option<SessionRecord>,
    pub managers: Numbers,
    pub calls: Numbers,
}

impl Model for CoordinatorLeft {
    ghost use Rattle.report_text.specs.Keeping.{CoordinatorKept};

    ghost Value = { CoordinatorKept };

    ghost view = { λ c. record { known = c.memory; flight = c.flight; managers = c.managers; calls = c.calls } };
}

/// What a resource's entries leave: what its records say, the record in flight while it is down, and the open tickets.
#[derive(Drop)]
pub(crate) struct ResourceLeft {
    pub memory: ResourceMemory,
    pub flight: Option<ResourceRecord>,
    pub works: OpenWorks,
}

impl Model for ResourceLeft {
    ghost use Rattle.std.specs.Coded.{codes};
    ghost use Rattle.seata_types.specs.contracts.statements.Stmt as stmt_type;
    ghost use Rattle.report_text.specs.Keeping.{ResourceKept};

    ghost Value = { ResourceKept };

    ghost coded = { Prim.hlevel (codes, stmt_type.the_row.coded) };

    ghost view = { λ r. record { known = r.memory; flight = r.flight; works = r.works } };
}

/// What the entries of all nodes leave, where those stand that sent a message, and the lines of the rows that local commits
/// read. Resources are counted from 1.
#[derive(Drop)]
pub(crate) struct Folded {
    pub coordinator: CoordinatorLeft,
    pub resources: Vec<ResourceLeft>,
    pub sent: SentIndex,
    pub reads: String,
}

impl Model for Folded {
    ghost use Rattle.std.specs.Prelude.{string_bytes};
    ghost use Rattle.std.specs.Coded.{codes};
    ghost use Rattle.seata_types.specs.contracts.statements.Stmt as stmt_type;
    ghost use Rattle.report_text.specs.Folds.{FoldedKept};

    ghost Value = { FoldedKept };

    ghost coded = { Prim.hlevel (codes, stmt_type.the_row.coded) };

    ghost view = { λ f. record { coordinator = f.coordinator; resources = f.resources.items; sent = f.sent; reads = string_bytes f.reads } };
}
