//! What a resource answers.
use durable_records::ResourceRecord;
use local_txn::OpenTxn;
use seata_types::{Step, Ticket};

/// What a resource does with an input. The record that this asks for is on its disks before the step is given, and then its open
/// tickets change.
#[derive(Drop)]
pub struct Answer {
    pub step: Step,
    pub asked: Option<ResourceRecord>,
    pub change: Change,
}

/// What becomes of the open tickets. An answer that opens one asks for no record, and no other change takes memory, so that
/// nothing can fail once a record is on the disks.
#[derive(Drop)]
pub enum Change {
    Stays,
    /// One more is open, the next one.
    Opens(OpenTxn),
    /// An open one was now sent last.
    Sends(Ticket),
    /// An open one met one conflict more.
    Counts(Ticket),
    /// One isn't open any more.
    Closes(Ticket),
}
