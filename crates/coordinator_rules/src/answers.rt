//! What a coordinator answers.
use durable_records::SessionRecord;
use seata_types::{Step, Xid};

/// What a coordinator does with an input. The record that this asks for is on its disks before the step is given. Beside what a
/// record does to its moments, one transaction may be due again later, which asks for no record.
#[derive(Drop)]
pub struct Answer {
    pub step: Step,
    pub asked: Option<SessionRecord>,
    pub again: Option<Xid>,
}
