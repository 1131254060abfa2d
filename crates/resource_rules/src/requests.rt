//! What an open ticket asks the coordinator.
ghost use Rattle.std.specs.Prelude.{◌≡◌, [], IfOk};
ghost use Rattle.durable_records.specs.Locks.{has_key};
ghost use Rattle.durable_records.specs.ResourceOrder.{image_keys, only_read};
ghost use Rattle.local_txn.specs.Answers.{open_of};
ghost use Rattle.history_rules.specs.ResourceRules.{request_of};

use crate::asked::rows_asked;
use crate::telling::is_nobody;
use local_txn::OpenTxn;
use seata_types::{BranchKind, Duplicate, Image, List, Message, NoMemory, ReadRow, RowKey, Work};
use std::alloc::Global;

/// What a ticket of a resource asks: a call to register its branch, holding the rows that it touched and checking those that it
/// only read, or without rows where its Try is still to run; a guarded local transaction whether its rows are held.
pub(crate) fn request(alloc: Global, number: u16, txn: &OpenTxn) -> Result<Message, NoMemory>
    ensures { IfOk result (λ message. message ≡ request_of number (open_of txn.now) (open_of txn.now).owner) }
{
    if is_nobody(txn.xid) {
        let check = rows_asked(alloc, txn)?;
        return Ok(Message::LockQuery {
            resource: number,
            ticket: txn.ticket,
            check,
        });
    }
    match &txn.work {
        Work::At(_) => at_register(alloc, number, txn),
        Work::Tcc(_) => Ok(tcc_register(alloc, number, txn)),
    }
}

// The registration of an AT branch.
fn at_register(alloc: Global, number: u16, txn: &OpenTxn) -> Result<Message, NoMemory>
    ensures { IfOk result (λ message. message ≡ Message.Register txn.now.xid number txn.now.call txn.now.ticket BranchKind.At
        (image_keys txn.now.images) (only_read txn.now.images txn.now.reads)) }
{
    let images = txn.images.as_slice();
    let hold = touched(alloc, images)?;
    let check = only_read(alloc, images, txn.reads.as_slice())?;
    Ok(Message::Register {
        xid: txn.xid,
        resource: number,
        call: txn.call,
        ticket: txn.ticket,
        kind: BranchKind::At,
        hold,
        check,
    })
}

// The registration of a TCC branch, which has no rows; takes no memory.
fn tcc_register(alloc: Global, number: u16, txn: &OpenTxn) -> Message
    ensures { result ≡ Message.Register txn.now.xid number txn.now.call txn.now.ticket BranchKind.Tcc [] [] }
{
    Message::Register {
        xid: txn.xid,
        resource: number,
        call: txn.call,
        ticket: txn.ticket,
        kind: BranchKind::Tcc,
        hold: List::of(Vec::new(alloc)),
        check: List::of(Vec::new(alloc)),
    }
}

// The keys of the rows that were touched.
fn touched(alloc: Global, images: &[Image]) -> Result<List<RowKey>, NoMemory>
    ensures { IfOk result (λ keys. keys ≡ image_keys images.now) }
{
    let mut keys = Vec::new(alloc);
    for image in images {
        keys.push(image.key.copy(alloc)?)?;
    }
    Ok(List::of(keys))
}

// Whether a row was touched.
fn is_touched(images: &[Image], key: &RowKey) -> bool
    ensures { result ≡ has_key (image_keys images.now) key.now }
{
    for image in images {
        if image.key.cmp(key).is_eq() {
            return true;
        }
    }
    false
}

// The keys of the rows that were read and not touched.
fn only_read(alloc: Global, images: &[Image], reads: &[ReadRow]) -> Result<List<RowKey>, NoMemory>
    ensures { IfOk result (λ keys. keys ≡ only_read images.now reads.now) }
{
    let mut keys = Vec::new(alloc);
    for read in reads {
        if !is_touched(images, &read.key) {
            keys.push(read.key.copy(alloc)?)?;
        }
    }
    Ok(List::of(keys))
}
