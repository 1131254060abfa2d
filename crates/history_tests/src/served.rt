//! A coordinator of a scenario with two managers and one resource, and what it is given: each number is that of a transaction
//! and of its manager.
ghost use Rattle.std.specs.Prelude.{◌≡◌, ◌≤◌, [], IfOk};
ghost use Rattle.disk_model.specs.Disk.{IsSettled};
ghost use Rattle.disk_model.specs.Memory.{memory_state};
ghost use Rattle.seata_types.specs.declared.limits.TheConstants.{TICKS};
ghost use Rattle.coordinator_core.specs.Serving.{ServesInput};
ghost use Rattle.byte_fields.specs.Layout.{FitsTicket};
ghost use Rattle.byte_fields.specs.Parts.{FitsXid};
ghost use Rattle.seata_types.specs.declared.ids.Place.TheVariants as place;
ghost use Rattle.seata_types.specs.declared.messages.Input.TheVariants as input;
ghost use Rattle.history_tests.specs.Served.{Serves};

use crate::errors::Fail;
use coordinator_core::Coordinator;
use disk_model::{MemDisk, MemShelf, Shelf};
use seata_types::limits::TICKS;
use seata_types::{Boxed, BranchKind, Input, List, Message, Place, RowKey, Ticket, Xid};
use std::alloc::Global;

/// The coordinator on two disks, which asks again after 1000 ticks and forgets nothing.
pub fn open_on(alloc: Global, first: MemDisk, second: MemDisk) -> Result<Coordinator<MemDisk>, Fail>
    requires first { IsSettled (memory_state first) }
    requires second { IsSettled (memory_state second) }
    ensures { IfOk result Serves }
{
    match Coordinator::open(alloc, first, second, 1000, 0, 2, 1) {
        Ok(tc) => Ok(tc),
        Err(_) => Err(Fail::Other("not open")),
    }
}

/// The coordinator on blank disks.
pub fn open(alloc: Global) -> Result<Coordinator<MemDisk>, Fail>
    ensures { IfOk result Serves }
{
    let mut shelf = MemShelf::new(alloc);
    let (Ok(first), Ok(second)) = (
        shelf.take(alloc, "tc", 4096),
        shelf.take(alloc, "tc.2", 4096),
    ) else {
        return Err(Fail::NoMemory);
    };
    open_on(alloc, first, second)
}

fn from_manager(alloc: Global, number: u16, message: Message) -> Result<Input, Fail>
    ensures { IfOk result (λ given. given ≡ input.Message (place.Man number) message) }
{
    Ok(Input::Message {
        from: Place::Man(number),
        message: Boxed::new(alloc, message)?,
    })
}

fn from_resource(alloc: Global, message: Message) -> Result<Input, Fail>
    ensures { IfOk result (λ given. given ≡ input.Message (place.Res 1) message) }
{
    Ok(Input::Message {
        from: Place::Res(1),
        message: Boxed::new(alloc, message)?,
    })
}

fn xid_of(number: u16) -> Xid
    ensures { FitsXid result }
{
    Xid(u64::from(number))
}

fn ticket_of(number: u16) -> Ticket
    ensures { FitsTicket result }
{
    Ticket {
        boot: 1,
        seq: u32::from(number),
    }
}

pub fn begin(alloc: Global, manager: u16, timeout: u64) -> Result<Input, Fail>
    ensures { IfOk result (ServesInput 2 1) }
{
    if manager < 1 || manager > 2 || timeout < 1 || timeout > TICKS {
        return Err(Fail::Other("no such manager"));
    }
    begun(alloc, manager, timeout)
}

fn begun(alloc: Global, manager: u16, timeout: u64) -> Result<Input, Fail>
    requires manager { (1 ≤ manager) × (manager ≤ 2) }
    requires timeout { (1 ≤ timeout) × (timeout ≤ TICKS) }
    ensures { IfOk result (ServesInput 2 1) }
{
    from_manager(alloc, manager, Message::Begin { manager, timeout })
}

pub fn roll_back(alloc: Global, number: u16) -> Result<Input, Fail>
    ensures { IfOk result (ServesInput 2 1) }
{
    let xid = xid_of(number);
    from_manager(alloc, number, Message::GlobalRollback { xid })
}

fn no_rows(alloc: Global) -> List<RowKey>
    ensures { result ≡ [] }
{
    List::of(Vec::new(alloc))
}

/// A registration of this call by this ticket, without rows.
pub fn register(alloc: Global, number: u16, call: u16, ticket: u16) -> Result<Input, Fail>
    requires { (1 ≤ call) × (call ≤ 2) }
    ensures { IfOk result (ServesInput 2 1) }
{
    let xid = xid_of(number);
    let ticket = ticket_of(ticket);
    let hold = no_rows(alloc);
    let check = no_rows(alloc);
    let message = Message::Register {
        xid,
        resource: 1,
        call,
        ticket,
        kind: BranchKind::At,
        hold,
        check,
    };
    from_resource(alloc, message)
}
