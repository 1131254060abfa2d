//! A manager whose call is busy for the last time, one input after the other, as its entries' lines.
ghost use Rattle.std.specs.Prelude.{◌≤◌, ◌^◌, length, All, IfOk};
ghost use Rattle.manager_core.specs.Within.{IsCallWithin};

use crate::errors::Fail;
use crate::steps::has_line;
use manager_core::Manager;
use node_steps::Node;
use seata_types::{
    Boxed, CallAnswer, Ending, GlobalStatus, Input, List, Message, NoMemory, Place, RowKey, Shared,
    Text, Ticket, Work, Xid,
};
use std::alloc::Global;

const XID: Xid = Xid(1);

/// What the manager is given: a turn, or an answer to what it sent; a call with this number is busy.
#[derive(Clone, Copy)]
enum Given {
    Turn,
    Begun,
    Busy(u16),
    RolledBack(GlobalStatus),
}

const ROWS: [(Given, &str); 7] = [
    (Given::Turn, "1 m1 0 turn | starts | begin m1 5 to tc"),
    (Given::Begun, "1 m1 0 turn | goes on | call tc:1 c1 to r1"),
    (Given::Busy(2), "1 m1 0 turn | ignored | -"),
    (Given::Busy(1), "1 m1 0 turn | busy 1 | -"),
    (
        Given::Busy(1),
        "1 m1 0 turn | gives up | rollback tc:1 to tc",
    ),
    (Given::Turn, "1 m1 0 turn | repeats | rollback tc:1 to tc"),
    (
        Given::RolledBack(GlobalStatus::Rollbacking),
        "1 m1 0 turn | closes 4 | -",
    ),
];

fn busy(alloc: Global) -> CallAnswer {
    CallAnswer::Busy {
        key: RowKey {
            resource: 1,
            table: Text::of(String::new(alloc)),
            pk: List::of(Vec::new(alloc)),
        },
        by: Ticket { boot: 1, seq: 1 },
    }
}

fn from_coordinator(alloc: Global, message: Message) -> Result<Input, NoMemory> {
    Ok(Input::Message {
        from: Place::Tc,
        message: Boxed::new(alloc, message)?,
    })
}

fn input(alloc: Global, given: Given) -> Result<Input, NoMemory> {
    match given {
        Given::Turn => Ok(Input::Turn),
        Given::Begun => from_coordinator(alloc, Message::Begun { xid: XID }),
        Given::Busy(call) => {
            let message = Message::Answer {
                xid: XID,
                call,
                answer: busy(alloc),
            };
            from_coordinator(alloc, message)
        }
        Given::RolledBack(status) => {
            from_coordinator(alloc, Message::RollbackStatus { xid: XID, status })
        }
    }
}

/// A call without statements at resource 1.
fn calls(alloc: Global) -> Result<List<(u16, Work)>, NoMemory>
    ensures few { IfOk result (λ calls. length calls ≤ 2) }
    ensures within { IfOk result (λ calls. All IsCallWithin calls) }
{
    let stmts = Shared::new(alloc, List::of(Vec::new(alloc)))?;
    let mut calls = Vec::new(alloc);
    calls.push((1, Work::At(stmts)))?;
    Ok(List::of(calls))
}

/// A manager with this call, which may be busy once and not twice, that commits and then asks for the status.
fn manager(alloc: Global) -> Result<Manager, NoMemory> {
    let calls = calls(alloc)?;
    Ok(Manager::new(1, 5, 2, calls, Ending::Commit, None, true))
}

/// Whether this is the line of its next step.
fn answers(
    alloc: Global,
    manager: &mut Manager,
    given: Given,
    wanted: &'static str,
) -> Result<(), Fail> {
    if manager.steps_left() == 0 {
        return Err(Fail::Other("no step is left"));
    }
    let input = input(alloc, given)?;
    let answer = manager.step(alloc, input, 0);
    has_line(alloc, Place::Man(1), answer, wanted)
}

/// Whether it has these lines, and is at its end behind the last one and not before.
fn answers_each(alloc: Global, manager: &mut Manager) -> Result<(), Fail> {
    for (given, wanted) in ROWS {
        if manager.at_end() {
            return Err(Fail::Other("at the end too early"));
        }
        answers(alloc, manager, given, wanted)?;
    }
    if !manager.at_end() {
        return Err(Fail::Other("not at the end"));
    }
    Ok(())
}

fn gives_up(alloc: Global) -> Result<(), Fail> {
    let mut manager = manager(alloc)?;
    let answer = answers_each(alloc, &mut manager);
    drop(manager);
    answer
}

#[test]
fn gives_up_a_call_that_is_busy(rt: HostRuntime) -> Result<(), Fail> {
    gives_up(rt.alloc())
}
