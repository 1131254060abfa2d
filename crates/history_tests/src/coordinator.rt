//! The bytes that a begin leaves on the coordinator's disk, and what a coordinator answers that is opened on them.
ghost use Rattle.std.specs.Prelude.{IfOk};
ghost use Rattle.disk_model.specs.Disk.{IsSettled};
ghost use Rattle.disk_model.specs.Memory.{memory_state};
ghost use Rattle.coordinator_core.specs.Serving.{ServesInput};
ghost use Rattle.history_tests.specs.Served.{Serves};

use crate::counted::counts;
use crate::errors::Fail;
use crate::served;
use crate::steps::steps;
use coordinator_core::Coordinator;
use disk_model::{Disk, MemDisk, Stoppable};
use node_steps::Node;
use seata_types::Input;
use std::alloc::Global;
use std::marker::Brand;
use std::sync::ledger::Blank;

/// Behind the switch and the head of no snapshot, from offset 9 on, the record that manager 1 began transaction 1 at moment 0
/// with a timeout of 60000 ticks; behind it no other one begins.
const BEGUN: [u8; 42] = [
    0, 0, 0, 0, 0, 0, 0, 0, 0, 1, 0, 0, 0, 27, 1, 0, 0, 0, 0, 0, 0, 0, 1, 0, 1, 0, 0, 0, 0, 0, 0,
    0, 0, 0, 0, 0, 0, 0, 0, 234, 96, 0,
];

/// What the coordinator is given, of the transaction of this number and its manager; `Register` has its number as the ticket
/// too, and `Second` registers the second call, with ticket 3.
#[derive(Clone, Copy)]
enum Given {
    Begin(u16, u64),
    RollBack(u16),
    Register(u16),
    Second(u16),
}

/// When, in ticks, what, and the line that is wanted.
type Row = (u32, Given, &'static str);

/// Behind that begin: the same again, a registration once more, and registrations for a transaction that rolls back or is out
/// of time.
const ROWS: [Row; 9] = [
    (
        0,
        Given::Begin(1, 60000),
        "1 tc 0 turn | known tc:1 | begun tc:1 to m1",
    ),
    (
        0,
        Given::Register(1),
        "1 tc 0 turn | granted tc:1 b1 | granted t1.1 tc:1 b1 to r1",
    ),
    (
        0,
        Given::Register(1),
        "1 tc 0 turn | regranted tc:1 b1 | granted t1.1 tc:1 b1 to r1",
    ),
    (
        0,
        Given::RollBack(1),
        "1 tc 0 turn | decided tc:1 rollback | rollback-status tc:1 4 to m1",
    ),
    (
        0,
        Given::Second(1),
        "1 tc 0 turn | closed tc:1 4 | closed t1.3 tc:1 4 to r1",
    ),
    (
        0,
        Given::Register(1),
        "1 tc 0 turn | regranted tc:1 b1 | granted t1.1 tc:1 b1 to r1",
    ),
    (
        5000,
        Given::Begin(2, 10),
        "1 tc 0 turn | begun tc:2 | begun tc:2 to m2",
    ),
    (
        5011,
        Given::Register(2),
        "1 tc 0 turn | late tc:2 | late t1.2 tc:2 to r1",
    ),
    (
        5011,
        Given::Register(2),
        "1 tc 0 turn | closed tc:2 6 | closed t1.2 tc:2 6 to r1",
    ),
];

fn input(alloc: Global, given: Given) -> Result<Input, Fail>
    ensures { IfOk result (ServesInput 2 1) }
{
    match given {
        Given::Begin(manager, timeout) => served::begin(alloc, manager, timeout),
        Given::RollBack(number) => served::roll_back(alloc, number),
        Given::Register(number) => served::register(alloc, number, 1, number),
        Given::Second(number) => served::register(alloc, number, 2, 3),
    }
}

/// Whether this is the line of its next step.
fn answers(
    alloc: Global,
    tc: &mut Coordinator<MemDisk>,
    given: Given,
    now: u32,
    wanted: &'static str,
) -> Result<(), Fail>
    requires { Serves tc.old }
    ensures { Serves tc.new }
{
    match input(alloc, given) {
        Ok(input) => steps(alloc, tc, input, now, wanted),
        Err(fail) => Err(fail),
    }
}

/// Whether a disk begins with the bytes of the begin.
fn has_begun(disk: &mut Stoppable<MemDisk>) -> Result<(), Fail> {
    let mut found = [1; 42];
    if disk.size() < 42 || disk.read_at(0, &mut found).is_err() || found != BEGUN {
        return Err(Fail::Other("the bytes of a begin"));
    }
    Ok(())
}

/// Whether the disk that a coordinator lends begins with them.
fn keeps_begun(tc: &mut Coordinator<MemDisk>) -> Result<(), Fail>
    requires { Serves tc.old }
    ensures { Serves tc.new }
{
    has_begun(tc.disk_mut())
}

/// Whether a begin on blank disks leaves them, and a branch is granted then.
fn begins(alloc: Global, tc: &mut Coordinator<MemDisk>) -> Result<(), Fail>
    requires { Serves tc.old }
{
    let wanted = "1 tc 0 turn | begun tc:1 | begun tc:1 to m1";
    answers(alloc, tc, Given::Begin(1, 60000), 0, wanted)?;
    keeps_begun(tc)?;
    counts::<Brand, Brand>(alloc, tc, Blank::new(1), Blank::new(1))
}

fn leaves_begun(alloc: Global) -> Result<(), Fail> {
    let mut tc = served::open(alloc)?;
    let left = begins(alloc, &mut tc);
    drop(tc);
    left
}

#[test]
fn a_begin_leaves_its_bytes(rt: HostRuntime) -> Result<(), Fail> {
    leaves_begun(rt.alloc())
}

/// Writes bytes to the front of a disk, where they fit.
fn begin_with(disk: &mut MemDisk, bytes: &[u8]) -> bool {
    bytes.len() as u64 <= disk.size() && disk.write_at(0, bytes).is_ok() && disk.sync().is_ok()
}

/// A disk of 4,096 bytes that begins with these and comes back from a crash.
fn disk(alloc: Global, bytes: &[u8]) -> Result<MemDisk, Fail>
    ensures { IfOk result (λ disk. IsSettled (memory_state disk)) }
{
    let Ok(mut disk) = MemDisk::new(alloc, 4096) else {
        return Err(Fail::NoMemory);
    };
    if !begin_with(&mut disk, bytes) || disk.restart(0).is_err() {
        return Err(Fail::Other("no disk"));
    }
    Ok(disk)
}

/// The coordinator on two disks of which the first begins with the bytes of the begin.
fn open_begun(alloc: Global) -> Result<Coordinator<MemDisk>, Fail>
    ensures { IfOk result Serves }
{
    let first = disk(alloc, &BEGUN)?;
    let second = disk(alloc, &[])?;
    served::open_on(alloc, first, second)
}

/// Whether the first record stood at its place.
fn has_found(tc: &Coordinator<MemDisk>) -> Result<(), Fail> {
    match tc.found() {
        Some((false, 9)) => Ok(()),
        _ => Err(Fail::Other("the place of the record")),
    }
}

/// Whether two transactions are neither finished nor failed, and five records are known.
fn has_gone_on(tc: &Coordinator<MemDisk>) -> Result<(), Fail> {
    if tc.is_down() || tc.unended() != 2 || tc.sessions().records() != 5 {
        return Err(Fail::Other("what is known at the end"));
    }
    Ok(())
}

fn answers_each(alloc: Global, tc: &mut Coordinator<MemDisk>) -> Result<(), Fail>
    requires { Serves tc.old }
{
    for (now, given, wanted) in ROWS {
        answers(alloc, tc, given, now, wanted)?;
    }
    Ok(())
}

/// Whether a coordinator found the record at its place, and has these lines.
fn goes_on(alloc: Global, tc: &mut Coordinator<MemDisk>) -> Result<(), Fail>
    requires { Serves tc.old }
{
    has_found(tc)?;
    answers_each(alloc, tc)?;
    has_gone_on(tc)
}

fn knows_begun(alloc: Global) -> Result<(), Fail> {
    let mut tc = open_begun(alloc)?;
    let known = goes_on(alloc, &mut tc);
    drop(tc);
    known
}

#[test]
fn registers_behind_kept_bytes(rt: HostRuntime) -> Result<(), Fail> {
    knows_begun(rt.alloc())
}
