//! Two machines step by step: a counter on a period, and a relay of a signal with room for one message.
ghost use Rattle.std.specs.Prelude.{◌≡◌, IfOk};
ghost use Rattle.task_code.specs.WorkedListing.{counter};
ghost use Rattle.task_machine.specs.Worked.{relay};

use crate::{Any, Came, Fixed, Machine, Standing, Went};
use sqlite_items::Items;
use std::alloc::{AllocError, Global};
use std::process::Abort;
use std::test::Fail;
use task_code::{Instr, Program, Task, fits};
use tower_syntax::{Entry, Events, Mark, SourceKind};
use tower_types::{BinOp, Scalar, Value};

/// A task that adds 1 to the word of a monitor for each message.
fn counter(alloc: Global) -> Result<Program, AllocError>
    ensures { IfOk result (λ p. p ≡ counter) }
{
    let code = [
        Instr::Take(0),
        Instr::Lock(0),
        Instr::Push(0),
        Instr::Push(0),
        Instr::Ldm(0, 0, 1),
        Instr::Push(1),
        Instr::Bin(BinOp::Add, Scalar::U32),
        Instr::Stm(0, 0, 1),
        Instr::Unlock(0),
        Instr::Jmp(0),
    ];
    let mut tasks = Items::new(alloc);
    tasks.push(Task {
        priority: 5,
        message: 1,
        room: 1,
        buffers: Items::new(alloc),
        code: Items::from_slice(alloc, &code)?,
    })?;
    let monitors = Items::from_slice(alloc, &[1])?;
    Ok(Program::new(monitors, Items::new(alloc), tasks))
}

/// A task that gives an output each message.
fn relay(alloc: Global) -> Result<Program, AllocError>
    ensures { IfOk result (λ p. p ≡ relay) }
{
    let code = [Instr::Take(0), Instr::Out(0, 0), Instr::Jmp(0)];
    let mut tasks = Items::new(alloc);
    tasks.push(Task {
        priority: 1,
        message: 1,
        room: 1,
        buffers: Items::new(alloc),
        code: Items::from_slice(alloc, &code)?,
    })?;
    let outputs = Items::from_slice(alloc, &[1])?;
    Ok(Program::new(Items::new(alloc), outputs, tasks))
}

/// A counter on a period of 10 ms, with so many ticks.
fn counting(rt: &impl Abort, alloc: Global, ticks: usize) -> Result<Machine, Fail>
    ensures { IfOk result (λ m. m.program ≡ counter) }
{
    let mut entries = Items::new(alloc);
    for _ in 0..ticks {
        entries.push(Entry::Tick)?;
    }
    let events = Events {
        kinds: Items::from_slice(alloc, &[SourceKind::Period(10)])?,
        depths: Items::from_slice(alloc, &[None])?,
        entries,
    };
    let program = counter(alloc)?;
    assert!(rt; fits(&program, &events));
    Ok(Machine::new(alloc, program, events)?)
}

/// A relay with room for one message, and the signals 7 and 8.
fn relaying(rt: &impl Abort, alloc: Global) -> Result<Machine, Fail>
    ensures { IfOk result (λ m. m.program ≡ relay) }
{
    let mut entries = Items::new(alloc);
    entries.push(Entry::Signal(0, Value::Word(7)))?;
    entries.push(Entry::Signal(0, Value::Word(8)))?;
    let events = Events {
        kinds: Items::from_slice(alloc, &[SourceKind::Signal])?,
        depths: Items::from_slice(alloc, &[Some(1)])?,
        entries,
    };
    let program = relay(alloc)?;
    assert!(rt; fits(&program, &events));
    Ok(Machine::new(alloc, program, events)?)
}

/// Ten entries come.
fn ten_come(rt: &impl Abort, machine: &mut Machine)
    ensures { machine.new.program ≡ machine.old.program }
{
    for _ in 0..10 {
        assert!(rt; machine.event() == Came::Arrived);
    }
}

/// The calls of `go` that lead from the first message to the end of its section: the mark, and whether the monitor is
/// locked after it.
const CALLS: [(Option<Mark>, bool); 10] = [
    (Some(Mark::Start(0)), false),
    (None, true),
    (None, true),
    (None, true),
    (None, true),
    (None, true),
    (None, true),
    (None, true),
    (Some(Mark::Run(0)), false),
    (None, false),
];

#[test]
fn counts_a_message(rt: HostRuntime) -> Result<(), Fail> {
    let alloc = rt.alloc();
    let mut machine = counting(&rt, alloc, 25)?;
    let policy = Fixed::new(Vec::from_slice(alloc, &[5])?);
    ten_come(&rt, &mut machine);
    for (mark, locked) in CALLS {
        assert!(rt; machine.go(&policy, 0) == Went::Stepped(mark));
        assert!(rt; machine.monitor(0).is_none() == locked);
    }
    assert!(rt; machine.go(&policy, 0) == Went::NoneReady);
    assert!(rt; machine.monitor(0) == Some([1].as_slice()));
    Ok(())
}

#[test]
fn stands_and_holds(rt: HostRuntime) -> Result<(), Fail> {
    let alloc = rt.alloc();
    let mut machine = counting(&rt, alloc, 10)?;
    let policy = Any::new(1);
    assert!(rt; machine.standing(0) == Standing::Idle);
    ten_come(&rt, &mut machine);
    assert!(rt; machine.last().is_none());
    assert!(rt; machine.standing(0) == Standing::Ready);
    assert!(rt; machine.ready() == [true].as_slice());
    let _ = machine.go(&policy, 7);
    let _ = machine.go(&policy, 8);
    assert!(rt; machine.holds() == [Some(0)].as_slice());
    assert!(rt; machine.waiters(0) == [0].as_slice());
    assert!(rt; machine.last() == Some((0, true)));
    Ok(())
}

#[test]
fn drops_what_finds_the_queue_full(rt: HostRuntime) -> Result<(), Fail> {
    let alloc = rt.alloc();
    let mut machine = relaying(&rt, alloc)?;
    let policy = Any::new(1);
    assert!(rt; machine.event() == Came::Arrived);
    assert!(rt; machine.lost(0) == 0);
    assert!(rt; machine.event() == Came::Arrived);
    assert!(rt; machine.lost(0) == 1);
    assert!(rt; machine.event() == Came::NoMore);
    assert!(rt; machine.go(&policy, 3) == Went::Stepped(Some(Mark::Start(0))));
    assert!(rt; machine.go(&policy, 4) == Went::Stepped(Some(Mark::Out(0))));
    assert!(rt; machine.wrote() == Some((0, [7].as_slice())));
    assert!(rt; !machine.finished());
    assert!(rt; machine.go(&policy, 5) == Went::Stepped(None));
    assert!(rt; machine.wrote().is_none());
    assert!(rt; machine.finished());
    Ok(())
}
