//! What a user of the library starts with: worlds, machines and traces. Each body stands, word for word, as the example of the call that
//! it shows; `tests/examples.py` compares them.
ghost use Rattle.std.specs.Prelude.{◌≡◌};
ghost use Rattle.bq_history.specs.Tables.{table_of};
ghost use Rattle.bq_shared.specs.Prepared.{ArePrepared};

use crate::failing::Fail;
use bq_bpf::Plain;
use bq_cfs::CfsQueue;
use bq_core::{Core, DynamicCore};
use bq_disc::{Node, RunQueue};
use bq_history::Naming;
use bq_machine::{Admission, Clock, Machine};
use bq_parts::{Event, Reply};
use bq_recording::{Prepared, prepare};
use bq_shared::{Counting, UnnamedCounters};
use bq_streams::Counted;
use bq_trace::{Session, replay};
use std::alloc::Global;
use std::marker::Brand;
use std::sync::Wait;

/// The example of `RunQueue`.
#[test]
fn a_task_is_chosen(rt: HostRuntime) -> Result<(), Fail> {
    let alloc = rt.alloc();
    let mut queue = CfsQueue::empty();
    queue.insert(Box::new(alloc, Node::new(7, 1024, 1, 3_000_000))?);
    let Some(7) = queue.choice(None) else {
        return Err(Fail::from("another task was chosen"));
    };
    Ok(())
}

/// The example of `Core::step`.
#[test]
fn an_event_is_done(rt: HostRuntime) -> Result<(), Fail> {
    let alloc = rt.alloc();
    let mut core = Core::<CfsQueue, 1>::new(alloc)?;
    let mut board = Plain::new();
    let admit = Event::Admit {
        task: 1,
        nice: 0,
        mask: 1,
        slice: 3_000_000,
    };
    let Ok(Reply::Admitted) = core.step(alloc, admit, &mut board) else {
        return Err(Fail::from("not admitted"));
    };
    Ok(())
}

/// The example of `DynamicCore::step`.
#[test]
fn an_event_is_done_by_a_core_of_one_processor(rt: HostRuntime) -> Result<(), Fail> {
    let alloc = rt.alloc();
    let mut core = DynamicCore::<CfsQueue>::new(alloc, 1)?;
    let mut board = Plain::new();
    let admit = Event::Admit {
        task: 1,
        nice: 0,
        mask: 1,
        slice: 3_000_000,
    };
    let Ok(Reply::Admitted) = core.step(alloc, admit, &mut board) else {
        return Err(Fail::from("not admitted"));
    };
    Ok(())
}

/// The example of `Core::run`.
#[test]
fn events_are_done(rt: HostRuntime) -> Result<(), Fail> {
    let alloc = rt.alloc();
    let mut core = Core::<CfsQueue, 1>::new(alloc)?;
    let mut board = Plain::new();
    let mut events = Vec::new(alloc);
    events.push(Event::Admit {
        task: 1,
        nice: 0,
        mask: 1,
        slice: 3_000_000,
    })?;
    events.push(Event::Retire { task: 1 })?;
    let answers = core.run(alloc, events, &mut board)?;
    let [Ok(Reply::Admitted), Ok(Reply::Retired)] = answers.as_slice() else {
        return Err(Fail::from("refused"));
    };
    Ok(())
}

/// The example of `DynamicCore::run`.
#[test]
fn events_are_done_by_a_core_of_one_processor(rt: HostRuntime) -> Result<(), Fail> {
    let alloc = rt.alloc();
    let mut core = DynamicCore::<CfsQueue>::new(alloc, 1)?;
    let mut board = Plain::new();
    let mut events = Vec::new(alloc);
    events.push(Event::Admit {
        task: 1,
        nice: 0,
        mask: 1,
        slice: 3_000_000,
    })?;
    events.push(Event::Retire { task: 1 })?;
    let answers = core.run(alloc, events, &mut board)?;
    let [Ok(Reply::Admitted), Ok(Reply::Retired)] = answers.as_slice() else {
        return Err(Fail::from("refused"));
    };
    Ok(())
}

/// A clock that stands still.
#[derive(Drop)]
struct Steady;

impl Clock for Steady {
    ghost gives = { λ _ reading. reading ≡ 5 };

    fn now(&self, _processor: u8) -> u64 {
        5
    }
}

/// The example of `Machine`: how long the history is, and whether the receipt of the tick stands in it.
fn life_of_a_machine<N: Naming + Counting, R: Wait>(
    rt: &R,
    alloc: Global,
    prepared: Prepared<CfsQueue>,
    unnamed: UnnamedCounters,
) -> Result<(u64, bool), Fail>
    requires name { table_of prepared ≡ N.table }
    requires counters { table_of unnamed ≡ N.counters }
    requires counts { ArePrepared 1 1 prepared unnamed }
{
    let (machine, mut seats) = Machine::<CfsQueue, Steady, N, 1>::new(
        alloc, Steady, prepared, unnamed, 1,
    )?;
    let Some(mut seat) = seats.pop() else {
        return Err(Fail::from("no seat"));
    };
    let admission = Admission {
        task: 1,
        nice: 0,
        mask: 1,
        slice: 3_000_000,
    };
    machine.admit(rt, alloc, &mut seat, admission)?;
    machine.wake(rt, alloc, &mut seat, 0, 1)?;
    machine.drain(rt, alloc, &mut seat, 0)?;
    let ticked = machine.tick(rt, alloc, &mut seat, 0)?;
    seats.push(seat)?;
    if !machine.owns(&seats) {
        return Err(Fail::from("a seat is missing"));
    }
    let closed = machine.close(seats);
    Ok((closed.len(), closed.confirms(&ticked)))
}

/// The example of `Machine` has five events, as a wake is two, and the receipt of its tick is confirmed.
#[test]
fn a_machine_is_opened_called_and_closed(rt: HostRuntime) -> Result<(), Fail> {
    let alloc = rt.alloc();
    let (prepared, unnamed) = prepare::<CfsQueue>(alloc, 1, 1)?;
    let (events, is_confirmed) = life_of_a_machine::<Brand, _>(&rt, alloc, prepared, unnamed)?;
    assert_eq!(rt; events, 5);
    assert_eq!(rt; is_confirmed, true);
    Ok(())
}

/// The example of `replay`.
#[test]
fn a_trace_is_answered(rt: HostRuntime) -> Result<(), Fail> {
    let alloc = rt.alloc();
    let mut input = Counted::new(b"machine cfs 1\nadmit 1 0 1 3000000\n".as_slice());
    let mut output = Counted::new(Vec::new(alloc));
    let is_clean = replay(alloc, &mut input, &mut output)?;
    let answers = output.into_inner();
    assert_eq!(rt; answers.as_slice(), b"admit ok\n".as_slice());
    assert_eq!(rt; is_clean, true);
    Ok(())
}

/// The example of `Session`.
#[test]
fn a_trace_is_answered_in_pieces(rt: HostRuntime) -> Result<(), Fail> {
    let alloc = rt.alloc();
    let mut answers = Counted::new(Vec::new(alloc));
    let session = Session::new(alloc);
    let session = session.feed(b"machine cfs 1\nadmit 1 0 1 ", &mut answers)?;
    let session = session.feed(b"3000000\n", &mut answers)?;
    let is_clean = session.finish(&mut answers)?;
    let answers = answers.into_inner();
    assert_eq!(rt; answers.as_slice(), b"admit ok\n".as_slice());
    assert_eq!(rt; is_clean, true);
    Ok(())
}
