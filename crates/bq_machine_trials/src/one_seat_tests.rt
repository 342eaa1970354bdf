//! The machine by one thread: what is answered on an opening machine, at which places, and how long the history is. The values
//! follow from the rules.
ghost use Rattle.std.specs.Prelude.{◌≡◌, ◌≤◌};
ghost use Rattle.bq_history.specs.Tables.{table_of};
ghost use Rattle.bq_shared.specs.Prepared.{ArePrepared};

use crate::admit;
use crate::asserting::{is_number, is_true};
use crate::images::ZERO;
use crate::requests::{Request, call};
use bq_cfs::CfsQueue;
use bq_disc::limits::PROCESSORS;
use bq_history::{Naming, Receipt};
use bq_hooks::{By, Hook};
use bq_load::LoadFault;
use bq_machine::{Admission, Clock, LoadRefused, Machine};
use bq_parts::{Refusal, Reply};
use bq_recording::{MachineSeat, Prepared, prepare};
use bq_shared::{Counting, Record, UnnamedCounters};
use std::alloc::Global;
use std::marker::Brand;
use std::process::Abort;
use std::sync::Wait;

/// A clock that stands still.
#[derive(Drop)]
struct Steady;

impl Clock for Steady {
    ghost gives = { λ _ reading. reading ≡ 5 };

    fn now(&self, _processor: u8) -> u64 {
        5
    }
}

/// A machine under CFS, by one thread.
type Single<N, const P: usize> = Machine<CfsQueue, Steady, N, P>;

/// What a receipt says.
#[derive(Clone, Copy)]
enum Answer {
    /// Nothing runs, and so nothing is blocked.
    Idle,
    /// There is nothing to pull, and nothing runs.
    NothingPulled,
    /// The task is admitted.
    Admitted,
    /// Task 1 is placed at processor 2 by the discipline.
    Placed,
}

/// A call, and how it has to be answered.
#[derive(Clone, Copy)]
enum Expected {
    /// The call is refused so, and does not come into the history.
    Refused(Request, Refusal),
    /// The last receipt of the call has this place and this answer.
    Answered(Request, u64, Answer),
    /// An image, or none, is loaded: the number is drawn at this place, and behind it is the install at each processor.
    Loaded {
        image: Option<&'static [u8]>,
        place: u64,
        number: u64,
    },
    /// An image that is cut short is refused for that.
    Cut,
}

/// The number of a machine's processors, the calls of it as it opens, and how many events its history then has.
type Row = (u64, &'static [Expected], u64);

static ROWS: [Row; 4] = [
    // nothing runs, and there is no processor 2
    (
        2,
        &[
            Expected::Answered(Request::Block { processor: 0 }, 0, Answer::Idle),
            Expected::Refused(Request::Tick { processor: 2 }, Refusal::NoProcessor),
        ],
        1,
    ),
    // there is no task
    (
        2,
        &[
            Expected::Refused(
                Request::Pull {
                    processor: 0,
                    from: 0,
                },
                Refusal::SameProcessor,
            ),
            Expected::Answered(
                Request::Pull {
                    processor: 1,
                    from: 0,
                },
                0,
                Answer::NothingPulled,
            ),
        ],
        1,
    ),
    // an image is loaded at two processors, and taken away
    (
        2,
        &[
            Expected::Loaded {
                image: Some(&ZERO),
                place: 0,
                number: 1,
            },
            Expected::Loaded {
                image: None,
                place: 3,
                number: 2,
            },
            Expected::Cut,
        ],
        6,
    ),
    // an image is loaded at three processors, and a task is woken that only the last of them may run
    (
        3,
        &[
            Expected::Loaded {
                image: Some(&ZERO),
                place: 0,
                number: 1,
            },
            Expected::Refused(Request::Tick { processor: 3 }, Refusal::NoProcessor),
            Expected::Refused(admit!(1, 8), Refusal::EmptyMask),
            Expected::Answered(admit!(1, 12), 4, Answer::Admitted),
            Expected::Answered(
                Request::Wake {
                    processor: 0,
                    task: 1,
                },
                6,
                Answer::Placed,
            ),
        ],
        7,
    ),
];

/// Returns whether the receipt has this place and this answer.
fn says(receipt: &Receipt<Record>, place: u64, answer: Answer) -> bool {
    let wanted = match answer {
        Answer::Idle => Err(Refusal::Idle),
        Answer::NothingPulled => Ok(Reply::Pulled {
            task: None,
            run: None,
            by: By::Discipline,
            steps: 0,
        }),
        Answer::Admitted => Ok(Reply::Admitted),
        Answer::Placed => Ok(Reply::Placed {
            task: 1,
            to: 2,
            by: By::Discipline,
            steps: 0,
        }),
    };
    receipt.place == place && receipt.entry.reply.unpack() == wanted
}

/// Returns whether the receipts of installs stand behind this place, one after another, and say that each was done.
fn are_installed(installs: &[Receipt<Record>], draw: u64) -> bool {
    let mut place = draw;
    for install in installs {
        place = place.wrapping_add(1);
        if install.place != place || !matches!(install.entry.reply.unpack(), Ok(Reply::Installed)) {
            return false;
        }
    }
    true
}

/// Returns whether the receipt has this place, and says that this number was drawn.
fn is_drawn(receipt: &Receipt<Record>, place: u64, number: u64) -> bool {
    let reply = receipt.entry.reply.unpack();
    receipt.place == place
        && matches!(reply, Ok(Reply::Drawn { generation }) if generation == number)
}

/// Returns whether the call is answered as it has to be.
fn is_answered<N: Naming + Counting, R: Wait, const P: usize>(
    rt: &R,
    alloc: Global,
    machine: &Single<N, P>,
    seat: &mut MachineSeat<N>,
    expected: Expected,
) -> bool {
    match expected {
        Expected::Refused(request, wanted) => {
            matches!(call(rt, alloc, machine, seat, request), Err(refusal) if refusal == wanted)
        }
        Expected::Answered(request, place, answer) => match call(
            rt, alloc, machine, seat, request,
        ) {
            Ok(receipts) => match &receipts.second {
                Some(second) => says(second, place, answer),
                None => says(&receipts.first, place, answer),
            },
            Err(_) => false,
        },
        Expected::Loaded {
            image,
            place,
            number,
        } => match machine.load_all(rt, alloc, seat, Hook::Preempt, image) {
            Ok(loaded) => {
                is_drawn(&loaded.draw, place, number)
                    && loaded.installs.len() == P
                    && are_installed(&loaded.installs, place)
            }
            Err(_) => false,
        },
        Expected::Cut => {
            let cut = machine.load_all(rt, alloc, seat, Hook::Preempt, Some(&ZERO[..27]));
            matches!(cut, Err(LoadRefused::Fault(LoadFault::Cut)))
        }
    }
}

/// Each call is answered as it has to be.
fn are_answered<N: Naming + Counting, R: Abort + Wait, const P: usize>(
    rt: &R,
    alloc: Global,
    machine: &Single<N, P>,
    seat: &mut MachineSeat<N>,
    all: &[Expected],
) {
    for expected in all {
        is_true(rt, is_answered(rt, alloc, machine, seat, *expected));
    }
}

/// On an opening machine all is answered as it has to be. Returns how many events its history then has.
fn events<N: Naming + Counting, R: Abort + Wait, const P: usize>(
    rt: &R,
    alloc: Global,
    prepared: Prepared<CfsQueue>,
    unnamed: UnnamedCounters,
    all: &[Expected],
) -> u64
    requires few { P ≤ PROCESSORS }
    requires name { table_of prepared ≡ N.table }
    requires counters { table_of unnamed ≡ N.counters }
    requires counts { ArePrepared P 1 prepared unnamed }
{
    let (machine, mut seats) = Single::<N, P>::new(alloc, Steady, prepared, unnamed, 1).expect(
        rt, "memory",
    );
    let mut seat = seats.pop().expect(rt, "a seat");
    are_answered(rt, alloc, &machine, &mut seat, all);
    seats.push(seat).expect(rt, "memory");
    assert!(rt; machine.owns(&seats));
    let closed = machine.close(seats);
    is_true(rt, closed.core.processors() == P);
    closed.len()
}

/// The same of two processors or three, a number that the type of the machine takes as a constant.
fn events_by<N: Naming + Counting, R: Abort + Wait>(
    rt: &R,
    alloc: Global,
    prepared: Prepared<CfsQueue>,
    unnamed: UnnamedCounters,
    processors: u64,
    all: &[Expected],
) -> u64
    requires name { table_of prepared ≡ N.table }
    requires counters { table_of unnamed ≡ N.counters }
    requires counts { ArePrepared processors 1 prepared unnamed }
{
    if processors == 2 {
        return events::<N, R, 2>(rt, alloc, prepared, unnamed, all);
    }
    if processors == 3 {
        return events::<N, R, 3>(rt, alloc, prepared, unnamed, all);
    }
    panic!(rt; "two processors or three")
}

/// Each call of a row is answered as it has to be, and the history is that long.
fn is_kept<R: Abort + Wait>(rt: &R, alloc: Global, row: &Row) {
    let (processors, all, wanted) = *row;
    let Ok((prepared, unnamed)) = prepare::<CfsQueue>(alloc, processors, 1) else {
        panic!(rt; "memory")
    };
    let events = events_by::<Brand, R>(rt, alloc, prepared, unnamed, processors, all);
    is_number(rt, events, wanted);
}

/// A seat on an opening machine has the answers that the rules say.
#[test]
fn one_seat_is_answered(rt: HostRuntime) {
    for row in &ROWS {
        is_kept(&rt, rt.alloc(), row);
    }
}
