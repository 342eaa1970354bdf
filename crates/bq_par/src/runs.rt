//! The runs, by number of processors.
ghost use Rattle.std.specs.Prelude.{◌≡◌, ◌<◌, ◌≤◌, [], IfOk, vec_len};
ghost use Rattle.std.specs.List.{All};
ghost use Rattle.bq_words.specs.Sizes.{processors_in};
ghost use Rattle.bq_history.specs.Callers.{number_of, receipts_of};
ghost use Rattle.bq_history.specs.Tables.{table_of};
ghost use Rattle.bq_shared.specs.Prepared.{ArePrepared};
ghost use Rattle.bq_par.specs.Shifts.{DidShift};
ghost use Rattle.bq_par.specs.Summaries.{IsHistorySummary};

use crate::metronome::Metronome;
use crate::shift::{ReturnedSeat, drive};
use crate::summary::{HistorySummary, finish};
use bq_disc::RunQueue;
use bq_disc::limits::PROCESSORS;
use bq_history::Naming;
use bq_machine::Machine;
use bq_parts::Refusal;
use bq_recording::{MachineSeat, Prepared, prepare};
use bq_shared::{Counting, UnnamedCounters};
use bq_words::ProcessorCount;
use std::alloc::{AllocError, Global};
use std::marker::Brand;
use std::sync::Wait;
use std::thread::{Threads, map_vec};

/// Runs this many processors under the rule of a kind of queue, each in a thread of its own (or in turn, if no thread can be
/// made). The task of each processor has the processor's number as its id. It is admitted, woken and drained there, and then
/// the processor ticks as often as asked for. Returns how long the one history is, how many of its events are ticks, and how
/// many receipts are confirmed by it, which is all of them. The only error is that memory runs out.
pub fn run<Q: RunQueue + Drop + Send, T: Threads + Wait + Sync>(
    rt: &T,
    alloc: Global,
    size: ProcessorCount,
    ticks: u32,
) -> Result<HistorySummary, AllocError>
where
    Q::R: Send,
    ensures { IfOk result (IsHistorySummary Q.R.discipline (processors_in size) ticks) }
{
    let processors = u64::from(size.processors());
    let (prepared, unnamed) = prepare::<Q>(alloc, processors, processors)?;
    run_sized::<Q, Brand, T>(rt, alloc, prepared, unnamed, size, ticks)
}

/// Runs the machine that `N` names. The types below take the number of processors as a constant.
fn run_sized<
    Q: RunQueue + Drop + Send,
    N: Naming + Counting + Send + Sync,
    T: Threads + Wait + Sync,
>(
    rt: &T,
    alloc: Global,
    prepared: Prepared<Q>,
    unnamed: UnnamedCounters,
    size: ProcessorCount,
    ticks: u32,
) -> Result<HistorySummary, AllocError>
where
    Q::R: Send,
    requires name { table_of prepared ≡ N.table }
    requires counters { table_of unnamed ≡ N.counters }
    requires counts { ArePrepared (processors_in size) (processors_in size) prepared unnamed }
    ensures { IfOk result (IsHistorySummary Q.R.discipline (processors_in size) ticks) }
{
    match size {
        ProcessorCount::One => run_machine::<Q, N, T, 1>(rt, alloc, prepared, unnamed, ticks),
        ProcessorCount::Two => run_machine::<Q, N, T, 2>(rt, alloc, prepared, unnamed, ticks),
        ProcessorCount::Four => run_machine::<Q, N, T, 4>(rt, alloc, prepared, unnamed, ticks),
        ProcessorCount::Eight => run_machine::<Q, N, T, 8>(rt, alloc, prepared, unnamed, ticks),
        ProcessorCount::Sixteen => run_machine::<Q, N, T, 16>(rt, alloc, prepared, unnamed, ticks),
        ProcessorCount::ThirtyTwo => run_machine::<Q, N, T, 32>(
            rt, alloc, prepared, unnamed, ticks,
        ),
        ProcessorCount::SixtyFour => run_machine::<Q, N, T, 64>(
            rt, alloc, prepared, unnamed, ticks,
        ),
    }
}

/// Opens the machine, lets a thread drive the processor of each seat, and ends the machine.
fn run_machine<
    Q: RunQueue + Drop + Send,
    N: Naming + Counting + Send + Sync,
    T: Threads + Wait + Sync,
    const P: usize,
>(
    rt: &T,
    alloc: Global,
    prepared: Prepared<Q>,
    unnamed: UnnamedCounters,
    ticks: u32,
) -> Result<HistorySummary, AllocError>
where
    Q::R: Send,
    requires few { P ≤ PROCESSORS }
    requires name { table_of prepared ≡ N.table }
    requires counters { table_of unnamed ≡ N.counters }
    requires counts { ArePrepared P P prepared unnamed }
    ensures { IfOk result (IsHistorySummary Q.R.discipline P ticks) }
{
    let clock = Metronome::new(alloc, P as u8)?;
    let (machine, seats) = Machine::<Q, Metronome, N, P>::new(
        alloc, clock, prepared, unnamed, P as u64,
    )?;
    let done = drive_all(rt, alloc, &machine, seats, ticks)?;
    finish(alloc, machine, done, ticks)
}

/// Drives the processor of each seat in a thread of its own.
fn drive_all<
    Q: RunQueue + Drop + Send,
    N: Naming + Counting + Send + Sync,
    T: Threads + Wait + Sync,
    const P: usize,
>(
    rt: &T,
    alloc: Global,
    machine: &Machine<Q, Metronome, N, P>,
    seats: Vec<MachineSeat<N>>,
    ticks: u32,
) -> Result<Vec<Result<ReturnedSeat<N>, Refusal>>, AllocError>
where
    Q::R: Send,
    requires fresh { All (λ s. (number_of s < 256) × (receipts_of s ≡ [])) seats.items }
    ensures many { IfOk result (λ done. vec_len done ≡ vec_len seats) }
    ensures shifts { IfOk result (λ done. All (λ r. IfOk r (λ d. DidShift ticks d.seat)) done.items) }
{
    map_vec(
        rt,
        seats,
        &|seat: MachineSeat<N>| -> Result<ReturnedSeat<N>, Refusal>
            requires number { number_of seat < 256 }
            requires fresh { receipts_of seat ≡ [] }
            ensures { IfOk result (λ d. DidShift ticks d.seat) }
        { drive(rt, alloc, machine, seat, ticks) },
    )
}
