//! What one thread does: it admits the task of its processor, wakes it there, and lets the processor tick.
ghost use Rattle.std.specs.Prelude.{◌≡◌, ◌<◌, ◌++◌, ◌∷◌, [], IfOk, OnOk};
ghost use Rattle.std.specs.Option.{option_to_list};
ghost use Rattle.bq_history.specs.Callers.{number_of, receipts_of};
ghost use Rattle.bq_par.specs.Shifts.{DidShift, IsShiftStart, TicksMore};

use bq_disc::RunQueue;
use bq_disc::limits::DEFAULT_SLICE;
use bq_history::{Naming, Numbered, Receipt};
use bq_machine::{Admission, Clock, Machine, WakeReceipts};
use bq_parts::Refusal;
use bq_recording::MachineSeat;
use bq_shared::{Counting, Record};
use std::alloc::Global;
use std::sync::Wait;

/// A seat that has come back, and all receipts that it got.
#[derive(Drop)]
pub struct ReturnedSeat<N: Naming + Counting> {
    pub seat: MachineSeat<N>,
    pub receipts: Vec<Receipt<Record>>,
    ghost held: { receipts_of seat ≡ receipts.items },
}

/// What a thread does once its task runs: it lets a processor tick a given number of times.
#[derive(Clone, Copy)]
struct Duty {
    processor: u8,
    ticks: u32,
}

/// Drives the processor with the seat's number. Its task, whose id is that number too, is admitted, woken and drained there.
/// Then the processor ticks a given number of times. The only error is that memory runs out.
pub fn drive<Q: RunQueue + Drop, K: Clock + Drop, N: Naming + Counting, R: Wait, const P: usize>(
    rt: &R,
    alloc: Global,
    machine: &Machine<Q, K, N, P>,
    seat: MachineSeat<N>,
    ticks: u32,
) -> Result<ReturnedSeat<N>, Refusal>
    requires number { number_of seat < 256 }
    requires fresh { receipts_of seat ≡ [] }
    ensures own { IfOk result (λ d. number_of d.seat ≡ number_of seat) }
    ensures shift { IfOk result (λ d. DidShift ticks d.seat) }
{
    let mut seat = seat;
    let processor = seat.number() as u8;
    let Ok(mut receipts) = Vec::with_capacity(alloc, ticks as usize + 4) else {
        return Err(Refusal::OutOfMemory);
    };
    start(rt, alloc, machine, &mut seat, &mut receipts, processor)?;
    let duty = Duty { processor, ticks };
    tick_all(rt, alloc, machine, &mut seat, &mut receipts, &duty)?;
    Ok(ReturnedSeat { seat, receipts })
}

/// Lets a processor tick a given number of times. It is a function of its own, so that the compiler keeps in registers what
/// the loop needs. What it is to do is read before the loop.
#[inline(never)]
fn tick_all<Q: RunQueue + Drop, K: Clock + Drop, N: Naming + Counting, R: Wait, const P: usize>(
    rt: &R,
    alloc: Global,
    machine: &Machine<Q, K, N, P>,
    seat: &mut MachineSeat<N>,
    receipts: &mut Vec<Receipt<Record>>,
    duty: &Duty,
) -> Result<(), Refusal>
    requires { receipts_of seat.old ≡ receipts.old.items }
    ensures held { OnOk result (seat.new ≡ (number_of seat.old, receipts.new.items)) }
    ensures ticks { OnOk result (TicksMore duty.now.processor duty.now.ticks receipts.old.items receipts.new.items) }
{
    let Duty { processor, ticks } = *duty;
    'ticks: for _ in 0..ticks {
        let ticked = machine.tick(rt, alloc, seat, processor)?;
        push_receipt(receipts, ticked)?;
    }
    Ok(())
}

/// Admits the task whose id is a processor's number, wakes it there and drains it.
fn start<Q: RunQueue + Drop, K: Clock + Drop, N: Naming + Counting, R: Wait, const P: usize>(
    rt: &R,
    alloc: Global,
    machine: &Machine<Q, K, N, P>,
    seat: &mut MachineSeat<N>,
    receipts: &mut Vec<Receipt<Record>>,
    processor: u8,
) -> Result<(), Refusal>
    requires fresh { receipts_of seat.old ≡ [] }
    requires none { receipts.old.items ≡ [] }
    ensures held { OnOk result (seat.new ≡ (number_of seat.old, receipts.new.items)) }
    ensures start { OnOk result (IsShiftStart processor receipts.new.items) }
{
    let task = u16::from(processor);
    let admission = Admission {
        task,
        nice: 0,
        mask: u64::MAX,
        slice: DEFAULT_SLICE,
    };
    let admitted = machine.admit(rt, alloc, seat, admission)?;
    push_receipt(receipts, admitted)?;
    let woken = machine.wake(rt, alloc, seat, processor, task)?;
    push_wake_receipts(receipts, woken)?;
    let drained = machine.drain(rt, alloc, seat, processor)?;
    push_receipt(receipts, drained)
}

/// Adds the receipts of a wake to a list, in order. The error is that memory ran out.
fn push_wake_receipts(
    receipts: &mut Vec<Receipt<Record>>,
    woken: WakeReceipts,
) -> Result<(), Refusal>
    ensures { OnOk result (receipts.new.items ≡ (receipts.old.items ++ woken.begin ∷ []) ++ option_to_list woken.end) }
{
    let WakeReceipts { begin, end } = woken;
    push_receipt(receipts, begin)?;
    match end {
        Some(end) => push_receipt(receipts, end),
        None => Ok(()),
    }
}

/// Adds a receipt to a list. The error is that memory ran out.
#[inline(always)]
fn push_receipt(
    receipts: &mut Vec<Receipt<Record>>,
    receipt: Receipt<Record>,
) -> Result<(), Refusal>
    ensures { OnOk result (receipts.new.items ≡ receipts.old.items ++ receipt ∷ []) }
{
    if receipts.reserve(1).is_err() {
        return Err(Refusal::OutOfMemory);
    }
    receipts.push_reserved(receipt);
    Ok(())
}
