//! The summary of a parallel run, once all seats have come back.
ghost use Rattle.std.specs.Prelude.{◌≡◌, ◌↔◌, ◌<◌, ◌≤◌, ◌^◌, IfOk, IsTrue, map, length, vec_len, slice_get, string_bytes};
ghost use Rattle.std.specs.List.{All, sum_by};
ghost use Rattle.std.specs.Option.{option_map};
ghost use Rattle.bq_history.specs.Whole.{Each};
ghost use Rattle.bq_history.specs.Callers.{receipts_of};
ghost use Rattle.bq_history.specs.History.{IsConfirmed, IsRecorded};
ghost use Rattle.bq_par.specs.Shifts.{DidShift};
ghost use Rattle.bq_par.specs.Summaries.{IsHistorySummary, summary_line};
ghost use Rattle.bq_par.specs.Ticks.{one_tick, ticks_in};

use crate::shift::ReturnedSeat;
use bq_disc::RunQueue;
use bq_history::{ClosedRecords, Compared, Naming, Receipt};
use bq_machine::{Clock, Machine};
use bq_parts::{Event, Refusal};
use bq_recording::{Closed, MachineSeat};
use bq_shared::{Counting, Record};
use std::alloc::{AllocError, Global};

/// The history of a closed machine, how many events it has, how many of them are ticks, and how many of the receipts it
/// confirms. Only the end of a history makes a `ClosedRecords`, so no summary is made without one.
#[derive(Drop)]
pub struct HistorySummary {
    pub history: ClosedRecords<Record>,
    pub events: u64,
    pub ticks: u64,
    pub confirmed: u64,
}

impl HistorySummary {
    /// Makes the line of text with these numbers.
    pub fn line(&self, alloc: Global) -> Result<String, AllocError>
        ensures { IfOk result (λ t. string_bytes t ≡ summary_line self.now) }
    {
        let HistorySummary {
            history: _,
            events,
            ticks,
            confirmed,
        } = *self;
        format!(in alloc; "events {events} ticks {ticks} confirmed {confirmed}\n")
    }
}

/// The seats that came back, and the receipts of each.
#[derive(Drop)]
struct ReturnedSeats<N: Naming + Counting> {
    seats: Vec<MachineSeat<N>>,
    lists: Vec<Vec<Receipt<Record>>>,
    ghost same: { map (λ l. l.items) lists.items ≡ map (λ s. receipts_of s) seats.items },
}

/// Ends a machine and makes its summary. Its seats must have come back, each with the receipts of its processor's shift. The
/// only error is that memory runs out.
pub fn finish<Q: RunQueue + Drop, K: Clock + Drop, N: Naming + Counting, const P: usize>(
    alloc: Global,
    machine: Machine<Q, K, N, P>,
    done: Vec<Result<ReturnedSeat<N>, Refusal>>,
    ticks: u32,
) -> Result<HistorySummary, AllocError>
    requires callers { machine.recorder.history.callers ≡ P }
    requires many { vec_len done ≡ P }
    requires shifts { All (λ r. IfOk r (λ d. DidShift ticks d.seat)) done.items }
    ensures { IfOk result (IsHistorySummary Q.R.discipline P ticks) }
{
    let ReturnedSeats { seats, lists } = returned(alloc, done, ticks)?;
    // Each thread has given its seat back, so all seats are here.
    if !machine.owns(&seats) {
        return Err(AllocError);
    }
    let Closed { history, .. } = machine.close(seats);
    let events = history.len();
    let (ticks, confirmed) = counted(alloc, &history, &lists)?;
    Ok(HistorySummary {
        history,
        events,
        ticks,
        confirmed,
    })
}

/// Counts the events of the history that are ticks, and the receipts that the history confirms.
fn counted(
    alloc: Global,
    history: &ClosedRecords<Record>,
    lists: &[Vec<Receipt<Record>>],
) -> Result<(u64, u64), AllocError>
    requires stand { All (λ l. All (IsRecorded history.now) l.items) lists.now }
    requires few { sum_by (λ l. length l.items) lists.now < 2 ^ 64 }
    ensures ticks { IfOk result (λ r. r.0 ≡ ticks_in history.now) }
    ensures confirmed { IfOk result (λ r. r.1 ≡ sum_by (λ l. length l.items) lists.now) }
{
    let records = history.in_order(alloc)?;
    Ok((ticks_among(&records), confirmed_among(&records, lists)))
}

/// The seats and the receipts of all threads, for each seat those of its processor's shift. The error is that memory ran out
/// in a thread.
fn returned<N: Naming + Counting>(
    alloc: Global,
    done: Vec<Result<ReturnedSeat<N>, Refusal>>,
    ticks: u32,
) -> Result<ReturnedSeats<N>, AllocError>
    requires { All (λ r. IfOk r (λ d. DidShift ticks d.seat)) done.items }
    ensures many { IfOk result (λ r. length r.seats.items ≡ vec_len done) }
    ensures shifts { IfOk result (λ r. Each (DidShift ticks) r.seats.items) }
{
    let mut done = done;
    let mut seats = Vec::with_capacity(alloc, done.len())?;
    let mut lists = Vec::with_capacity(alloc, done.len())?;
    while let Some(one) = done.pop() {
        let Ok(ReturnedSeat { seat, receipts }) = one else {
            return Err(AllocError);
        };
        seats.push(seat)?;
        lists.push(receipts)?;
    }
    Ok(ReturnedSeats { seats, lists })
}

/// Counts the records of ticks.
fn ticks_among(records: &[&Record]) -> u64
    ensures { result ≡ sum_by (λ r. one_tick r.now) records.now }
{
    let mut ticks = 0;
    for entry in records {
        ticks += ticks_of_one(entry);
    }
    ticks
}

/// Returns how many ticks a record is of: 1 or 0.
fn ticks_of_one(entry: &Record) -> u64
    ensures is { result ≡ one_tick entry.now }
    ensures few { result ≤ 1 }
{
    match &entry.event {
        Event::Tick { .. } => 1,
        _ => 0,
    }
}

/// Counts the receipts of all lists that the records confirm.
fn confirmed_among(records: &[&Record], lists: &[Vec<Receipt<Record>>]) -> u64
    requires stand { All (λ l. All (IsRecorded (map (λ r. r.now) records.now)) l.items) lists.now }
    requires few { sum_by (λ l. length l.items) lists.now < 2 ^ 64 }
    ensures { result ≡ sum_by (λ l. length l.items) lists.now }
{
    let mut confirmed = 0;
    for list in lists {
        confirmed += confirmed_in(records, list);
    }
    confirmed
}

/// Counts the receipts of one list that the records confirm.
fn confirmed_in(records: &[&Record], list: &[Receipt<Record>]) -> u64
    requires { All (IsRecorded (map (λ r. r.now) records.now)) list.now }
    ensures { result ≡ length list.now }
{
    let mut confirmed = 0;
    for receipt in list {
        confirmed += u64::from(is_confirmed(records, receipt));
    }
    confirmed
}

/// Returns whether the records have the receipt's record at the receipt's place.
fn is_confirmed(records: &[&Record], receipt: &Receipt<Record>) -> bool
    ensures { IsTrue result ↔ IsConfirmed (λ r s. r ≡ s) (map (λ r. r.now) records.now) receipt.now }
{
    match record_at(records, receipt.place) {
        Some(entry) => entry.is_alike(&receipt.entry),
        None => false,
    }
}

/// Returns the record at a place, counted from 0; None if there are not that many records.
fn record_at<'a>(records: &[&'a Record], place: u64) -> Option<&'a Record>
    ensures { option_map (λ r. r.now) result ≡ slice_get (map (λ r. r.now) records.now) place }
{
    match records.get(place as usize) {
        Some(entry) => Some(*entry),
        None => None,
    }
}
