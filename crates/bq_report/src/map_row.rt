//! A row of a map: the runs of a processor, and what its columns show.
ghost use Rattle.std.specs.Prelude.{◌≡◌, ℕ, ◌≤◌, List, nat_le, nat_lt, IfOk, OnOk, OnErr};
ghost use Rattle.std.specs.List.{prefix_len};
ghost use Rattle.std.specs.List.Sorted.{IsNonDecreasingBy, IsPermutation};
ghost use Rattle.bq_schedule.specs.declared.slice.Slice.{Slice};
ghost use Rattle.bq_report.specs.Longest.{LastAsLong};
ghost use Rattle.bq_report.specs.MapRows.{RunsRow};
ghost use Rattle.bq_report.specs.Maps.{AreColumns, IsColumn, empty_map_row, map_row_with_run};

use crate::grid::Grid;
use crate::longest::{longest_in, time_left};
use bq_schedule::Slice;
use std::alloc::{AllocError, Global};
use std::marker::Model;

/// What a column shows: the shown task that ran longest, that only hidden tasks ran, or that the processor was idle.
#[derive(Clone, Copy)]
pub(crate) enum Column {
    Task(u16),
    Hidden,
    Idle,
}

/// The runs of a processor: those of shown tasks, and those of hidden tasks.
#[derive(Drop)]
pub(crate) struct MapRow {
    shown: Vec<Slice>,
    hidden: Vec<Slice>,
}

impl Model for MapRow {
    ghost use Rattle.bq_report.specs.MapRows.{RunsRow};

    ghost Value = { RunsRow };

    ghost view = { λ r. record { shown = r.shown.items; hidden = r.hidden.items } };
}

impl MapRow {
    /// Returns a row without a run.
    pub(crate) fn new(alloc: Global) -> MapRow
        ensures { result ≡ empty_map_row }
    {
        MapRow {
            shown: Vec::new(alloc),
            hidden: Vec::new(alloc),
        }
    }

    /// Holds one more run, whose task is shown or not. If memory runs out, nothing changes.
    pub(crate) fn hold(&mut self, run: Slice, is_shown: bool) -> Result<(), AllocError>
        ensures ok { OnOk result (self.new ≡ map_row_with_run is_shown run self.old) }
        ensures fault { OnErr result (self.new ≡ self.old) }
    {
        if is_shown {
            self.shown.push(run)?;
        } else {
            self.hidden.push(run)?;
        }
        Ok(())
    }

    /// Returns the runs of shown tasks.
    pub(crate) fn shown(&self) -> &[Slice]
        ensures { result.now ≡ self.now.shown }
    {
        self.shown.as_slice()
    }

    /// Sorts the runs by their beginnings, which is their order in a schedule anyway, and returns what the columns show.
    pub(crate) fn columns(&mut self, alloc: Global, grid: &Grid) -> Result<Vec<Column>, AllocError>
        ensures { IfOk result (λ columns. AreColumns self.old grid.now columns.items) }
    {
        sort(&mut self.shown);
        sort(&mut self.hidden);
        columns_of(alloc, self.shown.as_slice(), self.hidden.as_slice(), grid)
    }
}

/// Sorts runs by their beginnings.
fn sort(runs: &mut Vec<Slice>)
    ensures order { IsNonDecreasingBy (λ (run : Slice). run.from) runs.new.items }
    ensures kept { IsPermutation runs.old.items runs.new.items }
{
    runs.sort_unstable_by_key(|run| run.from);
}

/// Returns what the columns show, by the runs of shown tasks and the runs of hidden ones.
fn columns_of(
    alloc: Global,
    shown: &[Slice],
    hidden: &[Slice],
    grid: &Grid,
) -> Result<Vec<Column>, AllocError>
    requires shown { IsNonDecreasingBy (λ (run : Slice). run.from) shown.now }
    requires hidden { IsNonDecreasingBy (λ (run : Slice). run.from) hidden.now }
    ensures { IfOk result (λ columns. AreColumns (record { shown = shown.now; hidden = hidden.now }) grid.now columns.items) }
{
    let mut columns = Vec::new(alloc);
    let mut left = shown;
    let mut others = hidden;
    for number in 0..grid.count {
        let from = grid.moment(number);
        let to = grid.moment(number + 1);
        columns.push(column_between(alloc, left, others, from, to)?)?;
        left = not_over(left, to);
        others = not_over(others, to);
    }
    Ok(columns)
}

/// Returns what a column between two moments shows, by the runs of shown tasks and the runs of hidden ones.
fn column_between(
    alloc: Global,
    shown: &[Slice],
    hidden: &[Slice],
    from: u64,
    to: u64,
) -> Result<Column, AllocError>
    requires shown { IsNonDecreasingBy (λ (run : Slice). run.from) shown.now }
    requires hidden { IsNonDecreasingBy (λ (run : Slice). run.from) hidden.now }
    ensures { IfOk result (IsColumn (record { shown = shown.now; hidden = hidden.now }) from to) }
{
    column_of(
        alloc,
        begun_before(shown, to),
        begun_before(hidden, to),
        from,
        to,
    )
}

/// Returns what a column between two moments shows, by the runs in it: those of shown tasks and those of hidden ones.
fn column_of(
    alloc: Global,
    shown: &[Slice],
    hidden: &[Slice],
    from: u64,
    to: u64,
) -> Result<Column, AllocError>
    ensures { IfOk result (IsColumn (record { shown = shown.now; hidden = hidden.now }) from to) }
{
    let without_shown = time_left(to.saturating_sub(from), shown, from, to);
    let idle = time_left(without_shown, hidden, from, to);
    match longest_in(alloc, shown, from, to)? {
        Some(longest) => {
            if longest.time < u128::from(idle) {
                return Ok(Column::Idle);
            }
            Ok(Column::Task(longest.task))
        }
        None => {
            let hidden_time = without_shown - idle;
            if hidden_time < idle {
                return Ok(Column::Idle);
            }
            Ok(Column::Hidden)
        }
    }
}

/// Returns the runs that begin before a moment. The runs must be sorted by their beginnings.
fn begun_before(runs: &[Slice], to: u64) -> &[Slice]
    requires { IsNonDecreasingBy (λ (run : Slice). run.from) runs.now }
    ensures { (from : ℕ) → LastAsLong from to result.now runs.now }
{
    &runs[..begun(runs, to)]
}

/// Returns how many runs begin before a moment, up to the first that does not.
fn begun(runs: &[Slice], to: u64) -> usize
    ensures { result ≡ prefix_len (λ (run : Slice). nat_lt run.from to) runs.now }
{
    runs.iter().take_while(|run| run.from < to).count()
}

/// Returns the runs without the first ones, which are over at a moment. The runs must be sorted by their beginnings.
fn not_over(runs: &[Slice], at: u64) -> &[Slice]
    requires { IsNonDecreasingBy (λ (run : Slice). run.from) runs.now }
    ensures order { IsNonDecreasingBy (λ (run : Slice). run.from) result.now }
    ensures times { (from to : ℕ) → at ≤ from → LastAsLong from to result.now runs.now }
{
    &runs[over(runs, at)..]
}

/// Returns how many runs are over at a moment, up to the first that is not.
fn over(runs: &[Slice], at: u64) -> usize
    ensures { result ≡ prefix_len (λ (run : Slice). nat_le run.to at) runs.now }
{
    runs.iter().take_while(|run| run.to <= at).count()
}
