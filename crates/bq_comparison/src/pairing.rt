//! What the runs with the same seeds on both sides say of each figure's difference.
ghost use Rattle.std.specs.Prelude.{◌≡◌, ◌≤◌, IfOk, length};
ghost use Rattle.bq_comparison.specs.Pairs.{ArePairedRows, pair_of, pairs_at};
ghost use Rattle.bq_comparison.specs.declared.means.TheConstants.{MOST_NUMBERS};

use crate::RunFigures;
use crate::pairs::{Pair, PairedRow, paired_row};
use std::alloc::{AllocError, Global};

/// Returns what up to 65,536 runs and as many others with the same seeds say of the difference of each of this many figures.
pub fn paired_rows(
    alloc: Global,
    count: usize,
    ours: &[RunFigures],
    theirs: &[RunFigures],
) -> Result<Vec<PairedRow>, AllocError>
    requires few { length ours.now ≤ MOST_NUMBERS }
    requires same { length theirs.now ≡ length ours.now }
    ensures { IfOk result (λ v. ArePairedRows ours.now theirs.now count v.items) }
{
    let mut rows = Vec::new(alloc);
    'places: for place in 0..count {
        let pairs = pairs_at(alloc, ours, theirs, place)?;
        rows.push(paired_row(pairs.as_slice()))?;
    }
    Ok(rows)
}

/// Returns the pairs at a place, of the seeds with which both runs have a number there.
fn pairs_at(
    alloc: Global,
    ours: &[RunFigures],
    theirs: &[RunFigures],
    place: usize,
) -> Result<Vec<Pair>, AllocError>
    requires { length theirs.now ≡ length ours.now }
    ensures value { IfOk result (λ v. v.items ≡ pairs_at place ours.now theirs.now) }
    ensures few { IfOk result (λ v. length v.items ≤ length ours.now) }
{
    let mut pairs = Vec::new(alloc);
    'runs: for (index, run) in ours.iter().enumerate() {
        let other = theirs[index].number_at(place);
        if let Some(pair) = pair_of(run.number_at(place), other) {
            pairs.push(pair)?;
        }
    }
    Ok(pairs)
}

/// Pairs two numbers, if both are there.
fn pair_of(ours: Option<u64>, theirs: Option<u64>) -> Option<Pair>
    ensures { result ≡ pair_of ours theirs }
{
    let ours = ours?;
    let theirs = theirs?;
    Some(Pair { ours, theirs })
}
