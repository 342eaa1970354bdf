//! Figures side by side.
ghost use Rattle.std.specs.Prelude.{◌≡◌, ◌↔◌, IsTrue, IfOk};
ghost use Rattle.bq_comparison.specs.Lines.{IsLineShown, Selects, rows_beside, is_mean_zero, paired_at, row_at, is_zero};

use crate::sides::Sides;
use crate::{Figure, FigureRow, PairedRow};
use bq_report::Window;
use std::alloc::{AllocError, Global};

/// What the runs say of a figure, and what those under the other policies say of it and of its difference, if there are any.
#[derive(Clone, Copy)]
pub struct FigureLine {
    pub ours: FigureRow,
    pub theirs: Option<FigureRow>,
    pub paired: Option<PairedRow>,
}

impl FigureLine {
    /// Tells whether the line is of a task or a processor in the window; a line of a hook also needs a mean other than 0 on one side.
    fn is_shown(&self, window: &Window) -> bool
        ensures { IsTrue result ↔ IsLineShown window.now self.now }
    {
        match self.ours.figure {
            Figure::Task(task, _) => window.shows_task(task),
            Figure::Latency(task, _) => window.shows_task(task),
            Figure::StillWaiting(task) => window.shows_task(task),
            Figure::Processor(processor, _) => window.shows_processor(processor),
            Figure::Hook(processor, _, _) => {
                window.shows_processor(processor) && !self.is_zero()
            }
        }
    }

    /// Tells whether the means of all sides that there are are 0.
    fn is_zero(&self) -> bool
        ensures { result ≡ is_zero self.now }
    {
        match &self.theirs {
            Some(theirs) => is_mean_zero(self.ours.mean) && is_mean_zero(theirs.mean),
            None => is_mean_zero(self.ours.mean),
        }
    }
}

/// Tells whether there is a mean and it is 0.
fn is_mean_zero(mean: Option<u128>) -> bool
    ensures { result ≡ is_mean_zero mean }
{
    mean == Some(0)
}

impl Sides {
    /// Returns the row of the others at a place.
    fn their(&self, place: usize) -> Option<FigureRow>
        ensures { result ≡ row_at self.now.theirs place }
    {
        match &self.theirs {
            Some(side) => side.rows.get(place).copied(),
            None => None,
        }
    }

    /// Returns what both sides say of the difference at a place.
    fn paired(&self, place: usize) -> Option<PairedRow>
        ensures { result ≡ paired_at self.now.theirs place }
    {
        match &self.theirs {
            Some(side) => side.paired.get(place).copied(),
            None => None,
        }
    }
}

/// Puts the rows of the sides beside one another. Leaves out the lines that are not shown.
pub fn make_lines(
    alloc: Global,
    sides: &Sides,
    window: &Window,
) -> Result<Vec<FigureLine>, AllocError>
    ensures { IfOk result (λ v. Selects (IsLineShown window.now) (rows_beside 0 sides.now.ours.items sides.now.theirs) v.items) }
{
    let mut lines = Vec::new(alloc);
    'rows: for (place, row) in sides.ours.iter().enumerate() {
        let line = FigureLine {
            ours: *row,
            theirs: sides.their(place),
            paired: sides.paired(place),
        };
        if line.is_shown(window) {
            lines.push(line)?;
        }
    }
    Ok(lines)
}
