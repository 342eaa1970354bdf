//! The text of a comparison, in the form that is asked for.

use crate::asked::{Comparing, TableForm};
use crate::csv_text::csv_text;
use crate::json_text::json_text;
use crate::line::make_lines;
use crate::sides::Sides;
use crate::table::table_text;
use bq_experiment::{shown_name, task_names};
use bq_workload::Workload;
use std::alloc::{AllocError, Global};

/// Writes what is shown of the two sides of a workload's comparison, as it is asked for. A table has the head of both sides exactly
/// when there are both, even if no line is left. Tasks have the names that the forms of one run show.
pub fn comparison_text(
    alloc: Global,
    workload: &Workload,
    sides: &Sides,
    asked: &Comparing,
) -> Result<String, AllocError> {
    let lines = make_lines(alloc, sides, &asked.window)?;
    let lines = lines.as_slice();
    let names = shown_names(alloc, workload)?;
    let names = names.as_slice();
    match asked.form {
        TableForm::Report => table_text(alloc, sides.theirs.is_some(), lines, names),
        TableForm::Csv => csv_text(alloc, lines, names),
        TableForm::Json => json_text(alloc, lines, names),
    }
}

/// Returns the names of the tasks, as forms show them.
fn shown_names(alloc: Global, workload: &Workload) -> Result<Vec<String>, AllocError> {
    let mut names = Vec::new(alloc);
    for name in &task_names(alloc, workload)? {
        names.push(shown_name(alloc, name.as_str())?)?;
    }
    Ok(names)
}
