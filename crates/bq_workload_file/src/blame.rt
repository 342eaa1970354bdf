//! Where something is wrong in a document.
ghost use Rattle.std.specs.Prelude.{◌≡◌, option_and_then};
ghost use Rattle.std.specs.Result.{result_err, result_ok};
ghost use Rattle.bq_workload_file.specs.Keys.{unknown_key, unknown_there};

use crate::workload_cause::WorkloadCause;
use std::alloc::{AllocError, AllocFailed};
use std::fmt;

/// A part of a document.
#[derive(Clone, Copy)]
pub(crate) enum DocumentLocation<'a> {
    /// The document itself.
    Document,
    /// The table of the machine.
    Machine,
    /// A table `[[task]]` by its number, from 1, and its name, if it has one. Tasks have numbers of their own, from 0, in reports.
    Task {
        number: usize,
        name: Option<&'a str>,
    },
    /// An action by its number, from 1, among the actions of such a table.
    Action {
        number: usize,
        name: Option<&'a str>,
        action: usize,
    },
}

impl fmt::Display for DocumentLocation<'_> {
    fn fmt<W: fmt::Write>(&self, f: &mut fmt::Formatter<W>) -> fmt::Result {
        match self {
            DocumentLocation::Document => Ok(()),
            DocumentLocation::Machine => f.write_str("machine: "),
            DocumentLocation::Task { number, name } => task(f, *number, *name),
            DocumentLocation::Action {
                number,
                name,
                action,
            } => {
                task(f, *number, *name)?;
                write!(f, "do {action}: ")
            }
        }
    }
}

/// Writes a table of tasks by its number and its name.
fn task<W: fmt::Write>(
    f: &mut fmt::Formatter<W>,
    number: usize,
    name: Option<&str>,
) -> fmt::Result {
    match name {
        Some(name) => write!(f, "[[task]] {number} ({}): ", name.escape_debug()),
        None => write!(f, "[[task]] {number}: "),
    }
}

/// Why a document is no workload. The value borrows from the document.
#[derive(Clone, Copy)]
pub(crate) enum Trouble<'a> {
    /// Something is wrong in the document.
    At {
        place: DocumentLocation<'a>,
        why: WorkloadCause<'a>,
    },
    OutOfMemory,
}

impl From<AllocError> for Trouble<'_> {
    fn from(_e: AllocError) -> Self {
        Trouble::OutOfMemory
    }
}

impl<T: Drop> From<AllocFailed<T>> for Trouble<'_> {
    fn from(_e: AllocFailed<T>) -> Self {
        Trouble::OutOfMemory
    }
}

impl<'a> DocumentLocation<'a> {
    /// An action of this task, by its number from 1.
    pub(crate) fn action(self, action: usize) -> DocumentLocation<'a> {
        match self {
            DocumentLocation::Task { number, name } => DocumentLocation::Action {
                number,
                name,
                action,
            },
            other => other,
        }
    }

    /// Passes on what was read at this place, or adds this place to what is wrong.
    pub(crate) fn locate<T: Drop>(
        self,
        read: Result<T, WorkloadCause<'a>>,
    ) -> Result<T, Trouble<'a>>
        ensures read { result_ok result ≡ result_ok read.entry }
        ensures unknown { option_and_then unknown_there (result_err result) ≡ option_and_then unknown_key (result_err read.entry) }
    {
        match read {
            Ok(value) => Ok(value),
            Err(why) => Err(Trouble::At { place: self, why }),
        }
    }
}
