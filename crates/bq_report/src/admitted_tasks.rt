//! The tasks of a trace, in the order in which they are admitted.
ghost use Rattle.std.specs.Prelude.{◌≡◌, OnOk, OnErr, []};
ghost use Rattle.bq_report.specs.AdmittedTasks.{with_admitted, admitted_place};

use std::alloc::{AllocError, Global};
use std::marker::Model;

/// The tasks of a trace, in the order in which they are admitted. A task's place does not depend on what is shown of the trace, and no
/// later task changes it. The place gives the task its letter in a map and its colour in a picture.
#[derive(Drop)]
pub struct AdmittedTasks {
    tasks: Vec<u16>,
}

impl Model for AdmittedTasks {
    ghost use Rattle.std.specs.Prelude.{ℕ, List};

    ghost Value = { List ℕ };

    ghost view = { λ a. a.tasks.items };
}

impl AdmittedTasks {
    /// Returns a list to which no task is admitted yet.
    pub fn new(alloc: Global) -> AdmittedTasks
        ensures { result ≡ [] }
    {
        AdmittedTasks {
            tasks: Vec::new(alloc),
        }
    }

    /// Gives a task the next place, unless it has one. If memory runs out, nothing changes.
    pub fn admit(&mut self, task: u16) -> Result<(), AllocError>
        ensures ok { OnOk result (self.new ≡ with_admitted task self.old) }
        ensures fault { OnErr result (self.new ≡ self.old) }
    {
        if self.place(task).is_none() {
            self.tasks.push(task)?;
        }
        Ok(())
    }

    /// Returns the place of a task, from 0 on. `None` if it is not admitted.
    pub fn place(&self, task: u16) -> Option<usize>
        ensures { result ≡ admitted_place self.now task }
    {
        self.tasks.iter().position(|other| *other == task)
    }

    /// Returns the tasks, by their places.
    pub fn tasks(&self) -> &[u16]
        ensures { result.now ≡ self.now }
    {
        self.tasks.as_slice()
    }
}
