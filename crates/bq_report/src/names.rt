//! The names that a trace's comments give to its tasks.
ghost use Rattle.std.specs.Prelude.{◌≡◌, ℕ, List, IfSome, IfNone, OnOk, OnErr, option_map};
ghost use Rattle.bq_report.specs.Timehist.{name_text};
ghost use Rattle.bq_report.specs.Names.{IsNaming, Learns, name_of, task_number};

use bq_words::number;
use std::alloc::{AllocError, Global};
use std::collections::BTreeMap;
use std::marker::Model;
use std::str;

/// The names that a trace's comments give to its tasks.
///
/// After the comment `# task 4 server` task 4 is named `server`. The latest name counts.
#[derive(Drop)]
pub struct Names {
    alloc: Global,
    names: BTreeMap<u16, String>,
}

impl Model for Names {
    ghost use Rattle.std.specs.Prelude.{ℕ, List, map, string_bytes};

    ghost Value = { List (ℕ × List ℕ) };

    ghost view = { λ n. map (λ e. (e.0, string_bytes e.1)) n.names.entries };
}

impl Names {
    /// Returns the names of no tasks.
    pub fn new(alloc: Global) -> Names
        ensures { (task : ℕ) → name_of result task ≡ None }
    {
        Names {
            alloc,
            names: BTreeMap::new(alloc),
        }
    }

    /// Reads a comment as the trace has it, and names the task that the comment names. A comment that names no task changes nothing.
    /// If memory runs out, nothing changes.
    pub fn learn(&mut self, comment: &[u8]) -> Result<(), AllocError>
        ensures ok { OnOk result (Learns comment.now self.old self.new) }
        ensures fault { OnErr result ((task : ℕ) → name_of self.new task ≡ name_of self.old task) }
    {
        if let Some((task, name)) = naming(comment) {
            let name = String::from_str(self.alloc, name)?;
            self.names.insert(task, name)?;
        }
        Ok(())
    }

    /// Returns the name of a task, if it has one.
    pub fn of(&self, task: u16) -> Option<&str>
        ensures { option_map (λ name. name.now) result ≡ name_of self.now task }
    {
        match self.names.get(&task) {
            Some(name) => Some(name.as_str()),
            None => None,
        }
    }

    /// Returns the name of a task; empty if it has none.
    pub fn text(&self, task: u16) -> &str
        ensures { result.now ≡ name_text self.now task }
    {
        match self.of(task) {
            Some(name) => name,
            None => "",
        }
    }
}

/// Returns the task that a comment names, and its name. `None` if the comment names no task.
fn naming(comment: &[u8]) -> Option<(u16, &str)>
    ensures named { IfSome result (λ naming. IsNaming comment.now naming.0 naming.1.now) }
    ensures none { IfNone result ((task : ℕ) (name : List ℕ) → ¬ (IsNaming comment.now task name)) }
{
    let rest = comment.trim_ascii().strip_prefix(b"#")?;
    let rest = rest.trim_ascii().strip_prefix(b"task ")?;
    let rest = rest.trim_ascii();
    let end = rest.iter().position(|byte| *byte == b' ')?;
    let task = task_number(&rest[..end])?;
    let name = str::from_utf8(&rest[end..]).ok()?.trim();
    Some((task, name))
}

/// Returns the number of a task that a word writes in decimal. `None` if the word writes no such number.
fn task_number(word: &[u8]) -> Option<u16>
    ensures { result ≡ task_number word.now }
{
    u16::try_from(number(word, 10)?).ok()
}
