//! The names of a workload's tasks.
ghost use Rattle.std.specs.Prelude.{◌≡◌, ◌<◌, ◌++◌, map, length, IfOk, OnOk, string_bytes};
ghost use Rattle.bq_timeline.specs.Comments.{ViewerRests};
ghost use Rattle.bq_trace.specs.TraceEvents.{TakesAll};
ghost use Rattle.bq_experiment.specs.Names.{AreNamesOf, LearnsAll, comments_of, name_of_task, names_of_kind, names_of, plain_name, plain_of, shown_comments, shown_name};
ghost use Rattle.bq_experiment.specs.Traces.{skipped};

use bq_report::Names;
use bq_timeline::tasks_by_name::shown_letter;
use bq_timeline::viewer::Viewer;
use bq_trace::{Sink, TraceEvent};
use bq_workload::{TaskKind, Workload};
use std::alloc::{AllocError, Global};

/// Returns the name of each task. The tasks of a kind are numbered from 0 if it has several.
pub fn task_names(alloc: Global, workload: &Workload) -> Result<Vec<String>, AllocError>
    ensures { IfOk result (λ names. map string_bytes names.items ≡ names_of workload.now.tasks.items) }
{
    let mut names = Vec::new(alloc);
    'kinds: for kind in &workload.tasks {
        add_names(alloc, kind, &mut names)?;
    }
    Ok(names)
}

/// Adds the name of each task of a kind.
fn add_names(alloc: Global, kind: &TaskKind, names: &mut Vec<String>) -> Result<(), AllocError>
    ensures { OnOk result (map string_bytes names.new.items ≡ map string_bytes names.old.items ++ names_of_kind kind.now) }
{
    'numbers: for number in 0..kind.count {
        names.push(task_name(alloc, kind, number)?)?;
    }
    Ok(())
}

/// Returns the name of a task, by its number among the tasks of its kind.
fn task_name(alloc: Global, kind: &TaskKind, number: u16) -> Result<String, AllocError>
    ensures { IfOk result (λ name. string_bytes name ≡ name_of_task kind.now number) }
{
    let name = kind.name.as_str();
    if kind.count == 1 {
        String::from_str(alloc, name)
    } else {
        format!(in alloc; "{name}-{number}")
    }
}

/// Tells a sink the name of each task, by the comment that names one in a trace. Returns how many lines of a trace that takes.
pub fn report_names<S: Sink>(
    alloc: Global,
    workload: &Workload,
    sink: &mut S,
) -> Result<u64, AllocError>
    ensures reported { OnOk result (TakesAll S.takes sink.old (map skipped (comments_of workload.now)) sink.new) }
    ensures lines { IfOk result (λ lines. lines ≡ length (comments_of workload.now)) }
{
    let names = task_names(alloc, workload)?;
    'names: for (task, name) in names.iter().enumerate() {
        let name = plain(alloc, name.as_str())?;
        let comment = format!(in alloc; "# task {task} {name}")?;
        let line = comment.as_bytes();
        sink.receive(0, &TraceEvent::Skipped { line })?;
    }
    Ok(names.len() as u64)
}

/// Tells a viewer the name of each task, as the comments of a trace do; but a name that is not ASCII is shown as it is. Returns how
/// many tasks there are.
pub(crate) fn show_names(
    alloc: Global,
    workload: &Workload,
    viewer: &mut Viewer,
) -> Result<u64, AllocError>
    ensures rest { ViewerRests viewer.old viewer.new }
    ensures names { OnOk result (LearnsAll (shown_comments workload.now) viewer.old.screen.names viewer.new.screen.names) }
    ensures lines { IfOk result (λ lines. lines ≡ length (shown_comments workload.now)) }
{
    let comments = shown_comments(alloc, workload)?;
    'comments: for comment in &comments {
        let line = comment.as_bytes();
        viewer.receive(0, &TraceEvent::Skipped { line })?;
    }
    Ok(comments.len() as u64)
}

/// Returns the names of a workload's tasks, as a screen has them of one run.
pub fn workload_names(alloc: Global, workload: &Workload) -> Result<Names, AllocError>
    ensures { IfOk result (AreNamesOf workload.now) }
{
    let comments = shown_comments(alloc, workload)?;
    let mut names = Names::new(alloc);
    'comments: for comment in &comments {
        names.learn(comment.as_bytes())?;
    }
    Ok(names)
}

/// Returns the comments that name the tasks to a viewer, one for each task.
fn shown_comments(alloc: Global, workload: &Workload) -> Result<Vec<String>, AllocError>
    ensures { IfOk result (λ comments. map string_bytes comments.items ≡ shown_comments workload.now) }
{
    let names = task_names(alloc, workload)?;
    let mut comments = Vec::new(alloc);
    'names: for (task, name) in names.iter().enumerate() {
        let name = shown_name(alloc, name.as_str())?;
        let line = format!(in alloc; "# task {task} {name}")?;
        comments.push(line)?;
    }
    Ok(comments)
}

/// Returns the name as a form shows it: a control character becomes `?`.
pub fn shown_name(alloc: Global, name: &str) -> Result<String, AllocError>
    ensures { IfOk result (λ text. string_bytes text ≡ shown_name name.now) }
{
    let mut text = String::new(alloc);
    for letter in name.chars() {
        text.push(shown_letter(letter))?;
    }
    Ok(text)
}

/// Returns the name as a line of a trace can have it: a character that is no printable ASCII becomes `?`.
pub fn plain(alloc: Global, name: &str) -> Result<String, AllocError>
    ensures { IfOk result (λ text. string_bytes text ≡ plain_name name.now) }
{
    let mut text = String::new(alloc);
    for letter in name.chars() {
        text.push(plain_letter(letter))?;
    }
    Ok(text)
}

/// Returns the letter, or `?` in its place if it is neither a visible letter of ASCII nor a blank.
fn plain_letter(letter: char) -> char
    ensures ascii { result < 128 }
    ensures value { result ≡ plain_of letter }
{
    let is_plain = letter.is_ascii_graphic() || letter == ' ';
    if is_plain { letter } else { '?' }
}
