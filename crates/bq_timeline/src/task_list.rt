//! The words that ask for tasks, and what they mean.
ghost use Rattle.std.specs.Prelude.{◌≡◌, ◌<◌, ◌≤◌, ◌+◌, ◌-◌, ◌++◌, IfOk, IfSome, MatchBool, None, OnOk, length, map, option_map, position, string_bytes};
ghost use Rattle.std.specs.List.{range_with_len};
ghost use Rattle.bq_timeline.specs.Settings.{AddsPart, is_name, names_among_parts, tasks_at, tasks_in_list, tasks_of_part};
ghost use Rattle.bq_words.specs.ProcessorSets.{is_dash};

use bq_words::processor_sets::first_part;
use bq_words::quantities::task;
use std::alloc::{AllocError, Global};

/// Returns the tasks that a word names by number: numbers and ranges with commas between them, as `1-3,9`. Names may be among them, as in
/// `1-3,editor`: a part that does not begin with a digit is a name. Names add no tasks here.
///
/// `None` if a part between commas is something else, or if a range runs backwards.
#[tactic(auto, using(crate::proofs::TaskLemmas::tasks_on, crate::proofs::TaskLemmas::tasks_none, crate::proofs::TaskLemmas::tasks_done))]
pub fn tasks(alloc: Global, word: &str) -> Result<Option<Vec<u16>>, AllocError>
    ensures { IfOk result (λ tasks. option_map (λ t. t.items) tasks ≡ tasks_in_list word.now) }
{
    let mut tasks = Vec::new(alloc);
    let mut rest = word.as_bytes();
    while let Some((part, more)) = first_part(rest) {
        if !push_tasks(&mut tasks, part)? {
            return Ok(None);
        }
        rest = more;
    }
    if !push_tasks(&mut tasks, rest)? {
        return Ok(None);
    }
    Ok(Some(tasks))
}

/// Returns the names of tasks in a word: the nonempty parts between commas that do not begin with a digit.
pub fn names(alloc: Global, word: &str) -> Result<Vec<String>, AllocError>
    ensures { IfOk result (λ names. map string_bytes names.items ≡ names_among_parts word.now) }
{
    let mut names = Vec::new(alloc);
    for part in word.split(',') {
        if is_name(part.as_bytes()) {
            names.push(String::from_str(alloc, part)?)?;
        }
    }
    Ok(names)
}

/// Tells whether a part is the name of a task.
fn is_name(part: &[u8]) -> bool
    ensures { result ≡ is_name part.now }
{
    match part.first() {
        Some(byte) => !byte.is_ascii_digit(),
        None => false,
    }
}

/// Adds the tasks that a part names by number. Returns whether the part is a number, a range or a name.
#[tactic(auto, using(crate::proofs::TaskLemmas::name_adds))]
fn push_tasks(tasks: &mut Vec<u16>, part: &[u8]) -> Result<bool, AllocError>
    ensures { IfOk result (λ named. MatchBool named (AddsPart part.now tasks.old.items tasks.new.items) (tasks_of_part part.now ≡ None)) }
{
    if is_name(part) {
        return Ok(true);
    }
    match ends(part) {
        Some((first, last)) => {
            push_range(tasks, first, last)?;
            Ok(true)
        }
        None => Ok(false),
    }
}

/// Adds the tasks from the first to the last.
#[tactic(auto, using(crate::proofs::TaskLemmas::range_on, crate::proofs::TaskLemmas::range_done))]
fn push_range(tasks: &mut Vec<u16>, first: u16, last: u16) -> Result<(), AllocError>
    requires { first ≤ last }
    ensures { OnOk result (tasks.new.items ≡ tasks.old.items ++ range_with_len first (last + 1 - first)) }
{
    let mut next = first;
    while next < last {
        tasks.push(next)?;
        next += 1;
    }
    tasks.push(last)?;
    Ok(())
}

/// Returns the first and the last task of a range, in order. A number is a range of one task. `None` if the part is neither, or runs backwards.
fn ends(part: &[u8]) -> Option<(u16, u16)>
    ensures tasks { option_map (λ e. range_with_len e.0 (e.1 + 1 - e.0)) result ≡ tasks_at part.now (position is_dash part.now) }
    ensures order { IfSome result (λ e. e.0 ≤ e.1) }
{
    match dash(part) {
        Some(dash) => {
            let first = task(&part[..dash])?;
            let last = task(&part[dash + 1..])?;
            if last < first {
                return None;
            }
            Some((first, last))
        }
        None => {
            let only = task(part)?;
            Some((only, only))
        }
    }
}

/// Returns where a range has its dash, if it has one.
fn dash(part: &[u8]) -> Option<usize>
    ensures value { result ≡ position is_dash part.now }
    ensures within { IfSome result (λ dash. dash < length part.now) }
{
    part.iter().position(|byte| is_dash(*byte))
}

/// Tells whether a byte is a dash.
fn is_dash(byte: u8) -> bool
    ensures { result ≡ is_dash byte }
{
    byte == b'-'
}
