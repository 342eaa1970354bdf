//! The lines that answer a trace.
ghost use Rattle.std.specs.Prelude.{◌≡◌, ◌<◌, ◌+◌, ◌++◌, ◌∷◌, [], OnOk, Ok, Err, codes, string_bytes};
ghost use Rattle.std.specs.Fmt.{decimal};
ghost use Rattle.bq_parts.specs.declared.reply.Reply.TheVariants.{Begun, Placed, Blocked};
ghost use Rattle.bq_trace.specs.Texts.{task_text, who_text, run_text, spaced, reply_text, event_line, bad_line, counter_line};

use bq_hooks::By;
use bq_parts::{Refusal, Reply};
use std::alloc::AllocError;

/// Adds one digit.
fn write_digit(text: &mut String, digit: u32) -> Result<(), AllocError>
    requires { digit < 10 }
    ensures { OnOk result (string_bytes text.new ≡ string_bytes text.old ++ (48 + digit) ∷ []) }
{
    text.push(char::from(b'0' + digit as u8))
}

/// Adds a number of any size.
#[inline(never)]
fn write_large(text: &mut String, number: u32) -> Result<(), AllocError>
    ensures { OnOk result (string_bytes text.new ≡ string_bytes text.old ++ decimal number) }
{
    write!(text, "{number}")
}

/// Adds a number. Most ids, loads and steps have one or two digits, and these need no formatter.
fn write_number(text: &mut String, number: u32) -> Result<(), AllocError>
    ensures { OnOk result (string_bytes text.new ≡ string_bytes text.old ++ decimal number) }
{
    if number < 10 {
        return write_digit(text, number);
    }
    if number < 100 {
        write_digit(text, number / 10)?;
        return write_digit(text, number % 10);
    }
    write_large(text, number)
}

/// Adds a task or `none`.
fn write_task(text: &mut String, task: Option<u16>) -> Result<(), AllocError>
    ensures { OnOk result (string_bytes text.new ≡ string_bytes text.old ++ task_text task) }
{
    match task {
        None => text.push_str("none"),
        Some(task) => write_number(text, u32::from(task)),
    }
}

/// Adds `before`, and then a number.
fn write_numbered(text: &mut String, before: &str, number: u32) -> Result<(), AllocError>
    ensures { OnOk result (string_bytes text.new ≡ string_bytes text.old ++ (before.now ++ decimal number)) }
{
    text.push_str(before)?;
    write_number(text, number)
}

/// Adds numbers, with a space before each.
fn write_spaced(text: &mut String, numbers: &[u16]) -> Result<(), AllocError>
    ensures { OnOk result (string_bytes text.new ≡ string_bytes text.old ++ spaced numbers.now) }
{
    for number in numbers {
        write_numbered(text, " ", u32::from(*number))?;
    }
    Ok(())
}

/// Ends the line of a choice for which no policy was asked. Most choices are such.
fn write_unasked(text: &mut String) -> Result<(), AllocError>
    ensures { OnOk result (string_bytes text.new ≡ string_bytes text.old ++ codes " by rule steps 0\n") }
{
    text.push_str(" by rule steps 0\n")
}

/// Adds who made the choice and how many steps a policy took, and ends the line.
fn write_choice(text: &mut String, by: By, steps: u32) -> Result<(), AllocError>
    ensures { OnOk result (string_bytes text.new ≡ string_bytes text.old ++ (codes " by " ++ (who_text by ++ (codes " steps " ++ (decimal steps ++ codes "\n"))))) }
{
    match by {
        By::Discipline => {
            if steps == 0 {
                return write_unasked(text);
            }
            write_numbered(text, " by rule steps ", steps)?
        }
        By::Policy => write_numbered(text, " by policy steps ", steps)?,
    }
    text.push_str("\n")
}

/// Adds ` run `, the task that runs, who chose it and how many steps a policy took, and ends the line.
fn write_runner(text: &mut String, run: Option<u16>, by: By, steps: u32) -> Result<(), AllocError>
    ensures { OnOk result (string_bytes text.new ≡ string_bytes text.old ++ (run_text run by steps ++ codes "\n")) }
{
    text.push_str(" run ")?;
    write_task(text, run)?;
    write_choice(text, by, steps)
}

/// Adds the line of a wake that has begun.
fn write_begun(text: &mut String, task: u16, loads: &[u16]) -> Result<(), AllocError>
    ensures { OnOk result (string_bytes text.new ≡ string_bytes text.old ++ (reply_text (Begun task loads.now) ++ codes "\n")) }
{
    write_numbered(text, "begin ", u32::from(task))?;
    text.push_str(" loads")?;
    write_spaced(text, loads)?;
    text.push_str("\n")
}

/// Adds the line of a task that is placed.
fn write_placed(text: &mut String, task: u16, to: u8, by: By, steps: u32) -> Result<(), AllocError>
    ensures { OnOk result (string_bytes text.new ≡ string_bytes text.old ++ (reply_text (Placed task to by steps) ++ codes "\n")) }
{
    write_numbered(text, "end ", u32::from(task))?;
    write_numbered(text, " to ", u32::from(to))?;
    write_choice(text, by, steps)
}

/// Adds the line of a task that sleeps.
fn write_blocked(text: &mut String, task: u16, run: Option<u16>) -> Result<(), AllocError>
    ensures { OnOk result (string_bytes text.new ≡ string_bytes text.old ++ (reply_text (Blocked task run) ++ codes "\n")) }
{
    write_numbered(text, "block ", u32::from(task))?;
    text.push_str(" run ")?;
    write_task(text, run)?;
    text.push_str("\n")
}

/// Adds the line that answers an event.
pub fn write_answer(text: &mut String, answer: &Result<Reply, Refusal>) -> Result<(), AllocError>
    ensures { OnOk result (string_bytes text.new ≡ string_bytes text.old ++ event_line answer.now) }
{
    match answer {
        Ok(reply) => write_reply(text, reply),
        Err(refusal) => write_refusal(text, *refusal),
    }
}

/// Adds the line that answers an event that was done.
fn write_reply(text: &mut String, reply: &Reply) -> Result<(), AllocError>
    ensures { OnOk result (string_bytes text.new ≡ string_bytes text.old ++ event_line (Ok reply.now)) }
{
    match reply {
        Reply::Admitted => text.push_str("admit ok\n"),
        Reply::Retired => text.push_str("retire ok\n"),
        Reply::Drawn { generation } => write!(text, "draw {generation}\n"),
        Reply::Installed => text.push_str("install ok\n"),
        Reply::Begun { task, loads } => write_begun(text, *task, loads.as_slice()),
        Reply::Placed {
            task,
            to,
            by,
            steps,
        } => write_placed(text, *task, *to, *by, *steps),
        Reply::Drained {
            count,
            run,
            by,
            steps,
        } => {
            write_numbered(text, "drain ", *count)?;
            write_runner(text, *run, *by, *steps)
        }
        Reply::Ticked { run, by, steps } => {
            text.push_str("tick")?;
            write_runner(text, *run, *by, *steps)
        }
        Reply::Blocked { task, run } => write_blocked(text, *task, *run),
        Reply::Pulled {
            task,
            run,
            by,
            steps,
        } => {
            text.push_str("pull ")?;
            write_task(text, *task)?;
            write_runner(text, *run, *by, *steps)
        }
    }
}

/// Adds the line that refuses an event, with the reason.
pub fn write_refusal(text: &mut String, refusal: Refusal) -> Result<(), AllocError>
    ensures { OnOk result (string_bytes text.new ≡ string_bytes text.old ++ event_line (Err refusal)) }
{
    write!(text, "refused {refusal}\n")
}

/// Adds the line that calls the line of this number bad.
pub fn write_bad(text: &mut String, number: u64) -> Result<(), AllocError>
    ensures { OnOk result (string_bytes text.new ≡ string_bytes text.old ++ bad_line number) }
{
    write!(text, "bad {number}\n")
}

/// Adds the line that shows a counter.
pub fn write_counter(text: &mut String, counter: u8, value: u64) -> Result<(), AllocError>
    ensures { OnOk result (string_bytes text.new ≡ string_bytes text.old ++ counter_line counter value) }
{
    write!(text, "counter {counter} {value}\n")
}
