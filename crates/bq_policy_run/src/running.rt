//! `run` of a policy's file.
ghost use Rattle.std.specs.Prelude.{◌≡◌, ◌++◌, [], IfOk, IsNone, is_some, length, string_bytes};
ghost use Rattle.bq_hooks.specs.Hooks.{context_length_of};
ghost use Rattle.bq_policy_run.specs.Changes.{calls_text, changes_text, with_contents};
ghost use Rattle.bq_policy_run.specs.Runs.{FitsProgram};
ghost use Rattle.bq_policy_run.specs.Running.{HasRun, RunsFile, RunsPolicy, RunsProgram, RunsTo, ReportsRun, BeginsWithVerdict, answer_line};

use crate::explaining::explaining_line;
use crate::repeats::runs_before;
use crate::timing::timed_inputs;
use crate::traces::executed_text;
use crate::word_text::word_text;
use crate::{Inputs, copied, run_often, trace_once, write_calls, write_changes};
use bq_console::WordsFault;
use bq_explain::{Verdict, verdict_line};
use bq_interp::Ran;
use bq_policy_check::{Answered, RunWords, given_head, refused_file};
use bq_policy_file::{Head, PolicySource, read_policy};
use bq_verify::{Refused, Verified, verify};
use std::alloc::{AllocError, Global};
use std::time::Clock;

/// Runs the policy whose file has these bytes, on the inputs that the words name, or says why it was not run. If the words say
/// how often it is run, the clock tells how long that takes.
pub fn run<C: Clock>(
    alloc: Global,
    clock: &C,
    words: &RunWords,
    bytes: &[u8],
) -> Result<Answered, AllocError>
    ensures { IfOk result (RunsTo words.now bytes.now) }
{
    match given_head(alloc, &words.policy) {
        Ok(head) => run_file(alloc, clock, words, bytes, &head),
        Err(WordsFault::Words(why)) => Ok(Answered::Words(why)),
        Err(WordsFault::OutOfMemory) => Err(AllocError),
    }
}

/// Answers `run` for the file of these bytes: the runs of its policy, or why the file is no policy.
fn run_file<C: Clock>(
    alloc: Global,
    clock: &C,
    words: &RunWords,
    bytes: &[u8],
    head: &Head,
) -> Result<Answered, AllocError>
    ensures { IfOk result (RunsFile words.now bytes.now head.now) }
{
    match read_policy(alloc, bytes, head) {
        Ok(policy) => run_policy(alloc, clock, words, &policy),
        Err(fault) => {
            let text = refused_file(alloc, &words.policy.file, bytes, fault)?;
            Ok(Answered::Refused(text))
        }
    }
}

/// Verifies a policy and runs it; a refused policy is not run, and the answer is why it is refused.
fn run_policy<C: Clock>(
    alloc: Global,
    clock: &C,
    words: &RunWords,
    policy: &PolicySource,
) -> Result<Answered, AllocError>
    ensures { IfOk result (RunsPolicy words.now policy.now) }
{
    let program = policy.program(alloc)?;
    match verify(alloc, program) {
        Ok(verified) => run_verified(alloc, clock, words, policy, &verified),
        Err(Refused::OutOfMemory) => Err(AllocError),
        Err(Refused::At { slot, cause }) => {
            let verdict = Verdict::Refused { slot, cause };
            let text = unaccepted_text(alloc, words, policy, verdict)?;
            Ok(Answered::Refused(text))
        }
    }
}

/// Writes the line that tells the verdict on a policy that is not accepted, and the line that names the command that explains it.
fn unaccepted_text(
    alloc: Global,
    words: &RunWords,
    policy: &PolicySource,
    verdict: Verdict,
) -> Result<String, AllocError>
    ensures { IfOk result (λ text. BeginsWithVerdict policy.now.form.hook verdict (string_bytes text)) }
{
    let line = verdict_line(alloc, policy.form.hook, verdict)?;
    let more = explaining_line(alloc, &words.policy)?;
    format!(in alloc; "{line}{more}")
}

/// Runs a program that is accepted.
fn run_verified<C: Clock>(
    alloc: Global,
    clock: &C,
    words: &RunWords,
    policy: &PolicySource,
    verified: &Verified,
) -> Result<Answered, AllocError>
    ensures { IfOk result (RunsProgram words.now verified.now) }
{
    let before = match runs_before(alloc, &words.report.repeat) {
        Ok(before) => before,
        Err(WordsFault::Words(why)) => return Ok(Answered::Words(why)),
        Err(WordsFault::OutOfMemory) => return Err(AllocError),
    };
    match timed_inputs(alloc, clock, words, verified, before) {
        Ok((inputs, line)) => {
            let mut series = Series { inputs, before };
            run_on(alloc, words, policy, verified, &mut series, &line)
        }
        Err(WordsFault::Words(why)) => Ok(Answered::Words(why)),
        Err(WordsFault::OutOfMemory) => Err(AllocError),
    }
}

/// Runs that follow each other on one set of maps and counters.
#[derive(Drop)]
struct Series {
    /// The inputs of the first.
    inputs: Inputs,
    /// The number of runs before the one that is shown.
    before: u32,
}

/// Does the runs of a series, on inputs of the program's hook, and shows the last. The line that says how long runs take comes last.
fn run_on(
    alloc: Global,
    words: &RunWords,
    policy: &PolicySource,
    verified: &Verified,
    series: &mut Series,
    line: &String,
) -> Result<Answered, AllocError>
    requires fits { FitsProgram verified.now series.old.inputs }
    requires untimed { IsNone words.now.report.repeat → string_bytes line.now ≡ [] }
    ensures { IfOk result (HasRun words.now.report.is_traced (is_some words.now.report.repeat) series.old.before verified.now series.old.inputs) }
{
    let mut snapshots = Vec::new(alloc);
    let first = copied(alloc, &series.inputs.maps)?;
    let others = run_often(verified, &mut series.inputs, series.before);
    let last = trace_once(verified, &mut series.inputs, &mut snapshots)?;
    let (Some(()), Some(ran)) = (others, last) else {
        return Ok(Answered::Words(String::from_str(
            alloc,
            "the inputs are not those of the hook",
        )?));
    };
    let inputs = &series.inputs;
    let is_traced = words.report.is_traced;
    let executed = executed_text(alloc, is_traced, policy, verified, snapshots.as_slice())?;
    let changes = changed_text(alloc, first.as_slice(), inputs, &ran)?;
    let tail = AnswerTail {
        executed: &executed,
        changes: &changes,
        line,
    };
    let text = reported(alloc, verified, inputs, &ran, &tail)?;
    Ok(Answered::Done(text))
}

/// Writes what runs changed of the first bytes of maps, and the calls of the last run.
fn changed_text(
    alloc: Global,
    first: &[Vec<u8>],
    inputs: &Inputs,
    ran: &Ran,
) -> Result<String, AllocError>
    ensures { IfOk result (λ text. string_bytes text ≡ changes_text (with_contents inputs.now.maps first.now) inputs.now.maps ++ calls_text ran.now.calls.items) }
{
    let mut changes = String::new(alloc);
    write_changes(alloc, first, inputs, &mut changes)?;
    write_calls(ran.calls.as_slice(), &mut changes)?;
    Ok(changes)
}

/// What is shown after the answer of a run.
#[derive(Clone, Copy)]
struct AnswerTail<'a> {
    /// The instructions that it executed, if that is asked for.
    executed: &'a String,
    /// What it changed.
    changes: &'a String,
    /// How long runs take, if that is asked for.
    line: &'a String,
}

/// Writes what the run answered, what the rule says of that, and how many instructions it took; and what is shown after that.
fn reported(
    alloc: Global,
    verified: &Verified,
    inputs: &Inputs,
    ran: &Ran,
    tail: &AnswerTail,
) -> Result<String, AllocError>
    requires { length inputs.now.context.items ≡ context_length_of verified.now.hook verified.now.version }
    ensures { IfOk result (λ text. ReportsRun verified.now inputs.now.context.items ran.now.r0 ran.now.steps
        (string_bytes tail.now.executed.now) (string_bytes tail.now.changes.now) (string_bytes tail.now.line.now) (string_bytes text)) }
{
    let r0 = ran.r0;
    let word = word_text(alloc, verified.hook(), inputs.context.as_slice(), r0)?;
    let first = answer_line(alloc, verified, r0, ran.steps, &word)?;
    let AnswerTail {
        executed,
        changes,
        line,
    } = tail;
    format!(in alloc; "{first}{executed}{changes}{line}")
}

/// Says what the run answered, that word on it, and how many instructions it took.
fn answer_line(
    alloc: Global,
    verified: &Verified,
    r0: u64,
    steps: u32,
    word: &String,
) -> Result<String, AllocError>
    ensures { IfOk result (λ text. string_bytes text ≡ answer_line r0 (string_bytes word.now) steps verified.now.budget) }
{
    let budget = verified.budget();
    format!(in alloc; "r0 {r0} (0x{r0:x})  {word}  steps {steps} of {budget}\n")
}
