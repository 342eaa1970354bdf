//! The answer to a policy's file, and the exit status.
ghost use Rattle.std.specs.Prelude.{◌≡◌, ◌⊎◌};
ghost use Rattle.std.specs.Process.{exit_status as status};
ghost use Rattle.bq_console.specs.Status.{EndsFailed};
ghost use Rattle.bq_cli.specs.Status.{answer_status};

use bq_console::status::{BAD_INPUT, BAD_WORDS};
use bq_console::{Lines, OUT_OF_MEMORY, report_out_of_memory, written};
use bq_policy_check::Answered;
use std::alloc::AllocError;
use std::process::ExitCode;

/// Returns the exit status of an answer: 0 if it is done, 1 if the policy is refused, 2 if the words are, 3 if memory ran out.
pub fn exit_status_of(answer: &Result<Answered, AllocError>) -> u8
    ensures { result ≡ answer_status answer.now }
{
    match answer {
        Ok(Answered::Done(_)) => 0,
        Ok(Answered::Refused(_)) => BAD_INPUT,
        Ok(Answered::Words(_)) => BAD_WORDS,
        Err(_) => OUT_OF_MEMORY,
    }
}

/// Writes an answer: to standard output what was done or is refused, to standard error what is wrong with the words.
pub fn written_answer(rt: &HostRuntime, answer: &Result<Answered, AllocError>) -> ExitCode
    // It ends by the exit status of the answer, unless that can't be written.
    ensures { (status result ≡ answer_status answer.now) ⊎ EndsFailed result }
{
    match answer {
        Ok(Answered::Done(text) | Answered::Refused(text)) => {
            written(rt, text.as_str(), ExitCode::from(exit_status_of(answer)))
        }
        Ok(Answered::Words(why)) => {
            let why = Lines(why.as_str());
            let _ = eprintln!(rt; "error: {why}");
            ExitCode::from(exit_status_of(answer))
        }
        Err(_) => report_out_of_memory(rt),
    }
}
