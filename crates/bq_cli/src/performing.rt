//! What is read and written for a command, by any reader and writer.
ghost use Rattle.std.specs.Prelude.{◌≡◌, IfOk, IfErr, OnOk, OnErr};
ghost use Rattle.bq_streams.specs.Counts.{counted_inner, failures_of};
ghost use Rattle.bq_cli.specs.Filtering.{IsFaultOf};
ghost use Rattle.bq_cli.specs.Performing.{PerformsCommand, PerformsInPart};

use crate::check::is_plain_check;
use crate::command::Command;
use crate::dis::is_plain_dis;
use crate::filter::{Filter, answer_all, filter_asm};
use crate::par::perform_par;
use bq_streams::{Counted, StreamFault};
use bq_trace::replay;
use std::alloc::Global;
use std::io::{Read, Write};
use std::sync::Wait;
use std::thread::Threads;

/// Performs `asm`, `par` and `replay`, and `check` and `dis` without file and options. Returns false if something was refused,
/// or a line was bad. The caller opens the files that words name, and `input` is what it opened. Any other command reads
/// nothing, writes nothing and answers false; `do_command` does those.
///
/// Only `par` starts threads and waits for locks: of it the promise holds if it returns.
pub fn perform<T: Threads + Wait + Sync, R: Read, W: Write>(
    rt: &T,
    alloc: Global,
    command: &Command,
    input: &mut Counted<R>,
    output: &mut Counted<W>,
) -> Result<bool, StreamFault>
    ensures ok { IfOk result (PerformsCommand command.now (R.remaining (counted_inner input.old)) (R.remaining (counted_inner input.new))
        (W.contents (counted_inner output.old)) (W.contents (counted_inner output.new))) }
    ensures reads { OnOk result (failures_of input.new ≡ failures_of input.old) }
    ensures writes { OnOk result (failures_of output.new ≡ failures_of output.old) }
    ensures part { OnErr result (PerformsInPart command.now (R.remaining (counted_inner input.old)) (R.remaining (counted_inner input.new))
        (W.contents (counted_inner output.old)) (W.contents (counted_inner output.new))) }
    ensures fault { IfErr result (IsFaultOf input.old input.new output.old output.new) }
{
    match command {
        Command::Asm(words) => filter_asm(alloc, &words.options, input, output),
        Command::Check(words) => {
            if !is_plain_check(words) {
                return Ok(false);
            }
            answer_all(alloc, &Filter::Check, input, output)
        }
        Command::Dis(words) => {
            if !is_plain_dis(words) {
                return Ok(false);
            }
            answer_all(alloc, &Filter::Dis, input, output)
        }
        Command::Par(parallel) => perform_par(rt, alloc, parallel, output),
        Command::Replay(_) => replay(alloc, input, output),
        Command::Run(_) | Command::Import(_) | Command::Timeline(_) | Command::Simulate(_) => {
            Ok(false)
        }
    }
}
