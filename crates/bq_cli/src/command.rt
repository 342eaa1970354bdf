//! The command that words ask for.
ghost use Rattle.std.specs.Prelude.{◌≡◌, [], IfOk, IfErr, map, true};
ghost use Rattle.clap.specs.Words.{fault_of, takes, subcommand_of, subcommand_rows_of};
ghost use Rattle.bq_cli.specs.BqsimApp.{bqsim_app};
ghost use Rattle.bq_cli.specs.Commands.{IsCommand, IsCommandIn};
ghost use Rattle.bq_cli.specs.Words.{OnlyMemoryFails};
ghost use Rattle.bq_cli.specs.declared.command.Command.{Command as CommandValue};

use crate::asm::{AsmWords, asm_words};
use crate::check::check_words;
use crate::dis::dis_words;
use crate::import::import_words;
use crate::par::{ParWords, par_words};
use crate::replaying::{ReplayWords, replay_words};
use crate::run::run_words;
use crate::simulate::{SimulateWords, simulate_words};
use crate::tables::program;
use crate::timeline::{TimelineWords, timeline_words};
use bq_console::{WordsFault, found_in, words_fault};
use bq_policy_check::{CheckWords, DisWords, PolicyWords, RunWords};
use clap::ArgMatches;
use std::alloc::Global;

/// What the program is asked to do.
#[derive(Drop)]
pub enum Command {
    /// Assembles a text.
    Asm(AsmWords),
    /// Says whether a policy is accepted.
    Check(CheckWords),
    /// Lists a policy, or a program.
    Dis(DisWords),
    /// Runs a policy once.
    Run(RunWords),
    /// Writes a compiled program as an assembler text.
    Import(PolicyWords),
    /// Runs processors by threads of their own, and writes how long their history is.
    Par(ParWords),
    /// Reads a trace and writes what answers it.
    Replay(ReplayWords),
    /// Shows the schedule of a trace.
    Timeline(TimelineWords),
    /// Runs a workload, and shows it.
    Simulate(SimulateWords),
}

/// Reads the words after the program's name. A fault is either a text for standard error (what is wrong with the words, the help that
/// they ask for, or the version), or that memory ran out.
pub fn job<'a>(alloc: Global, words: &'a [&'a str]) -> Result<Command, WordsFault>
    // The command and its values are those that clap finds in the words.
    ensures ok { IfOk result (IsCommand (map (λ w. w.now) words.entry.now)) }

    // Words are taken only if clap finds no fault in them.
    ensures faultless { IfOk result (λ _. fault_of bqsim_app (map (λ w. w.now) words.entry.now) ≡ []) }

    // Words that clap takes, and that are those of a command, are refused only if memory runs out.
    ensures taken { IfErr result (λ e. takes bqsim_app (map (λ w. w.now) words.entry.now) ≡ true
        → (command : CommandValue) → IsCommand (map (λ w. w.now) words.entry.now) command → e ≡ WordsFault.OutOfMemory) }
{
    let matches = found(alloc, words)?;
    command_in(alloc, &matches)
}

/// Returns what clap finds in the words.
fn found<'a>(alloc: Global, words: &'a [&'a str]) -> Result<ArgMatches<'a>, WordsFault>
    ensures ok { IfOk result (λ m. subcommand_rows_of m ≡ subcommand_of bqsim_app (map (λ w. w.now) words.entry.now)) }
    ensures faultless { IfOk result (λ _. fault_of bqsim_app (map (λ w. w.now) words.entry.now) ≡ []) }
    ensures taken { IfErr result (λ e. takes bqsim_app (map (λ w. w.now) words.entry.now) ≡ true → e ≡ WordsFault.OutOfMemory) }
{
    let command = program(alloc)?;
    found_in(alloc, command, words)
}

/// Returns the command that clap found, with its values.
fn command_in(alloc: Global, matches: &ArgMatches<'_>) -> Result<Command, WordsFault>
    ensures ok { IfOk result (IsCommandIn (subcommand_rows_of matches.now)) }
    ensures taken { IfErr result (OnlyMemoryFails (IsCommandIn (subcommand_rows_of matches.now))) }
{
    if let Some(matches) = matches.subcommand_matches("asm") {
        return Ok(Command::Asm(asm_words(alloc, matches)?));
    }
    if let Some(matches) = matches.subcommand_matches("check") {
        return Ok(Command::Check(check_words(alloc, matches)?));
    }
    if let Some(matches) = matches.subcommand_matches("dis") {
        return Ok(Command::Dis(dis_words(alloc, matches)?));
    }
    if let Some(matches) = matches.subcommand_matches("run") {
        return Ok(Command::Run(run_words(alloc, matches)?));
    }
    if let Some(matches) = matches.subcommand_matches("import") {
        return Ok(Command::Import(import_words(alloc, matches)?));
    }
    if let Some(matches) = matches.subcommand_matches("par") {
        return Ok(Command::Par(par_words(alloc, matches)?));
    }
    if let Some(matches) = matches.subcommand_matches("replay") {
        return Ok(Command::Replay(replay_words(alloc, matches)?));
    }
    if let Some(matches) = matches.subcommand_matches("timeline") {
        return Ok(Command::Timeline(timeline_words(alloc, matches)?));
    }
    if let Some(matches) = matches.subcommand_matches("simulate") {
        return Ok(Command::Simulate(simulate_words(alloc, matches)?));
    }
    Err(no_command(alloc))
}

/// Makes the fault of words with no command. clap refuses these itself.
fn no_command(alloc: Global) -> WordsFault {
    words_fault(String::from_str(
        alloc,
        "error: a command is needed; bqsim --help lists them\n",
    ))
}
