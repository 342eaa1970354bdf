//! Commands and their options as tables, and as clap takes them.
ghost use Rattle.std.specs.Prelude.{◌≡◌, [], IfErr, IfOk, IfSome, None, Some, false, map, true};
ghost use Rattle.clap.specs.Words.{HasMatchesOf, app_of, fault_of as faults_in, is_simple_and_free, rule_of, takes};
ghost use Rattle.clap.specs.declared.builder.command.Command.TheViews.{out-Command as fields_of};
ghost use Rattle.bq_console.specs.Tables.{shape_of_command, empty_program, option_of, options_of, with_commands, with_rules};

use crate::fault::WordsFault;
use crate::refused::fault_of;
use clap::{Arg, ArgAction, ArgMatches, Command};
use std::alloc::{AllocError, Global};

/// How an option is given.
#[derive(Clone, Copy)]
pub enum Given {
    /// As a word without the option's name. The text names the value on a help page.
    Alone(&'static str),
    /// As several words without the option's name. The text names the value on a help page.
    Several(&'static str),
    /// By its name, and then one value.
    Once(&'static str),
    /// By its name, and then one value. It may not be left out.
    Needed(&'static str),
    /// Several times, each time by its name and one value.
    Often(&'static str),
    /// By its name, without a value.
    Flag,
}

/// An option, with what its help page says of it.
#[derive(Clone, Copy)]
pub struct OptionText {
    pub name: &'static str,
    pub given: Given,
    pub help: &'static str,
    /// The heading under which its help page shows it, if it has one.
    pub heading: Option<&'static str>,
}

/// A command, with what its help page says of it.
#[derive(Clone, Copy)]
pub struct CommandText<'a> {
    pub name: &'static str,
    pub about: &'static str,
    /// Its options, table after table.
    pub options: &'a [&'a [OptionText]],
    /// What its help page ends with: examples of the command, and where more is said.
    pub examples: &'static str,
}

/// An option.
fn option<'a>(alloc: Global, text: &OptionText) -> Arg<'a>
    ensures rule { rule_of result ≡ option_of text.now }
    ensures local { result.global ≡ false }
{
    let option = Arg::new(alloc, text.name).help(text.help);
    let option = below(text.heading, option);
    match &text.given {
        Given::Alone(value) => option.value_name(value),
        Given::Several(value) => option.value_name(value).action(ArgAction::Append),
        Given::Once(value) => option.long(text.name).value_name(value),
        Given::Needed(value) => option.long(text.name).value_name(value).required(true),
        Given::Often(value) => option
            .long(text.name)
            .value_name(value)
            .action(ArgAction::Append),
        Given::Flag => option.long(text.name).action(ArgAction::SetTrue),
    }
}

/// An option that its help page shows below this heading, if there is one.
fn below<'a>(heading: Option<&'static str>, option: Arg<'a>) -> Arg<'a>
    ensures rest { result ≡ record option.entry { help_heading = result.help_heading } }
    ensures none { heading.entry ≡ None → result.help_heading ≡ option.entry.help_heading }
    ensures heading { IfSome heading.entry (λ h. result.help_heading ≡ Some (Some h)) }
{
    match heading {
        Some(heading) => option.help_heading(heading),
        None => option,
    }
}

/// A command with these options more.
fn with_options<'a>(
    alloc: Global,
    command: Command<'a>,
    options: &[OptionText],
) -> Result<Command<'a>, AllocError>
    ensures app { IfOk result (λ c. app_of c ≡ with_rules (app_of command.entry) (map option_of options.now)) }
    ensures globals { IfOk result (λ c. (fields_of c).has_globals ≡ (fields_of command.entry).has_globals) }
{
    let mut command = command;
    'options: for text in options {
        command = command.arg(option(alloc, text))?;
    }
    Ok(command)
}

/// A command with the options of these tables more.
fn with_tables<'a>(
    alloc: Global,
    command: Command<'a>,
    tables: &[&[OptionText]],
) -> Result<Command<'a>, AllocError>
    ensures app { IfOk result (λ c. app_of c ≡ with_rules (app_of command.entry) (options_of tables.now)) }
    ensures globals { IfOk result (λ c. (fields_of c).has_globals ≡ (fields_of command.entry).has_globals) }
{
    let mut command = command;
    'tables: for table in tables {
        command = with_options(alloc, command, table)?;
    }
    Ok(command)
}

/// A command, with its options.
fn command<'a>(alloc: Global, text: &CommandText<'_>) -> Result<Command<'a>, AllocError>
    ensures shape { IfOk result (λ c. (app_of c).top ≡ shape_of_command text.now) }
    ensures local { IfOk result (λ c. (fields_of c).has_globals ≡ false) }
{
    let command = Command::new(alloc, text.name)
        .about(text.about)
        .after_help(text.examples);
    with_tables(alloc, command, text.options)
}

/// The program without commands. Words come without its name, and one of them has to be a command. Its help page ends with the
/// examples.
pub fn program<'a>(
    alloc: Global,
    about: &'static str,
    version: &'static str,
    examples: &'static str,
) -> Result<Command<'a>, AllocError>
    ensures { IfOk result (λ c. app_of c ≡ empty_program) }
{
    Command::new(alloc, "bqsim")
        .about(about)
        .version(version)
        .after_help(examples)
        .no_binary_name(true)
        .subcommand_required(true)
        .arg_required_else_help(true)
        .bin_name("bqsim")
}

/// A program with these commands more.
pub fn with_commands<'a>(
    alloc: Global,
    program: Command<'a>,
    texts: &[CommandText<'_>],
) -> Result<Command<'a>, AllocError>
    ensures { IfOk result (λ p. app_of p ≡ with_commands (app_of program.entry) (map shape_of_command texts.now)) }
{
    let mut program = program;
    'commands: for text in texts {
        program = program.subcommand(command(alloc, text)?)?;
    }
    Ok(program)
}

/// What clap finds in words, by its own rules for the command.
pub fn found_in<'a>(
    alloc: Global,
    command: Command<'a>,
    given: &'a [&'a str],
) -> Result<ArgMatches<'a>, WordsFault>
    ensures matches { IfOk result (HasMatchesOf (app_of command.entry) (map (λ w. w.now) given.entry.now)) }

    // Words are taken only if clap finds no fault in them.
    ensures faultless { is_simple_and_free (app_of command.entry) ≡ true → IfOk result (λ _. faults_in (app_of command.entry) (map (λ w. w.now) given.entry.now) ≡ []) }

    // Words that clap takes are refused only if memory runs out.
    ensures taken { IfErr result (λ e. takes (app_of command.entry) (map (λ w. w.now) given.entry.now) ≡ true → e ≡ WordsFault.OutOfMemory) }
{
    match command.try_get_matches_from(given) {
        Ok(matches) => Ok(matches),
        Err(error) => Err(fault_of(alloc, &error)),
    }
}
