//! The commands and all their options: what clap takes, and what the help pages, the man page and the completion say. Help lists the
//! commands in this order: first those that a newcomer needs.
ghost use Rattle.std.specs.Prelude.{◌≡◌, IfOk};
ghost use Rattle.clap.specs.Words.{app_of};
ghost use Rattle.bq_console.specs.Tables.{with_commands};
ghost use Rattle.bq_cli.specs.BqsimApp.{bqsim_app, other_commands, policy_commands, schedule_commands};

use crate::with_ticks;
use bq_bpf::with_helper;
use bq_console::tables::Given::{Alone, Flag, Needed, Often, Once, Several};
use bq_console::{CommandText, OptionText, with_commands};
use bq_drawing::with_themes;
use bq_hooks::{with_hooks, with_versions};
use bq_timeline::{with_columns, with_forms};
use bq_words::{with_disciplines, with_sizes};
use clap::Command;
use std::alloc::{AllocError, Global};

/// The version of the program, which `--version` writes.
pub const VERSION: &str = "0.2.0";

/// A table of options: of each its name, how it is given, and what its help page says. The heading under which the page shows
/// them comes first, if they have one.
macro_rules! options {
    ($(($name:literal, $given:expr, $help:expr)),*) => {
        &[$(OptionText {
            name: $name,
            given: $given,
            help: $help,
            heading: None,
        }),*]
    };
    ($heading:expr; $(($name:literal, $given:expr, $help:expr)),*) => {
        &[$(OptionText {
            name: $name,
            given: $given,
            help: $help,
            heading: Some($heading),
        }),*]
    };
}

/// The heading of the options for the part of a schedule that is shown, and for how it is shown.
const SHOWN: &str = "What is shown";

/// The end of a help page: examples, a line each, and then where more is said. Other lines may come before them. The examples run in the folder of the
/// repository.
macro_rules! examples {
    ($($line:literal),*; $($more:literal),*) => {
        concat!("Examples:" $(, "\n  ", $line)*, "\n\nMore:" $(, "\n  ", $more)*)
    };
    ($($before:literal),*; $($line:literal),*; $($more:literal),*) => {
        concat!($($before, "\n",)* "\nExamples:" $(, "\n  ", $line)*, "\n\nMore:" $(, "\n  ", $more)*)
    };
}

/// The end of a help page of a command that shows schedules: what its forms are, and then as above. The first text is about a form
/// that only one command has.
macro_rules! forms_and_examples {
    ($form:literal; $($line:literal),*; $($more:literal),*) => {
        concat!(
            "Forms:",
            "\n  report    Tables of tasks, latencies, processors, policies and bounds",
            $form,
            "\n  map       For a terminal: a row for each processor, a letter for each task",
            "\n  timehist  A line for each run of a task, in the columns of perf sched timehist",
            "\n  why       Each choice: the tasks from which it was made, and why this one runs",
            "\n  svg       A picture for a browser or a slide",
            "\n  perfetto  A file to open at https://ui.perfetto.dev",
            "\n  csv       A row for each stretch that a task ran from one clock reading to the next",
            "\n  json      The figures of the report in full, without its bounds",
            "\n\nExamples:" $(, "\n  ", $line)*, "\n\nMore:" $(, "\n  ", $more)*
        )
    };
}

/// The text of `asm`, and the image that it is assembled to.
const ASM_OPTIONS: &[OptionText] = options! {
    ("file", Alone("FILE"), "The assembler text; without it, or with -, standard input is read"),
    ("hook", Once("HOOK"), with_hooks!("Writes an image for this hook: ")),
    ("maps", Once("MAPS"), "With --hook, the bytes of a value and the entries of each map, as in 8:2,16:4; the default is no maps"),
    ("format", Once("FORMAT"), with_versions!("With --hook, the version of the image: ", " (the default) or ", ""))
};

/// The file of the policy that is run.
const RUN_FILE: &[OptionText] = options! {
    ("file", Alone("FILE"), "The policy: an image, its hex, or assembler text with ;@ lines; without it, or with -, standard input is read")
};

/// The file of the policy that is listed.
const DIS_FILE: &[OptionText] = options! {
    ("file", Alone("FILE"), "The policy: an image, its hex, or assembler text with ;@ lines; - or no file is standard input (without any option, only hex)")
};

/// The files of the policies that are judged.
const CHECK_FILES: &[OptionText] = options! {
    ("file", Several("FILE"), "Policies: images, their hex, or assembler texts with ;@ lines; - or no file is standard input (without any option, only hex)")
};

/// What help says of a limit on files that are read whole.
const MAX_BYTES: &str =
    "Refuses, with status 4, a file of more than N bytes; the default is 16777216 (16 MiB)";

/// How much is read of a file that is read whole.
const READING_OPTIONS: &[OptionText] = options! {
    ("max-bytes", Once("N"), MAX_BYTES)
};

/// How much is read of a trace.
const TRACE_READING_OPTIONS: &[OptionText] = options! {
    ("max-bytes", Once("N"), "Stops, with status 4, at a trace of more than N bytes; the default is no limit")
};

/// How much `simulate` reads, and how long its runs are.
const LIMIT_OPTIONS: &[OptionText] = options! {
    "Limits";
    ("max-bytes", Once("N"), MAX_BYTES),
    ("max-events", Once("N"), "Stops, with status 4, at a run of more than N events; the default is no limit")
};

/// What the file of a policy leaves unsaid.
const POLICY_OPTIONS: &[OptionText] = options! {
    ("hook", Once("HOOK"), with_hooks!("The policy's hook, if the file does not say it: ")),
    ("maps", Once("MAPS"), "The bytes of a value and the entries of each map, if the file does not say them, as in 8:2,16:4; the default is no maps"),
    ("format", Once("FORMAT"), with_versions!("The version of the image, if the file does not say it: ", " (the default) or ", ""))
};

/// What `check` answers, and what it refuses.
const CHECK_OPTIONS: &[OptionText] = options! {
    ("explain", Flag, "Explains the verdict: for a refused policy its line, what is missing, what is known there and what helps"),
    ("json", Flag, "Writes the answer to each file and its explanation as one line of JSON"),
    ("max-steps", Once("N"), "Refuses a policy of which a run may take more than N instructions"),
    ("helpers", Once("LIST"), "Refuses a policy that calls a helper whose number is not one of these, as in 1,2,5,8"),
    ("hooks", Once("LIST"), "Refuses a policy for a hook other than these, as in place,pull"),
    ("max-maps", Once("N"), "Refuses a policy with more than N maps"),
    ("max-map-bytes", Once("N"), "Refuses a policy whose maps have more than N bytes in all"),
    ("max-counters", Once("N"), "Refuses a policy with more than N instructions that call a counter"),
    ("image", Once("OUT"), "Writes the image of the policy to this file, if the policy is accepted; only one policy may be given")
};

/// What `dis` writes.
const DIS_OPTIONS: &[OptionText] = options! {
    ("slots", Flag, "Writes the slot and the bytes of each instruction beside it, as a comment")
};

/// What a run begins with.
const INPUT_OPTIONS: &[OptionText] = options! {
    ("ctx", Once("HEX"), "The whole context, in hex; the default is all 0"),
    ("set", Often("FIELDS"), "Fields of the context by their names, as in task=3,mask=0x6,previous=none; a wrong name lists them; you may repeat it"),
    ("map", Often("ENTRY"), "The first bytes of an entry, in hex, as in 0:2=0a00 for entry 2 of map 0; the others are 0; you may repeat it"),
    ("time", Once("T"), with_helper!(NOW, "The time that helper ", " answers: nanoseconds, or a number with its unit, as in 1500us, 1.5ms or 2s; the default is 0")),
    ("processor", Once("P"), with_helper!(PROCESSOR, "The processor that helper ", " answers; the default is 0")),
    ("counter", Often("COUNTER"), "The value of a counter before the run, as in 3=10 for counter 3; the default is 0; you may repeat it")
};

/// How a run is reported.
const RUN_OPTIONS: &[OptionText] = options! {
    ("trace", Flag, "Writes each instruction that the run executes, its place and the registers that it changes"),
    ("repeat", Once("N"), "Runs the policy N times, each on what the run before left, and shows the last run, changed entries and mean time")
};

/// The program of `import`, and the image that it is for.
const IMPORT_OPTIONS: &[OptionText] = options! {
    ("file", Alone("FILE"), "The object file, or the bytes or the hex of its text section; without it, or with -, standard input is read"),
    ("hook", Needed("HOOK"), with_hooks!("The policy's hook: ")),
    ("maps", Once("MAPS"), "The bytes of a value and the entries of each map, as in 8:2,16:4; the default is no maps"),
    ("format", Once("FORMAT"), with_versions!("The version of the image: ", " (the default) or ", ""))
};

/// What `par` runs.
const PAR_OPTIONS: &[OptionText] = options! {
    ("rule", Needed("RULE"), with_disciplines!("The discipline by which processors choose: ")),
    ("processors", Needed("PROCESSORS"), with_sizes!("How many processors there are: ")),
    ("ticks", Needed("TICKS"), with_ticks!("How many times each processor ticks: "))
};

/// The trace of `replay` and `timeline`.
const TRACE_FILE: &[OptionText] = options! {
    ("file", Alone("FILE"), "The trace; without it, or with -, standard input is read")
};

/// The form of `timeline`.
const TIMELINE_FORM: &[OptionText] = options! {
    SHOWN;
    ("as", Once("FORM"), with_forms!("The form, as listed below: report (the default), "))
};

/// The part of a schedule that is shown.
const PART_OPTIONS: &[OptionText] = options! {
    SHOWN;
    ("from", Once("TIME"), "Shows only what happens from this time on, as in 1500us, 1.5ms or 2s; not for report or json"),
    ("to", Once("TIME"), "Shows only what happens up to this time; not for report or json"),
    ("cpus", Once("LIST"), "Shows only these processors, as in 0-3,8"),
    ("tasks", Once("LIST"), "Shows only these tasks, as in 1-3,editor: numbers, ranges, and names that do not begin with a digit"),
    ("width", Once("COLUMNS"), with_columns!("How wide a map may be, in columns; the default is ", "")),
    ("theme", Once("THEME"), with_themes!("How an svg looks: light (the default), ")),
    ("title", Once("TEXT"), "The title above an svg")
};

/// The workload of `simulate`.
const WORKLOAD_FILE: &[OptionText] = options! {
    ("file", Alone("FILE"), "The workload; without it, or with -, standard input is read")
};

/// What replaces parts of a workload's own machine, and its seed.
const MACHINE_OPTIONS: &[OptionText] = options! {
    "Machine";
    ("discipline", Once("DISCIPLINE"), with_disciplines!("The discipline by which processors choose: ", "; the default is the workload's, or else cfs")),
    ("processors", Once("P"), with_sizes!("How many processors there are: ", "; the default is the workload's, or else 1")),
    ("duration", Once("TIME"), "How long it runs in simulated time, as in 1500us, 1.5ms or 2s; the default is the workload's, or else 100ms"),
    ("seed", Once("N"), "The seed from which random lengths are drawn; the default is the workload's, or else 1")
};

/// The policies of `simulate`.
const HOOK_OPTIONS: &[OptionText] = options! {
    "Policies, each a file that bqsim check accepts, or none (the default) for the discipline's own choice";
    ("place", Once("POLICY"), "Decides where a woken task goes"),
    ("preempt", Once("POLICY"), "Decides whether the running task gives way"),
    ("pull", Once("POLICY"), "Decides which task another processor pulls")
};

/// The seeds of `simulate`, and the policies that its own are compared with.
const COMPARING_OPTIONS: &[OptionText] = options! {
    "Several runs";
    ("seeds", Once("N"), "Runs the workload with N seeds, counted up from its own, and shows means and standard deviations"),
    ("against", Often("POLICY"), "Runs the same seeds again with this policy or none instead, and shows both; repeat it for another hook")
};

/// The form of `simulate`.
const SIMULATE_FORM: &[OptionText] = options! {
    SHOWN;
    ("as", Once("FORM"), with_forms!("The form, as listed below: report (the default), trace, "))
};

/// The commands that show schedules.
static SCHEDULE_COMMANDS: [CommandText<'static>; 2] = [
    CommandText {
        name: "simulate",
        about: "Runs a workload and shows its schedule; also tries and compares policies",
        options: &[
            WORKLOAD_FILE,
            MACHINE_OPTIONS,
            HOOK_OPTIONS,
            COMPARING_OPTIONS,
            SIMULATE_FORM,
            PART_OPTIONS,
            LIMIT_OPTIONS,
        ],
        examples: forms_and_examples![
            "\n  trace     The events of the whole run, for replay and timeline to read";
            "bqsim simulate workloads/desktop.toml",
            "bqsim simulate --discipline eevdf --as map --to 100ms workloads/desktop.toml",
            "bqsim simulate --as svg --to 100ms workloads/desktop.toml > desktop.svg",
            "bqsim simulate --preempt policies/heavier_first.s examples/lab/editor.toml",
            "bqsim simulate --seeds 10 --preempt policies/heavier_first.s --against none examples/lab/editor.toml";
            "docs/WORKLOADS.md  What a workload may say",
            "docs/TIMELINE.md   Each form, and how to read it",
            "docs/SEEDS.md      Several runs, and whether a difference is more than chance"
        ],
    },
    CommandText {
        name: "timeline",
        about: "Shows the schedule of a trace: as tables, a map or a picture, or with the reason for each choice",
        options: &[
            TRACE_FILE,
            TIMELINE_FORM,
            TRACE_READING_OPTIONS,
            PART_OPTIONS,
        ],
        examples: forms_and_examples![
            "";
            "bqsim timeline examples/four_tasks_cfs.trace",
            "bqsim timeline --as map --width 60 examples/four_tasks_eevdf.trace",
            "bqsim timeline --as svg examples/four_tasks_eevdf.trace > four_tasks.svg",
            "bqsim timeline --as why --tasks 1-2 examples/why.trace";
            "docs/TIMELINE.md  Each form, and how to read it",
            "docs/TRACE.md     The lines of a trace"
        ],
    },
];

/// The commands that try policies.
static POLICY_COMMANDS: [CommandText<'static>; 2] = [
    CommandText {
        name: "check",
        about: "Says whether policies are safe to run, and with --explain why one is refused",
        options: &[CHECK_FILES, POLICY_OPTIONS, READING_OPTIONS, CHECK_OPTIONS],
        examples: examples![
            "bqsim check --explain policies/keep_home.s",
            "bqsim check --json --max-steps 100 policies/keep_home.s policies/heaviest.s";
            "docs/POLICIES.md  What a policy can do, and what each answer means",
            "docs/REFUSALS.md  Why policies are refused, and what helps",
            "docs/BPF.md       The helpers and their numbers"
        ],
    },
    CommandText {
        name: "run",
        about: "Runs a policy once on values that you choose: its answer, whether that is permitted, and what it changed",
        options: &[
            RUN_FILE,
            POLICY_OPTIONS,
            READING_OPTIONS,
            INPUT_OPTIONS,
            RUN_OPTIONS,
        ],
        examples: examples![
            "bqsim run --set task=3,mask=0x6,processors=4,previous=1 policies/keep_home.s",
            "bqsim run --trace policies/heavier_first.s",
            "bqsim run --repeat 4 --map 0:0=05 policies/every_fourth_tick.s";
            "docs/CONTEXTS.md  The fields of each context, and which answers are permitted",
            "docs/POLICIES.md  How to read the output"
        ],
    },
];

/// The commands that answer a trace, turn one form of a policy into another, or run threads.
static OTHER_COMMANDS: [CommandText<'static>; 5] = [
    CommandText {
        name: "replay",
        about: "Writes the scheduler's reply to each line of a trace",
        options: &[TRACE_FILE, TRACE_READING_OPTIONS],
        examples: examples![
            "bqsim replay examples/four_tasks_cfs.trace",
            "bqsim simulate --as trace workloads/desktop.toml | bqsim replay";
            "docs/TRACE.md  The lines of a trace, and their replies"
        ],
    },
    CommandText {
        name: "asm",
        about: "Assembles the text of a policy to hex: its program, or with --hook its image",
        options: &[ASM_OPTIONS, READING_OPTIONS],
        examples: examples![
            "bqsim asm policies/heaviest.s",
            "bqsim asm --hook place --format 2 policies/keep_home.s";
            "docs/ASSEMBLER.md  The instructions as text",
            "docs/IMAGE.md      The bytes of an image"
        ],
    },
    CommandText {
        name: "dis",
        about: "Lists a policy of any form as assembler text",
        options: &[DIS_FILE, POLICY_OPTIONS, READING_OPTIONS, DIS_OPTIONS],
        examples: examples![
            "bqsim dis policies/keep_home.s",
            "bqsim dis --slots policies/heaviest.s";
            "docs/ASSEMBLER.md  The instructions as text",
            "docs/POLICIES.md   The forms of a policy"
        ],
    },
    CommandText {
        name: "import",
        about: "Turns a policy that clang compiled into assembler text",
        options: &[IMPORT_OPTIONS, READING_OPTIONS],
        examples: examples![
            "bqsim asm policies/keep_home.s | bqsim import --hook place",
            "bqsim asm policies/every_fourth_tick.s | bqsim import --hook preempt --maps 8:1";
            "docs/POLICIES_IN_C.md  How to write and compile a policy in C"
        ],
    },
    CommandText {
        name: "par",
        about: "Runs each processor in a thread of its own, and counts the events of their one history",
        options: &[PAR_OPTIONS],
        examples: examples![
            "bqsim par --rule cfs --processors 4 --ticks 1000",
            "bqsim par --rule eevdf --processors 2 --ticks 10";
            "docs/MACHINE.md  The scheduler for threads"
        ],
    },
];

/// Builds the program with its commands. The words come without its name.
pub fn program<'a>(alloc: Global) -> Result<Command<'a>, AllocError>
    ensures { IfOk result (λ c. app_of c ≡ bqsim_app) }
{
    let program = bq_console::program(
        alloc,
        "Simulates a multiprocessor scheduler like Linux's CFS or EEVDF, whose choices small BPF programs can make",
        VERSION,
        examples![
            "Words:",
            "  workload  A TOML text that says what tasks do; simulate works out when they do it",
            "  trace     A text with an event on each line, such as a wake or a tick of a clock",
            "  policy    A small BPF program that chooses at one hook:",
            "            place    where a woken task goes",
            "            preempt  whether the running task gives way",
            "            pull     which task another processor takes",
            "",
            "Exit status:",
            "  0  All is well",
            "  1  What was read is refused: a policy, a text, a workload or a line of a trace",
            "  2  A command, an option or its value is wrong, or you asked for help",
            "  3  Memory ran out",
            "  4  A read or a write failed, a file can't be opened, or a limit is passed";
            "bqsim simulate workloads/desktop.toml",
            "bqsim simulate --as svg --to 100ms workloads/desktop.toml > desktop.svg",
            "bqsim timeline --as map examples/four_tasks_cfs.trace",
            "bqsim check --explain policies/keep_home.s",
            "bqsim simulate --seeds 10 --preempt policies/heavier_first.s --against none examples/lab/editor.toml";
            "bqsim COMMAND --help  The options, defaults and examples of a command; begin with simulate",
            "docs/GUIDE.md         A tour, task by task",
            "docs/bqsim.1          The man page: man -l docs/bqsim.1"
        ],
    )?;
    let program = with_schedule_commands(alloc, program)?;
    let program = with_policy_commands(alloc, program)?;
    with_other_commands(alloc, program)
}

/// Adds the commands on schedules to the program.
fn with_schedule_commands<'a>(
    alloc: Global,
    program: Command<'a>,
) -> Result<Command<'a>, AllocError>
    ensures { IfOk result (λ c. app_of c ≡ with_commands (app_of program.entry) schedule_commands) }
{
    with_commands(alloc, program, &SCHEDULE_COMMANDS)
}

/// Adds the commands on policies to the program.
fn with_policy_commands<'a>(alloc: Global, program: Command<'a>) -> Result<Command<'a>, AllocError>
    ensures { IfOk result (λ c. app_of c ≡ with_commands (app_of program.entry) policy_commands) }
{
    with_commands(alloc, program, &POLICY_COMMANDS)
}

/// Adds the other commands to the program.
fn with_other_commands<'a>(alloc: Global, program: Command<'a>) -> Result<Command<'a>, AllocError>
    ensures { IfOk result (λ c. app_of c ≡ with_commands (app_of program.entry) other_commands) }
{
    with_commands(alloc, program, &OTHER_COMMANDS)
}
