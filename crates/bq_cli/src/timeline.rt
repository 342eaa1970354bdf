//! `timeline`: the schedule of a trace, in a form that people read.
ghost use Rattle.std.specs.Prelude.{IfOk};
ghost use Rattle.clap.specs.Words.{found_of, rows_of};
ghost use Rattle.bq_cli.specs.Words.{AreShownWords, AreTimelineWords};
ghost use Rattle.bq_timeline.specs.Settings.{AsksForSettings};

use crate::read_limits::limit_of_bytes;
use crate::refusing::refusal;
use bq_console::{
    Bounded, ErasingWriter, Lines, ProgressLine, ShowingReader, WordsFault, ended, file_named,
    opened, report_unread, waiting_input, word,
};
use bq_streams::{Counted, ErrorKeeper};
use bq_timeline::{Settings, SettingsFault, ShownWords, show};
use clap::ArgMatches;
use std::alloc::{AllocError, Global};
use std::io::Read;
use std::process::ExitCode;

/// The words after `timeline`.
#[derive(Drop)]
pub struct TimelineWords {
    /// How it is shown, and the file of the trace.
    pub shown: ShownWords,
    /// The most bytes that are read.
    pub max_bytes: Option<String>,
}

/// Gathers the words that were found.
pub(crate) fn timeline_words(
    alloc: Global,
    matches: &ArgMatches<'_>,
) -> Result<TimelineWords, AllocError>
    ensures { IfOk result (AreTimelineWords (rows_of (found_of matches.now))) }
{
    let shown = shown_words(alloc, matches)?;
    let max_bytes = word(alloc, matches, "max-bytes")?;
    Ok(TimelineWords { shown, max_bytes })
}

/// Gathers the words that were found for a trace or a workload, and how it is shown.
pub(crate) fn shown_words(alloc: Global, matches: &ArgMatches<'_>) -> Result<ShownWords, AllocError>
    ensures { IfOk result (AreShownWords (rows_of (found_of matches.now))) }
{
    let file = word(alloc, matches, "file")?;
    let form = word(alloc, matches, "as")?;
    let from = word(alloc, matches, "from")?;
    let to = word(alloc, matches, "to")?;
    let cpus = word(alloc, matches, "cpus")?;
    let tasks = word(alloc, matches, "tasks")?;
    let width = word(alloc, matches, "width")?;
    let theme = word(alloc, matches, "theme")?;
    let title = word(alloc, matches, "title")?;
    Ok(ShownWords {
        file,
        form,
        from,
        to,
        cpus,
        tasks,
        width,
        theme,
        title,
    })
}

/// Returns what the words ask for.
fn settings(alloc: Global, words: &ShownWords) -> Result<Settings, WordsFault>
    ensures { IfOk result (AsksForSettings words.now) }
{
    match Settings::of(alloc, words) {
        Ok(settings) => Ok(settings),
        Err(SettingsFault::OutOfMemory) => Err(WordsFault::OutOfMemory),
        Err(fault) => Err(refusal(alloc, &fault, fault.refused(words))),
    }
}

/// Shows the trace in the file that is named, or on standard input.
pub(crate) fn do_timeline(rt: &HostRuntime, words: &TimelineWords) -> Result<ExitCode, WordsFault> {
    let settings = settings(rt.alloc(), &words.shown)?;
    let most = limit_of_bytes(rt.alloc(), &words.max_bytes)?;
    let Some(path) = file_named(&words.shown.file) else {
        let input = Bounded::new(waiting_input(rt), most);
        return Ok(show_from(rt, settings, None, input));
    };
    match opened(rt, path) {
        Ok(trace) => Ok(show_from(rt, settings, Some(path), Bounded::new(trace, most))),
        Err(error) => Ok(report_unread(rt, Some(path), &error)),
    }
}

/// Shows the trace that is read from the file of that name, or from standard input.
fn show_from<R: Read + Drop>(
    rt: &HostRuntime,
    settings: Settings,
    name: Option<&str>,
    reader: R,
) -> ExitCode {
    let progress = ProgressLine::new(rt);
    let mut input = Counted::new(ErrorKeeper::new(ShowingReader::new(reader, &progress)));
    let mut output = Counted::new(ErrorKeeper::new(ErasingWriter::new(rt.stdout(), &progress)));
    let mut errors = ErasingWriter::new(rt.stderr(), &progress);
    let shown = show(rt.alloc(), settings, &mut input, &mut output, &mut errors);
    progress.erase();
    let outcome = match shown {
        Ok(outcome) => {
            let notes = Lines(outcome.notes.as_str());
            let _ = eprint!(rt; "{notes}");
            Ok(outcome.clean)
        }
        Err(fault) => Err(fault),
    };
    ended(rt, name, &outcome, input, output)
}
