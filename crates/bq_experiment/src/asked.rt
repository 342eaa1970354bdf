//! What a simulation is asked for, by the words of its options.
ghost use Rattle.std.specs.Prelude.{◌≡◌, ◌↔◌, IfErr, IfNone, IfOk, IfSome, IsTrue, None, Some, codes};
ghost use Rattle.bq_words.specs.Quantities.{size_in_word, decimal_of};
ghost use Rattle.bq_policy_check.specs.Given.{option_bytes};
ghost use Rattle.bq_words.specs.Sizes.{discipline_named};
ghost use Rattle.bq_timeline.specs.Settings.{optional_word_text};
ghost use Rattle.bq_experiment.specs.Asking.{AskForChanges, AskToShow, IsNoChange, IsNotShown, change_asked, chooses_part, asked_option_refused, simulable_time, asked_word_refused};

use crate::words::StudyWords;
use bq_timeline::{RefusedWord, Settings, SettingsFault, ShownWords, with_forms, word_after};
use bq_words::quantities::{decimal, size};
use bq_words::{
    DisciplineName, ProcessorCount, duration, with_disciplines, with_sizes, with_units,
};
use bq_workload::limits::LONGEST;
use bq_workload_file::Changes;
use std::alloc::Global;
use thiserror::Error;

/// The form in which a simulation is shown.
#[derive(Drop)]
pub enum ShownAs {
    /// As a trace.
    Trace,
    /// As `timeline` shows a trace.
    Timeline(Settings),
}

/// What a word for the discipline has to be.
const DISCIPLINES: &str = with_disciplines!("a discipline is ");

/// What a word for the number of processors has to be.
const SIZES: &str = with_sizes!("a number of processors is ");

/// What a word for the form has to be.
const FORMS: &str = with_forms!("a form is trace, report, ");

/// What a word for the duration has to be, up to the number of the longest.
const DURATION: &str = with_units!(
    "a duration is a number and ",
    ", as 1500us, 1.5ms or 2s, from 1ns to "
);

/// Why words ask for no simulation. A fault of one word says only what is right; `AskedFault::refused` answers the word.
#[derive(Clone, Copy, Debug, PartialEq, Eq, Error)]
pub enum AskedFault {
    #[error("{words}", words = DISCIPLINES)]
    Discipline,
    #[error("{words}", words = SIZES)]
    Processors,
    #[error("{words}{longest}ns", words = DURATION, longest = LONGEST)]
    Duration,
    #[error("a seed is a whole number below 2^64")]
    Seed,
    #[error("{words}", words = FORMS)]
    Form,
    #[error("--as trace writes the whole run: --from, --to, --cpus, --tasks, --width, --theme and --title change nothing of it")]
    WholeTrace,
    #[error("{0}")]
    Settings(SettingsFault),
}

impl AskedFault {
    /// Returns the word that the fault refuses, and its option. `None` if the fault is not that of one word.
    pub fn refused<'a>(self, words: &'a StudyWords) -> Option<RefusedWord<'a>>
        ensures word { IfSome result (λ r. optional_word_text (asked_word_refused words.now self) ≡ Some r.word.now) }
        ensures none { IfNone result (asked_word_refused words.now self ≡ None) }
        ensures option { IfSome result (λ r. r.option.now ≡ asked_option_refused self) }
    {
        let machine = &words.machine;
        match self {
            AskedFault::Discipline => word_after(
                "discipline",
                &machine.discipline,
                with_disciplines!(""),
            ),
            AskedFault::Processors => word_after("processors", &machine.processors, ""),
            AskedFault::Duration => word_after("duration", &machine.duration, ""),
            AskedFault::Seed => word_after("seed", &machine.seed, ""),
            AskedFault::Form => word_after("as", &words.shown.form, with_forms!("trace, report, ")),
            AskedFault::WholeTrace => None,
            AskedFault::Settings(fault) => fault.refused(&words.shown),
        }
    }
}

impl ShownAs {
    /// Returns the form that the words ask for: a report, unless they say otherwise.
    pub fn of(alloc: Global, words: &StudyWords) -> Result<ShownAs, AskedFault>
        ensures asked { IfOk result (AskToShow words.now) }
        ensures fault { IfErr result (IsNotShown words.now) }
    {
        if names_trace(&words.shown.form) {
            if chooses_part(&words.shown) {
                return Err(AskedFault::WholeTrace);
            }
            return Ok(ShownAs::Trace);
        }
        match Settings::of(alloc, &words.shown) {
            Ok(settings) => Ok(ShownAs::Timeline(settings)),
            Err(SettingsFault::Form) => Err(AskedFault::Form),
            Err(fault) => Err(AskedFault::Settings(fault)),
        }
    }
}

/// Returns whether a form is `trace`.
fn names_trace(form: &Option<String>) -> bool
    ensures { IsTrue result ↔ (option_bytes form.now ≡ Some (codes "trace")) }
{
    match form {
        Some(form) => form.as_str() == "trace",
        None => false,
    }
}

/// Returns whether the words choose what is shown, and how: a stretch of time, processors, tasks, a width, a theme or a title.
fn chooses_part(words: &ShownWords) -> bool
    ensures { result ≡ chooses_part words.now }
{
    words.from.is_some()
        || words.to.is_some()
        || words.cpus.is_some()
        || words.tasks.is_some()
        || words.width.is_some()
        || words.theme.is_some()
        || words.title.is_some()
}

/// Returns what the words put in the place of a workload's own machine.
pub fn asked_changes(words: &StudyWords) -> Result<Changes, AskedFault>
    ensures asked { IfOk result (AskForChanges words.now.machine) }
    ensures fault { IfErr result (IsNoChange words.now.machine) }
{
    let words = &words.machine;
    let discipline = discipline_asked(&words.discipline).ok_or(AskedFault::Discipline)?;
    let size = size_asked(&words.processors).ok_or(AskedFault::Processors)?;
    let duration = time_asked(&words.duration).ok_or(AskedFault::Duration)?;
    let seed = seed_asked(&words.seed).ok_or(AskedFault::Seed)?;
    Ok(Changes {
        discipline,
        size,
        duration,
        seed,
    })
}

/// Returns the discipline that a word asks for, if there is a word.
fn discipline_asked(word: &Option<String>) -> Option<Option<DisciplineName>>
    ensures { result ≡ change_asked discipline_named word.now }
{
    match word {
        None => Some(None),
        Some(word) => Some(Some(DisciplineName::of_word(word.as_bytes())?)),
    }
}

/// Returns the number of processors that a word asks for, if there is a word.
fn size_asked(word: &Option<String>) -> Option<Option<ProcessorCount>>
    ensures { result ≡ change_asked size_in_word word.now }
{
    match word {
        None => Some(None),
        Some(word) => Some(Some(size(word.as_bytes())?)),
    }
}

/// Returns the duration that a word asks for, if there is a word.
fn time_asked(word: &Option<String>) -> Option<Option<u64>>
    ensures { result ≡ change_asked simulable_time word.now }
{
    match word {
        None => Some(None),
        Some(word) => Some(Some(time(word.as_bytes())?)),
    }
}

/// Returns the seed that a word asks for, if there is a word.
fn seed_asked(word: &Option<String>) -> Option<Option<u64>>
    ensures { result ≡ change_asked decimal_of word.now }
{
    match word {
        None => Some(None),
        Some(word) => Some(Some(decimal(word.as_bytes())?)),
    }
}

/// Reads a duration, with its unit, if it can be simulated.
fn time(word: &[u8]) -> Option<u64>
    ensures { result ≡ simulable_time word.now }
{
    let time = duration(word)?;
    if 1 <= time && time <= LONGEST {
        Some(time)
    } else {
        None
    }
}
