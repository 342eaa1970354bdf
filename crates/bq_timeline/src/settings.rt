//! What a timeline is to show, by the words of its options.
ghost use Rattle.std.specs.Prelude.{◌≡◌, IfErr, IfOk, OnOk, Some, map, string_bytes};
ghost use Rattle.bq_words.specs.Durations.{duration_of};
ghost use Rattle.bq_words.specs.ProcessorSets.{processors_of};
ghost use Rattle.bq_drawing.specs.Themes.{theme_of};
ghost use Rattle.bq_timeline.specs.Settings.{AsksForSettings, AllOptionsApply, IsNoSettings, IsUnusedBy, asked_or, form_named, from_asked, is_great, applies_or_absent, names_given, optional_word_text, to_asked, width_in_word};
ghost use Rattle.bq_timeline.specs.declared.settings.SettingsFault.TheVariants.{OutOfMemory};

use crate::form_names::FormName;
use crate::map_width::{GREATEST_WIDTH, LEAST_WIDTH};
use crate::times::is_too_great;
use crate::{map_width, task_list, with_forms, with_stretches};
use bq_disc::limits::LAST_PROCESSOR;
use bq_drawing::{PictureOptions, Theme, with_themes};
use bq_report::Window;
use bq_words::processor_sets::processors;
use bq_words::{duration, with_tasks, with_units};
use std::alloc::{AllocError, Global};
use thiserror::Error;

/// The words of the options, as they were given.
#[derive(Drop)]
pub struct ShownWords {
    /// The trace. Without a word, or with `-`, it is standard input.
    pub file: Option<String>,
    /// The form; `report` if none is named.
    pub form: Option<String>,
    /// The first moment, as `1.5ms`; 0 if none is named.
    pub from: Option<String>,
    /// The last moment, as `2s`; no end if none is named.
    pub to: Option<String>,
    /// The processors, from 0 to 63, as `0-3,8`; all if none is named.
    pub cpus: Option<String>,
    /// The tasks, from 0 to 65535 or by name, as `1-3,9,editor`; all if none is named.
    pub tasks: Option<String>,
    /// The columns of a map, from 20 to 10,000; 80 if no width is named.
    pub width: Option<String>,
    /// The theme of a picture; `light` if none is named.
    pub theme: Option<String>,
    /// The title of a picture.
    pub title: Option<String>,
}

/// What a timeline is to show.
#[derive(Drop)]
pub struct Settings {
    /// The form in which the schedule is shown.
    pub form: FormName,
    /// The stretch of time, the processors, and the tasks that are asked for by number.
    pub window: Window,
    /// The names of the tasks that are asked for by name.
    pub names: Vec<String>,
    /// The columns of a map, from 20 to 10,000.
    pub width: usize,
    /// The theme and the title of a picture.
    pub picture_options: PictureOptions,
}

/// What a word for the form must be.
const FORMS: &str = with_forms!("a form is report, ");

/// What a word for a moment must be.
const TIME: &str = with_units!("a time is a number and ", ", as 1500us, 1.5ms or 2s");

/// The greatest time, in nanoseconds.
const GREATEST_TIME: u64 = u64::MAX;

/// What is said of a time that is too great, up to the greatest.
const TOO_GREAT: &str = "the time is too great; the greatest is ";

/// What a word for tasks must be.
const TASKS: &str = with_tasks!(
    "tasks are numbers from ",
    ", ranges and names, as 1-3 or 1,editor; a name begins with no digit"
);

/// Why a form shows no stretch of time.
const WHOLE: &str = with_stretches!("a report and JSON have the figures of the whole; say --as ");

/// What a word for the theme must be.
const THEMES: &str = with_themes!("a theme is light, ");

/// Why words are no settings. A fault of one word says only what is right; `SettingsFault::refused` answers the word.
#[derive(Clone, Copy, Debug, PartialEq, Eq, Error)]
pub enum SettingsFault {
    /// No form has this name.
    #[error("{words}", words = FORMS)]
    Form,
    /// The word of `--from` is no time.
    #[error("{words}", words = TIME)]
    From,
    /// The word of `--from` is a time that is too great.
    #[error("{words}{greatest}ns", words = TOO_GREAT, greatest = GREATEST_TIME)]
    FromTooGreat,
    /// The word of `--to` is no time.
    #[error("{words}", words = TIME)]
    To,
    /// The word of `--to` is a time that is too great.
    #[error("{words}{greatest}ns", words = TOO_GREAT, greatest = GREATEST_TIME)]
    ToTooGreat,
    /// The first moment is after the last.
    #[error("--from is after --to: nothing lies between them")]
    Backwards,
    /// The word of `--cpus` is no list of processors.
    #[error("processors are numbers from 0 to {last} and ranges, as 0-3 or 0,2", last = LAST_PROCESSOR)]
    Processors,
    /// The word of `--tasks` is no list of tasks.
    #[error("{words}", words = TASKS)]
    Tasks,
    /// The word for the width is no width.
    #[error("a width is a number from {least} to {greatest}", least = LEAST_WIDTH, greatest = GREATEST_WIDTH)]
    Width,
    /// No theme has this name.
    #[error("{words}", words = THEMES)]
    Theme,
    /// A first moment is given, but the form shows no stretch of time.
    #[error("--from: {words}", words = WHOLE)]
    FromUnused,
    /// A last moment is given, but the form shows no stretch of time.
    #[error("--to: {words}", words = WHOLE)]
    ToUnused,
    /// A width is given, but the form is no map.
    #[error("--width: only a map has a width; say --as map too")]
    WidthUnused,
    /// A theme is given, but the form is no picture.
    #[error("--theme: only an svg has a theme; say --as svg too")]
    ThemeUnused,
    /// A title is given, but the form is no picture.
    #[error("--title: only an svg has a title; say --as svg too")]
    TitleUnused,
    #[error("out of memory")]
    OutOfMemory,
}

impl From<AllocError> for SettingsFault {
    ghost from_gives = { λ _ e. e ≡ OutOfMemory };

    fn from(_e: AllocError) -> SettingsFault {
        SettingsFault::OutOfMemory
    }
}

/// How many columns a map has if no width is given.
const COLUMNS: usize = 80;

/// `before`, this number of columns, and `behind` as one text.
#[macro_export]
macro_rules! with_columns {
    ($before:literal, $behind:literal) => {
        concat!($before, "80", $behind)
    };
}

impl Settings {
    /// Returns what the words ask for: all of a trace, in a report, unless they say otherwise.
    ///
    /// A fault other than `OutOfMemory` names a word that is not of its kind (a form, a time, processors, tasks, a width or a theme), or says
    /// that the first moment is after the last, or names an option that does not apply to the form.
    #[tactic(auto, using(crate::proofs::TaskLemmas::runs_backwards, crate::proofs::OptionLemmas::unused_by_form))]
    pub fn of(alloc: Global, words: &ShownWords) -> Result<Settings, SettingsFault>
        ensures asked { IfOk result (AsksForSettings words.now) }
        ensures refused { IfErr result (IsNoSettings words.now) }
    {
        let mut window = Window::whole(alloc);
        let form = form_or(&words.form, FormName::Report).ok_or(SettingsFault::Form)?;
        window.from = first_moment(words)?;
        window.to = last_moment(words)?;
        if window.to < window.from {
            return Err(SettingsFault::Backwards);
        }
        window.processors = processors_or(&words.cpus, window.processors).ok_or(
            SettingsFault::Processors,
        )?;
        if let Some(word) = &words.tasks {
            window.tasks = task_list::tasks(alloc, word.as_str())?.ok_or(SettingsFault::Tasks)?;
        }
        let names = names_or_none(alloc, &words.tasks)?;
        let width = width_or(&words.width, COLUMNS).ok_or(SettingsFault::Width)?;
        let theme = theme_or(&words.theme, Theme::Light).ok_or(SettingsFault::Theme)?;
        let title = copied(alloc, &words.title)?;
        check_options_apply(form, words)?;
        Ok(Settings {
            form,
            window,
            names,
            width,
            picture_options: PictureOptions { theme, title },
        })
    }
}

/// Checks that each option that is given applies to the form. The fault names the first that does not.
fn check_options_apply(form: FormName, words: &ShownWords) -> Result<(), SettingsFault>
    ensures all { OnOk result (AllOptionsApply form words.now) }
    ensures fault { IfErr result (IsUnusedBy form words.now) }
{
    if !applies_or_absent(form.has_stretch(), &words.from) {
        return Err(SettingsFault::FromUnused);
    }
    if !applies_or_absent(form.has_stretch(), &words.to) {
        return Err(SettingsFault::ToUnused);
    }
    if !applies_or_absent(form.has_width(), &words.width) {
        return Err(SettingsFault::WidthUnused);
    }
    if !applies_or_absent(form.is_picture(), &words.theme) {
        return Err(SettingsFault::ThemeUnused);
    }
    if !applies_or_absent(form.is_picture(), &words.title) {
        return Err(SettingsFault::TitleUnused);
    }
    Ok(())
}

/// Tells whether an option is absent, or applies to the form.
fn applies_or_absent(applies: bool, word: &Option<String>) -> bool
    ensures { result ≡ applies_or_absent applies word.now }
{
    match word {
        Some(_) => applies,
        None => true,
    }
}

/// Returns the form that a word names, or the default if there is no word. `None` if no form has this name.
fn form_or(word: &Option<String>, default: FormName) -> Option<FormName>
    ensures { result ≡ asked_or default form_named word.now }
{
    match word {
        Some(word) => FormName::of_word(word.as_str()),
        None => Some(default),
    }
}

/// Returns the first moment, 0 if none is named.
fn first_moment(words: &ShownWords) -> Result<u64, SettingsFault>
    ensures asked { IfOk result (λ from. from_asked words.now ≡ Some from) }
    ensures refused { IfErr result (IsNoSettings words.now) }
{
    match time_or(&words.from, 0) {
        Some(from) => Ok(from),
        None if is_great(&words.from) => Err(SettingsFault::FromTooGreat),
        None => Err(SettingsFault::From),
    }
}

/// Returns the last moment, no end if none is named.
fn last_moment(words: &ShownWords) -> Result<u64, SettingsFault>
    ensures asked { IfOk result (λ to. to_asked words.now ≡ Some to) }
    ensures refused { IfErr result (IsNoSettings words.now) }
{
    match time_or(&words.to, u64::MAX) {
        Some(to) => Ok(to),
        None if is_great(&words.to) => Err(SettingsFault::ToTooGreat),
        None => Err(SettingsFault::To),
    }
}

/// Tells whether there is a word, and it is a time that is too great.
fn is_great(word: &Option<String>) -> bool
    ensures { result ≡ is_great word.now }
{
    match word {
        Some(word) => is_too_great(word.as_bytes()),
        None => false,
    }
}

/// Returns the nanoseconds that a word writes, or the default if there is no word. `None` if the word is no time.
fn time_or(word: &Option<String>, default: u64) -> Option<u64>
    ensures { result ≡ asked_or default duration_of word.now }
{
    match word {
        Some(word) => duration(word.as_bytes()),
        None => Some(default),
    }
}

/// Returns the processors that a word names, as bits, or the default if there is no word. `None` if the word names something else.
fn processors_or(word: &Option<String>, default: u64) -> Option<u64>
    ensures { result ≡ asked_or default processors_of word.now }
{
    match word {
        Some(word) => processors(word.as_bytes()),
        None => Some(default),
    }
}

/// Returns the names of tasks in a word. Empty if there is no word.
fn names_or_none(alloc: Global, word: &Option<String>) -> Result<Vec<String>, AllocError>
    ensures { IfOk result (λ names. map string_bytes names.items ≡ names_given word.now) }
{
    match word {
        Some(word) => task_list::names(alloc, word.as_str()),
        None => Ok(Vec::new(alloc)),
    }
}

/// Returns the columns that a word asks for, or the default if there is no word. `None` if the word is no width.
fn width_or(word: &Option<String>, default: usize) -> Option<usize>
    ensures { result ≡ asked_or default width_in_word word.now }
{
    match word {
        Some(word) => map_width::width(word.as_str()),
        None => Some(default),
    }
}

/// Returns the theme that a word names, or the default if there is no word. `None` if no theme has this name.
fn theme_or(word: &Option<String>, default: Theme) -> Option<Theme>
    ensures { result ≡ asked_or default theme_of word.now }
{
    match word {
        Some(word) => Theme::of_word(word.as_str()),
        None => Some(default),
    }
}

/// Returns a copy of a word, if there is one.
fn copied(alloc: Global, word: &Option<String>) -> Result<Option<String>, AllocError>
    ensures { IfOk result (λ copy. optional_word_text copy ≡ optional_word_text word.now) }
{
    match word {
        Some(word) => Ok(Some(String::from_str(alloc, word.as_str())?)),
        None => Ok(None),
    }
}
