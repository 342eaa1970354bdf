//! What is asked for, by the words of the command.
ghost use Rattle.std.specs.Prelude.{◌≡◌, ◌≤◌, ◌↔◌, ◌++◌, IfErr, IfNone, IfOk, IfSome, IsErrOf, None, OnOk, Some, string_bytes};
ghost use Rattle.bq_timeline.specs.TasksByName.{tasks_for_names, unknown_name_notes};
ghost use Rattle.bq_timeline.specs.Settings.{optional_word_text};
ghost use Rattle.bq_comparison.specs.Asking.{AskFor, AskForNone, IsNoComparison, names_stretch, comparing_option_refused, seeds_asked, seeds_in, table_of, comparing_word_refused};
ghost use Rattle.bq_comparison.specs.TasksByName.{AddsTasksByName};
ghost use Rattle.bq_comparison.specs.declared.asked.ComparingFault.TheVariants as why;

use bq_experiment::{StudyWords, workload_names};
use bq_report::{Names, Window};
use bq_timeline::form_names::FormName;
use bq_timeline::tasks_by_name::{add_tasks_by_name, note_unknown_names};
use bq_timeline::{RefusedWord, Settings, SettingsFault, ShownWords, word_after};
use bq_workload::Workload;
use std::alloc::{AllocError, Global};
use thiserror::Error;

/// The most seeds that may be asked for.
pub const MOST_SEEDS: u64 = 1000;

/// The form in which the figures are written.
#[derive(Clone, Copy)]
pub enum TableForm {
    /// An aligned table.
    Report,
    /// Comma-separated values.
    Csv,
    /// JSON.
    Json,
}

/// With how many seeds a workload is run, which tasks and processors are shown, and how.
#[derive(Drop)]
pub struct Comparing {
    pub seeds: u16,
    /// The processors that are shown, and the tasks by their numbers.
    pub window: Window,
    /// The names of the tasks that are asked for by name.
    pub names: Vec<String>,
    pub form: TableForm,
}

/// The names of the forms of a table.
const FORMS: &str = "report, csv or json";

/// Why words ask for no comparison. A fault of one word says only what is right; `ComparingFault::refused` answers the word.
#[derive(Clone, Copy, Debug, PartialEq, Eq, Error)]
pub enum ComparingFault {
    #[error("a number of seeds is from 1 to {most}", most = MOST_SEEDS)]
    Seeds,
    #[error("with --seeds or --against a form is {forms}", forms = FORMS)]
    Form,
    #[error("with --seeds or --against the figures are of whole runs: --from and --to change nothing of them")]
    WholeRuns,
    #[error("{0}")]
    Settings(SettingsFault),
}

impl ComparingFault {
    /// Returns the word that the fault refuses, and its option. `None` if the fault is not that of one word.
    pub fn refused<'a>(self, words: &'a StudyWords) -> Option<RefusedWord<'a>>
        ensures word { IfSome result (λ r. optional_word_text (comparing_word_refused words.now self) ≡ Some r.word.now) }
        ensures none { IfNone result (comparing_word_refused words.now self ≡ None) }
        ensures option { IfSome result (λ r. r.option.now ≡ comparing_option_refused self) }
    {
        match self {
            ComparingFault::Seeds => word_after("seeds", &words.seeds, ""),
            ComparingFault::Form => word_after("as", &words.shown.form, FORMS),
            ComparingFault::WholeRuns => None,
            ComparingFault::Settings(fault) => fault.refused(&words.shown),
        }
    }
}

/// Returns what the words ask for, if they ask for several seeds or for something to compare with. Without `--seeds` it is one
/// seed.
pub fn asked_comparison(
    alloc: Global,
    words: &StudyWords,
) -> Result<Option<Comparing>, ComparingFault>
    // None if the words ask for neither seeds nor other policies. Otherwise as many seeds as they say, in the window and the
    // form that they name; then they name no stretch of time.
    ensures asked { IfOk result (AskFor words.now) }
    ensures bound { IfOk result (λ asked. IfSome asked (λ c. (1 ≤ c.seeds) × (c.seeds ≤ MOST_SEEDS))) }

    // The fault names a word that is not of its kind, or a stretch of time is named.
    ensures fault { IfErr result (IsNoComparison words.now) }

    // The fault of the seeds comes exactly when the words ask for a comparison and their number of seeds is bad.
    ensures seeds { IsErrOf result why.Seeds ↔ ((¬ AskForNone words.now) × (seeds_asked words.now.seeds ≡ None)) }
{
    if words.seeds.is_none() && words.against.is_empty() {
        return Ok(None);
    }
    let seeds = match &words.seeds {
        Some(word) => seeds_of(word.as_str()).ok_or(ComparingFault::Seeds)?,
        None => 1,
    };
    if names_stretch(&words.shown) {
        return Err(ComparingFault::WholeRuns);
    }
    let settings = match Settings::of(alloc, &words.shown) {
        Ok(settings) => settings,
        Err(SettingsFault::Form) => return Err(ComparingFault::Form),
        Err(fault) => return Err(ComparingFault::Settings(fault)),
    };
    let form = table_form(settings.form).ok_or(ComparingFault::Form)?;
    let Settings { window, names, .. } = settings;
    Ok(Some(Comparing {
        seeds,
        window,
        names,
        form,
    }))
}

/// Returns whether words name a stretch of time.
fn names_stretch(words: &ShownWords) -> bool
    ensures { result ≡ names_stretch words.now }
{
    words.from.is_some() || words.to.is_some()
}

impl Comparing {
    /// Adds the tasks that are asked for by name to the tasks that are shown. Returns a note on each name that no task of the
    /// workload has.
    pub fn add_tasks_by_name(
        &mut self,
        alloc: Global,
        workload: &Workload,
    ) -> Result<String, AllocError>
        ensures called { IfOk result (AddsTasksByName workload.now self.old self.new) }
        ensures others { (self.new.seeds ≡ self.old.seeds) × (self.new.window.processors ≡ self.old.window.processors) }
    {
        let names = workload_names(alloc, workload)?;
        let notes = self.add_by_names(alloc, &names)?;
        Ok(notes)
    }

    /// Adds the tasks that are asked for by name to the tasks that are shown; `names` has the names of the tasks. Returns a note
    /// on each name that no task has.
    fn add_by_names(&mut self, alloc: Global, names: &Names) -> Result<String, AllocError>
        ensures tasks { OnOk result (self.new.window.tasks.items ≡ self.old.window.tasks.items ++ tasks_for_names names.now self.old.names.items) }
        ensures notes { IfOk result (λ notes. string_bytes notes ≡ unknown_name_notes names.now self.old.names.items) }
        ensures others { (self.new.seeds ≡ self.old.seeds) × (self.new.window.processors ≡ self.old.window.processors) }
    {
        let mut notes = String::new(alloc);
        let asked = self.names.as_slice();
        note_unknown_names(alloc, &mut notes, asked, names)?;
        add_tasks_by_name(alloc, &mut self.window.tasks, asked, names)?;
        Ok(notes)
    }
}

/// Reads a number of seeds, if the word is one.
fn seeds_of(word: &str) -> Option<u16>
    ensures value { result ≡ seeds_in word.now }
    ensures bound { IfSome result (λ n. (1 ≤ n) × (n ≤ MOST_SEEDS)) }
{
    let seeds = bq_words::quantities::decimal(word.as_bytes())?;
    if 1 <= seeds && seeds <= MOST_SEEDS {
        Some(seeds as u16)
    } else {
        None
    }
}

/// Returns the form of a table that has this name, if there is one.
fn table_form(form: FormName) -> Option<TableForm>
    ensures { result ≡ table_of form }
{
    match form {
        FormName::Report => Some(TableForm::Report),
        FormName::Csv => Some(TableForm::Csv),
        FormName::Json => Some(TableForm::Json),
        _ => None,
    }
}
