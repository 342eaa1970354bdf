//! What is written of a trace: the form, and the notes, which go to standard error.
ghost use Rattle.std.specs.Prelude.{◌≡◌, ◌++◌, ℕ, [], IfOk, OnOk, None, Some, string_bytes};
ghost use Rattle.bq_report.specs.Names.{Learns, name_of};
ghost use Rattle.bq_timeline.specs.TasksByName.{tasks_for_names};
ghost use Rattle.bq_timeline.specs.Beginning.{FormBegins, BeginsForm};
ghost use Rattle.bq_timeline.specs.Notes.{ChangesOnlyNotes, absent_notes, last_notes};
ghost use Rattle.bq_timeline.specs.FormTexts.{FormAnswers, IsEmptyForm};
ghost use Rattle.bq_timeline.specs.ScreenTexts.{FormAppears, FormEndsIf, HasTable, IfShown, KeepsTable, ScreenAnswers, ScreenBegins, ScreenComes, ScreenEnds, StandsBehind, state_of};
ghost use Rattle.bq_timeline.specs.AnyForms.{IsAskedFor};

use crate::any_form::AnyForm;
use crate::bounds_table::BoundsTable;
use crate::foreign::foreign_text;
use crate::notes::{note_absent, note_bad_or_refused, note_unmade, note_waiting};
use crate::settings::Settings;
use crate::tasks_by_name::{add_tasks_by_name, note_unknown_names};
use bq_lines::line_fault::{LineFault, NOT_READ_ON, meant_keyword, why_bad};
use bq_load::{FaultInWords, LoadFault};
use bq_parts::{Event, Refusal, Reply};
use bq_report::Names;
use bq_schedule::{Change, ClockReading, Schedule};
use bq_trace::AnyCore;
use bq_why::{Occurrence, RefusalText, RefusedEvent};
use bq_words::DisciplineName;
use std::alloc::{AllocError, Global};

/// The part of a schedule that is asked for, apart from its tasks.
#[derive(Clone, Copy)]
pub struct Part {
    /// The processors, by bits.
    pub processors: u64,
    /// The moment from which on it is shown.
    pub from: u64,
}

/// What is written of a trace so far.
#[derive(Drop)]
pub struct Screen {
    names: Names,
    /// The settings, until the form begins. By then the comments at the top of the trace have named the tasks.
    asked: Option<Settings>,
    /// The discipline of the machine, once there is one.
    discipline: Option<DisciplineName>,
    /// The form, once it has begun.
    shown: Option<AnyForm>,
    /// How near the bounds of the discipline are, once the form has begun, if it is the report.
    bounds: Option<BoundsTable>,
    part: Part,
    /// The tasks that are shown, once the form has begun. Empty if all are shown.
    tasks: Vec<u16>,
    /// What goes to the output, since the text was cleared last: the form, and nothing else.
    pub text: String,
    /// What goes to standard error, since the notes were cleared last.
    pub notes: String,
}

impl Screen {
    /// Returns a screen on which nothing is written yet.
    pub fn new(alloc: Global, settings: Settings) -> Screen
        ensures asked { result.asked ≡ Some settings }
        ensures names { (task : ℕ) → name_of result.names task ≡ None }
        ensures none { (result.discipline ≡ None) × (result.shown ≡ None) × (result.bounds ≡ None) }
        ensures text { string_bytes result.text ≡ [] }
        ensures part { (result.part.processors ≡ settings.window.processors) × (result.part.from ≡ settings.window.from) }
    {
        Screen {
            bounds: None,
            part: Part {
                processors: settings.window.processors,
                from: settings.window.from,
            },
            tasks: Vec::new(alloc),
            names: Names::new(alloc),
            asked: Some(settings),
            discipline: None,
            shown: None,
            text: String::new(alloc),
            notes: String::new(alloc),
        }
    }

    /// Sets the discipline of the machine that was made.
    pub fn set_discipline(&mut self, discipline: DisciplineName)
        ensures { self.new ≡ record self.old { discipline = Some discipline } }
    {
        self.discipline = Some(discipline);
    }

    /// Begins the form that is asked for, if there is a machine and the form has not begun. It shows the tasks that are asked for by number,
    /// or by a name that a comment has given so far.
    pub fn begin(&mut self, alloc: Global, schedule: &Schedule) -> Result<(), AllocError>
        ensures form { OnOk result (FormBegins self.old self.new) }
        ensures text { OnOk result (ScreenBegins (Some schedule.now) (state_of self.old) (state_of self.new) (string_bytes self.old.text) (string_bytes self.new.text)) }
    {
        let Some(discipline) = self.discipline else {
            return Ok(());
        };
        // Each event asks this, and settings are large: they are moved only if they are still there.
        if self.asked.is_none() {
            return Ok(());
        }
        match self.asked.take() {
            Some(settings) => self.begin_form(alloc, discipline, settings, schedule),
            None => Ok(()),
        }
    }

    /// Begins the form of these settings.
    #[tactic(auto, using(crate::proofs::AnyFormLemmas::stays_asked))]
    fn begin_form(
        &mut self,
        alloc: Global,
        discipline: DisciplineName,
        settings: Settings,
        schedule: &Schedule,
    ) -> Result<(), AllocError>
        ensures form { OnOk result (BeginsForm settings self.old self.new) }
        ensures text { OnOk result (FormAppears discipline schedule.now settings (state_of self.old) (state_of self.new) (string_bytes self.old.text) (string_bytes self.new.text)) }
        ensures asked { self.new.asked ≡ self.old.asked }
    {
        let asked = settings.names.as_slice();
        note_unknown_names(alloc, &mut self.notes, asked, &self.names)?;
        let mut shown = self.form_of(alloc, settings)?;
        self.begin_bounds(alloc, discipline, &shown, schedule)?;
        shown.begin(discipline, schedule, &self.names, &mut self.text)?;
        self.shown = Some(shown);
        Ok(())
    }

    /// Prepares to show how near the bounds of the discipline are, if the form is the report.
    fn begin_bounds(
        &mut self,
        alloc: Global,
        discipline: DisciplineName,
        shown: &AnyForm,
        schedule: &Schedule,
    ) -> Result<(), AllocError>
        ensures table { OnOk result (HasTable shown.now self.new.bounds) }
        ensures unchanged { self.new ≡ record self.old { bounds = self.new.bounds } }
    {
        self.bounds = match shown {
            AnyForm::Report(_) => Some(BoundsTable::new(alloc, discipline, schedule.processors())?),
            _ => None,
        };
        Ok(())
    }

    /// Returns the form that is asked for. Its window also has the tasks that are asked for by name.
    fn form_of(&mut self, alloc: Global, settings: Settings) -> Result<AnyForm, AllocError>
        ensures form { IfOk result (IsAskedFor settings self.old.names) }
        ensures empty { IfOk result (IsEmptyForm settings.width settings.picture_options) }
        ensures tasks { OnOk result (self.new.tasks.items ≡ settings.window.tasks.items ++ tasks_for_names self.old.names settings.names.items) }
        ensures unchanged { self.new ≡ record self.old { tasks = self.new.tasks } }
    {
        let Settings {
            form,
            mut window,
            names,
            width,
            picture_options,
        } = settings;
        add_tasks_by_name(alloc, &mut window.tasks, names.as_slice(), &self.names)?;
        self.tasks = Vec::from_slice(alloc, window.tasks.as_slice())?;
        Ok(AnyForm::of(alloc, form, window, width, picture_options))
    }

    /// Learns the name of a task from a comment, if it names one.
    pub(crate) fn learn_name(&mut self, line: &[u8]) -> Result<(), AllocError>
        ensures learned { OnOk result (Learns line.now self.old.names self.new.names) }
        ensures unchanged { self.new ≡ record self.old { names = self.new.names } }
    {
        self.names.learn(line)
    }

    /// Prepares the form and the table for an event that is about to be done.
    pub fn before_event(
        &mut self,
        number: u64,
        event: &Event,
        machine: &AnyCore,
    ) -> Result<(), AllocError>
        ensures comes { OnOk result (ScreenComes (state_of self.old) (state_of self.new)) }
        ensures text { self.new.text ≡ self.old.text }
    {
        if let Some(AnyForm::Why(form)) = &mut self.shown {
            form.before_event(number, event, machine)?;
        }
        if let Some(bounds) = &mut self.bounds {
            bounds.before_event(event, machine);
        }
        Ok(())
    }

    /// Shows an event that was done, or notes why it was refused.
    pub fn after_event(
        &mut self,
        number: u64,
        event: &Event,
        answer: &Result<Reply, Refusal>,
        machine: &AnyCore,
        change: &Change,
        schedule: &Schedule,
    ) -> Result<(), AllocError>
        ensures { OnOk result (ScreenAnswers event.now answer.now change.now schedule.now (state_of self.old) (state_of self.new)
            (string_bytes self.old.text) (string_bytes self.new.text)) }
    {
        match answer {
            Ok(reply) => {
                self.note_reading(number, change.reading)?;
                self.measure(event, reply, machine, change)?;
                let done = Occurrence {
                    number,
                    event,
                    reply,
                    change,
                };
                self.show(&done, machine, schedule)
            }
            Err(refusal) => self.note_refused(number, event, *refusal),
        }
    }

    /// Measures how near the bounds of the discipline an event came, if the form is the report.
    fn measure(
        &mut self,
        event: &Event,
        reply: &Reply,
        machine: &AnyCore,
        change: &Change,
    ) -> Result<(), AllocError>
        ensures table { KeepsTable self.old.bounds self.new.bounds }
        ensures unchanged { self.new ≡ record self.old { bounds = self.new.bounds } }
    {
        match &mut self.bounds {
            Some(bounds) => bounds.after_event(event, reply, machine, change),
            None => Ok(()),
        }
    }

    /// Shows an event that was done, if the form has begun.
    fn show(
        &mut self,
        done: &Occurrence<'_>,
        machine: &AnyCore,
        schedule: &Schedule,
    ) -> Result<(), AllocError>
        ensures form { OnOk result (IfShown (FormAnswers done.now.event.now done.now.change.now schedule.now self.old.names)
            self.old.shown self.new.shown (string_bytes self.old.text) (string_bytes self.new.text)) }
        ensures unchanged { self.new ≡ record self.old { shown = self.new.shown; text = self.new.text } }
    {
        match &mut self.shown {
            Some(shown) => shown.after_event(done, machine, schedule, &self.names, &mut self.text),
            None => Ok(()),
        }
    }

    /// Notes why an event was refused.
    fn note_refused(
        &mut self,
        number: u64,
        event: &Event,
        refusal: Refusal,
    ) -> Result<(), AllocError>
        ensures { ChangesOnlyNotes self.old self.new }
    {
        let refused = RefusedEvent { event, refusal };
        write!(self.notes, "line {number}: {refused}\n")
    }

    /// Notes that the clock of a processor was read and had gone back, if it had.
    fn note_reading(&mut self, number: u64, reading: Option<ClockReading>) -> Result<(), AllocError>
        ensures { ChangesOnlyNotes self.old self.new }
    {
        match reading {
            Some(reading) if reading.is_back => self.note_goes_back(number, &reading),
            _ => Ok(()),
        }
    }

    /// Notes that the clock of a processor has gone back.
    fn note_goes_back(&mut self, number: u64, reading: &ClockReading) -> Result<(), AllocError>
        ensures { ChangesOnlyNotes self.old self.new }
    {
        let processor = reading.processor;
        let last = reading.current;
        write!(
            self.notes,
            "line {number}: the clock of processor {processor} goes back; the reading counts as {last}\n"
        )
    }

    /// Notes that the word of an image is not hex.
    pub fn note_bad_hex(&mut self, number: u64) -> Result<(), AllocError>
        ensures { ChangesOnlyNotes self.old self.new }
    {
        write!(self.notes, "line {number}: the image is no hex\n")
    }

    /// Notes why an image does not load.
    pub fn note_not_loaded(&mut self, number: u64, fault: LoadFault) -> Result<(), AllocError>
        ensures { ChangesOnlyNotes self.old self.new }
    {
        let why = FaultInWords(fault);
        write!(
            self.notes,
            "line {number}: the image does not load: {why}\n"
        )
    }

    /// Notes that the machine has no such processor.
    pub fn note_no_processor(&mut self, number: u64, processor: u8) -> Result<(), AllocError>
        ensures { ChangesOnlyNotes self.old self.new }
    {
        let because = RefusalText(Refusal::NoProcessor);
        write!(self.notes, "line {number}: show {processor}: {because}\n")
    }

    /// Notes why a line is bad. If the line should have made the machine, the note says that the rest of the trace is not read.
    pub fn note_bad_line(
        &mut self,
        alloc: Global,
        number: u64,
        line: Option<&[u8]>,
        is_open: bool,
    ) -> Result<(), AllocError>
        ensures { ChangesOnlyNotes self.old self.new }
    {
        if let (Some(line), false) = (line, is_open) {
            if let Some(what) = foreign_text(line) {
                return write!(self.notes, "line {number}: {what}\n");
            }
        }
        let fault = why_bad(line, is_open);
        let meant = meant_keyword(alloc, &fault)?;
        let notes = &mut self.notes;
        write!(notes, "line {number}: {fault}")?;
        if let Some(meant) = meant {
            write!(notes, "; did you mean {meant}?")?;
        }
        if is_open || matches!(fault, LineFault::NoMachine) {
            return notes.push_str("\n");
        }
        write!(notes, "; {NOT_READ_ON}\n")
    }

    /// Notes how many wakes did nothing because their task did not wait. No trace shows these wakes.
    pub fn count_missed(&mut self, wakes: u64)
        ensures { self.new ≡ record self.old { shown = self.new.shown } }
    {
        if let Some(shown) = &mut self.shown {
            shown.count_missed(wakes);
        }
    }

    /// Ends the form, and adds the last notes. `bad_or_refused` is how many lines of the trace were bad or refused.
    pub fn end(&mut self, schedule: &Schedule, bad_or_refused: u64) -> Result<(), AllocError>
        ensures notes { OnOk result (string_bytes self.new.notes ≡ (string_bytes self.old.notes ++ absent_notes (Some schedule.now) self.old.tasks.items self.old.part)
            ++ last_notes (Some schedule.now) bad_or_refused) }
        ensures text { OnOk result (ScreenEnds schedule.now (state_of self.old) (string_bytes self.old.text) (string_bytes self.new.text)) }
    {
        self.end_form(schedule)?;
        self.write_bounds()?;
        note_absent(&mut self.notes, schedule, self.tasks.as_slice(), self.part)?;
        note_waiting(&mut self.notes, schedule)?;
        note_bad_or_refused(&mut self.notes, bad_or_refused)
    }

    /// Ends the form, if it has begun.
    fn end_form(&mut self, schedule: &Schedule) -> Result<(), AllocError>
        ensures form { OnOk result (FormEndsIf schedule.now self.old.names self.old.shown (string_bytes self.old.text) (string_bytes self.new.text)) }
        ensures unchanged { self.new ≡ record self.old { shown = self.new.shown; text = self.new.text } }
    {
        match &mut self.shown {
            Some(shown) => shown.end(schedule, &self.names, &mut self.text),
            None => Ok(()),
        }
    }

    /// Adds the table of bounds, if there is one.
    fn write_bounds(&mut self) -> Result<(), AllocError>
        ensures table { OnOk result (StandsBehind self.old.bounds (string_bytes self.old.text) (string_bytes self.new.text)) }
        ensures unchanged { self.new ≡ record self.old { text = self.new.text } }
    {
        match &self.bounds {
            Some(bounds) => bounds.write(self.part.processors, &mut self.text),
            None => Ok(()),
        }
    }

    /// Adds the last notes on a trace that made no machine. `bad_or_refused` is how many of its lines were bad or refused.
    pub fn end_unmade(&mut self, bad_or_refused: u64) -> Result<(), AllocError>
        ensures notes { OnOk result (string_bytes self.new.notes ≡ string_bytes self.old.notes ++ last_notes None bad_or_refused) }
        ensures unchanged { ChangesOnlyNotes self.old self.new }
    {
        note_unmade(&mut self.notes, bad_or_refused)?;
        note_bad_or_refused(&mut self.notes, bad_or_refused)
    }
}
