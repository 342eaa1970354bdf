//! All forms as one type.
ghost use Rattle.std.specs.Prelude.{OnOk, string_bytes};
ghost use Rattle.bq_timeline.specs.FormTexts.{FormAdmits, FormAnswers, FormEnds, FormOpens, FormAddsChange, IsEmptyForm};
ghost use Rattle.bq_timeline.specs.AnyForms.{ShowsForm, StaysShown};

use crate::form_names::FormName;
use bq_drawing::{Perfetto, PictureOptions, Svg};
use bq_parts::Event;
use bq_report::{Csv, Json, Map, Names, Report, ScheduleForm, Timehist, Window};
use bq_schedule::Schedule;
use bq_trace::AnyCore;
use bq_why::{Occurrence, WhyForm};
use bq_words::DisciplineName;
use std::alloc::{AllocError, Global};

/// One of the forms.
#[derive(Drop)]
pub enum AnyForm {
    Report(Report),
    Map(Map),
    Timehist(Timehist),
    Csv(Csv),
    Json(Json),
    Svg(Svg),
    Perfetto(Perfetto),
    /// This form is written from the machine itself, choice by choice.
    Why(WhyForm),
}

impl AnyForm {
    /// Returns the form of this name, for what the window shows.
    pub fn of(
        alloc: Global,
        form: FormName,
        window: Window,
        width: usize,
        picture_options: PictureOptions,
    ) -> AnyForm
        ensures shows { ShowsForm form window result }
        ensures empty { IsEmptyForm width picture_options result }
    {
        match form {
            FormName::Report => AnyForm::Report(Report::new(alloc, window)),
            FormName::Map => AnyForm::Map(Map::new(alloc, window, width)),
            FormName::Timehist => AnyForm::Timehist(Timehist::new(window)),
            FormName::Csv => AnyForm::Csv(Csv::new(alloc, window)),
            FormName::Json => AnyForm::Json(Json::new(alloc, window)),
            FormName::Svg => AnyForm::Svg(Svg::new(alloc, window, picture_options)),
            FormName::Perfetto => AnyForm::Perfetto(Perfetto::new(alloc, window)),
            FormName::Why => AnyForm::Why(WhyForm::new(alloc, window)),
        }
    }

    /// Begins the form under a discipline, with a schedule to which nothing has happened.
    pub fn begin(
        &mut self,
        discipline: DisciplineName,
        schedule: &Schedule,
        names: &Names,
        text: &mut String,
    ) -> Result<(), AllocError>
        ensures stays { StaysShown self.old self.new }
        ensures opens { OnOk result (FormOpens discipline schedule.now self.old self.new (string_bytes text.old) (string_bytes text.new)) }
    {
        match self {
            AnyForm::Report(form) => form.begin(schedule, names, text),
            AnyForm::Map(form) => form.begin(schedule, names, text),
            AnyForm::Timehist(form) => form.begin(schedule, names, text),
            AnyForm::Csv(form) => form.begin(schedule, names, text),
            AnyForm::Json(form) => form.begin(schedule, names, text),
            AnyForm::Svg(form) => {
                form.set_discipline(discipline);
                form.begin(schedule, names, text)
            }
            AnyForm::Perfetto(form) => form.begin(schedule, names, text),
            AnyForm::Why(_) => Ok(()),
        }
    }

    /// Admits a task to the form, if the form gives tasks letters or colours.
    fn admit(&mut self, task: u16) -> Result<(), AllocError>
        ensures { OnOk result (FormAdmits task self.old self.new) }
    {
        match self {
            AnyForm::Map(form) => form.admit(task),
            AnyForm::Svg(form) => form.admit(task),
            _ => Ok(()),
        }
    }

    /// Notes how many wakes did nothing because their task did not wait.
    pub fn count_missed(&mut self, wakes: u64) {
        match self {
            AnyForm::Report(form) => form.count_missed(wakes),
            AnyForm::Json(form) => form.count_missed(wakes),
            _ => {}
        }
    }

    /// Adds what an event changed to the form. `why` is written from the machine.
    fn add_change(
        &mut self,
        done: &Occurrence<'_>,
        machine: &AnyCore,
        schedule: &Schedule,
        names: &Names,
        text: &mut String,
    ) -> Result<(), AllocError>
        ensures { OnOk result (FormAddsChange done.now.change.now schedule.now names.now self.old self.new (string_bytes text.old) (string_bytes text.new)) }
    {
        match self {
            AnyForm::Report(form) => form.add_change(done.change, schedule, names, text),
            AnyForm::Map(form) => form.add_change(done.change, schedule, names, text),
            AnyForm::Timehist(form) => form.add_change(done.change, schedule, names, text),
            AnyForm::Csv(form) => form.add_change(done.change, schedule, names, text),
            AnyForm::Json(form) => form.add_change(done.change, schedule, names, text),
            AnyForm::Svg(form) => form.add_change(done.change, schedule, names, text),
            AnyForm::Perfetto(form) => form.add_change(done.change, schedule, names, text),
            AnyForm::Why(form) => form.after_event(done, machine, names, text),
        }
    }

    /// Adds an event that was done to the form: the task that it admits, if it admits one, and then what it changed.
    pub fn after_event(
        &mut self,
        done: &Occurrence<'_>,
        machine: &AnyCore,
        schedule: &Schedule,
        names: &Names,
        text: &mut String,
    ) -> Result<(), AllocError>
        ensures { OnOk result (FormAnswers done.now.event.now done.now.change.now schedule.now names.now self.old self.new
            (string_bytes text.old) (string_bytes text.new)) }
    {
        if let Event::Admit { task, .. } = done.event {
            self.admit(*task)?;
        }
        self.add_change(done, machine, schedule, names, text)
    }

    /// Ends the form, with the schedule of the whole trace.
    pub fn end(
        &mut self,
        schedule: &Schedule,
        names: &Names,
        text: &mut String,
    ) -> Result<(), AllocError>
        ensures { OnOk result (FormEnds schedule.now names.now self.old (string_bytes text.old) (string_bytes text.new)) }
    {
        match self {
            AnyForm::Report(form) => form.end(schedule, names, text),
            AnyForm::Map(form) => form.end(schedule, names, text),
            AnyForm::Timehist(form) => form.end(schedule, names, text),
            AnyForm::Csv(form) => form.end(schedule, names, text),
            AnyForm::Json(form) => form.end(schedule, names, text),
            AnyForm::Svg(form) => form.end(schedule, names, text),
            AnyForm::Perfetto(form) => form.end(schedule, names, text),
            AnyForm::Why(_) => Ok(()),
        }
    }
}
