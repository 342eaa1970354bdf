//! The picture of a schedule.
ghost use Rattle.std.specs.Prelude.{◌≡◌, ◌++◌, [], length, IfOk, OnOk, Some, codes, option_map, string_bytes};
ghost use Rattle.bq_schedule.specs.Figures.{task_in_figures};
ghost use Rattle.bq_schedule.specs.Slices.{is_this};
ghost use Rattle.bq_report.specs.Reports.{GrowsByPart};
ghost use Rattle.bq_report.specs.AdmittedTasks.{with_admitted};
ghost use Rattle.bq_drawing.specs.PictureNames.{picture_name_text};
ghost use Rattle.bq_drawing.specs.Pictures.{root_text, root_title, IsDrawnOver, IsHead, IsPicture, IsPictureOf};
ghost use Rattle.bq_drawing.specs.Holdings.{HoldsChange, HoldsLink, HoldsPull, HoldsRun, HoldsRunners, HoldsStart, HoldsWait, HoldsWaiting, HoldsWake, migration_begin, migration_link, nothing_of, pulled_link, wait_at, wait_before, wait_ended, with_stop};
ghost use Rattle.bq_drawing.specs.Runs.{run_ended_by};
ghost use Rattle.bq_drawing.specs.Frames.{drawn_in};

use crate::drawing::{Drawing, Written};
use crate::escaped::write_escaped;
use crate::heading::Heading;
use crate::lanes::TaskInterval;
use crate::links::{LinkKind, RowLink, Spot};
use crate::picture_name::PictureName;
use crate::picture_options::PictureOptions;
use crate::runs::{ended_run, run_on};
use crate::scale::PAGE;
use crate::styles::{write_hatches, write_styles};
use crate::theme::Theme;
use bq_disc::limits::{PROCESSORS, TASKS};
use bq_report::{AdmittedTasks, Extent, Names, ScheduleForm, Window};
use bq_schedule::{Change, PulledTask, Schedule, Slice, Start, Stop, Wake};
use bq_words::DisciplineName;
use std::alloc::{AllocError, Global};
use std::collections::BTreeMap;

/// A picture: a row for each processor, over an axis of time. A row has the runs in the colours of their tasks, the waits below them,
/// hatched, and the wakes above them. Between rows are the pulls and the migrations. The picture is a file of its own, for a browser or a
/// slide, and changes nothing else on a page that it is put into. It holds the runs, because the scale depends on where the trace ends.
#[derive(Drop)]
pub struct Svg {
    alloc: Global,
    window: Window,
    options: PictureOptions,
    discipline: Option<DisciplineName>,
    admitted: AdmittedTasks,
    drawing: Drawing,
    /// When each task last stopped running.
    stops: BTreeMap<u16, u64>,
}

impl Svg {
    /// Returns a picture of what is in the window.
    pub fn new(alloc: Global, window: Window, options: PictureOptions) -> Svg
        ensures window { result.window ≡ window }
        ensures options { result.options ≡ options }
        ensures discipline { result.discipline ≡ None }
        ensures none { (result.drawing ≡ nothing_of 0) × (result.admitted ≡ []) × (result.stops.entries ≡ []) }
    {
        Svg {
            alloc,
            window,
            options,
            discipline: None,
            admitted: AdmittedTasks::new(alloc),
            drawing: Drawing::new(alloc),
            stops: BTreeMap::new(alloc),
        }
    }

    /// Sets the discipline by which the processors choose, which the picture names.
    pub fn set_discipline(&mut self, discipline: DisciplineName)
        ensures { self.new ≡ record self.old { discipline = Some discipline } }
    {
        self.discipline = Some(discipline);
    }

    /// Holds the shown part of a run, if there is one.
    fn hold_run(&mut self, start: Option<Start>, run: Option<Slice>) -> Result<(), AllocError>
        ensures run { OnOk result (HoldsRun self.old.window start run self.old.drawing self.new.drawing) }
        ensures unchanged { self.new ≡ record self.old { drawing = self.new.drawing } }
    {
        let part = self.window.shown_part(run);
        match (start, part) {
            (Some(start), Some(part)) => self.drawing.push_run(&start, &part),
            _ => Ok(()),
        }
    }

    /// Holds the shown part of a wait, if there is one.
    fn hold_wait(&mut self, wait: Option<Slice>) -> Result<(), AllocError>
        ensures wait { OnOk result (HoldsWait self.old.window wait self.old.drawing self.new.drawing) }
        ensures unchanged { self.new ≡ record self.old { drawing = self.new.drawing } }
    {
        match self.window.shown_part(wait) {
            Some(part) => self.drawing.push_wait(
                part.processor,
                TaskInterval {
                    from: part.from,
                    to: part.to,
                    task: part.task,
                },
            ),
            None => Ok(()),
        }
    }

    /// Holds the shown part of a run that ended, and notes when it ended.
    fn hold_stop(&mut self, stop: Option<Stop>) -> Result<(), AllocError>
        ensures run { OnOk result (HoldsRun self.old.window (option_map (λ s. s.start) stop) (run_ended_by stop) self.old.drawing self.new.drawing) }
        ensures stops { OnOk result (self.new.stops.entries ≡ with_stop stop self.old.stops.entries) }
        ensures unchanged { self.new ≡ record self.old { drawing = self.new.drawing; stops = self.new.stops } }
    {
        self.note_stop(stop)?;
        self.hold_run(start_of(stop), ended_run(stop))
    }

    /// Notes when a run ended, if one did.
    fn note_stop(&mut self, stop: Option<Stop>) -> Result<(), AllocError>
        ensures stops { OnOk result (self.new.stops.entries ≡ with_stop stop self.old.stops.entries) }
        ensures unchanged { self.new ≡ record self.old { stops = self.new.stops } }
    {
        if let Some(stop) = stop {
            self.stops.insert(stop.start.task, stop.at)?;
        }
        Ok(())
    }

    /// Holds the wait before a run that began, and the migration of its task, if there is one.
    fn hold_start(&mut self, start: Option<Start>) -> Result<(), AllocError>
        ensures start { OnOk result (HoldsStart self.old.window self.old.stops.entries start self.old.drawing self.new.drawing) }
        ensures unchanged { self.new ≡ record self.old { drawing = self.new.drawing } }
    {
        self.hold_wait(wait_before(start))?;
        let line = self.migration_link(start);
        self.hold_link(line)
    }

    /// Returns the line to a run, if its task ran on another processor before.
    fn migration_link(&self, start: Option<Start>) -> Option<RowLink>
        ensures { result ≡ migration_link self.now.stops.entries start }
    {
        let start = start?;
        if !start.has_migrated() {
            return None;
        }
        let before = start.before?;
        Some(RowLink {
            kind: LinkKind::Migration,
            task: start.task,
            from: Spot {
                processor: before,
                at: self.left_at(&start),
            },
            to: Spot {
                processor: start.processor,
                at: start.at,
            },
        })
    }

    /// Returns when the task of a start last stopped running.
    fn left_at(&self, start: &Start) -> u64
        ensures { result ≡ migration_begin self.now.stops.entries start.now }
    {
        self.stops.get(&start.task).copied().unwrap_or(start.at)
    }

    /// Holds the wait that a pull ended, and the pull.
    fn hold_pull(&mut self, pull: Option<PulledTask>) -> Result<(), AllocError>
        ensures pull { OnOk result (HoldsPull self.old.window pull self.old.drawing self.new.drawing) }
        ensures unchanged { self.new ≡ record self.old { drawing = self.new.drawing } }
    {
        self.hold_wait(wait_ended(pull))?;
        self.hold_link(pulled_link(pull))
    }

    /// Holds a pull or a migration, if it is shown: it ends in the window, and both of its processors are shown.
    fn hold_link(&mut self, link: Option<RowLink>) -> Result<(), AllocError>
        ensures link { OnOk result (HoldsLink self.old.window link self.old.drawing self.new.drawing) }
        ensures unchanged { self.new ≡ record self.old { drawing = self.new.drawing } }
    {
        let Some(link) = link else {
            return Ok(());
        };
        if !self.window.shows(link.to.processor, link.task, link.to.at) {
            return Ok(());
        }
        if !self.window.shows_processor(link.from.processor) {
            return Ok(());
        }
        self.drawing.push_link(link)
    }

    /// Holds a wake, if there is one and it is shown.
    fn hold_wake(&mut self, wake: Option<Wake>) -> Result<(), AllocError>
        ensures wake { OnOk result (HoldsWake self.old.window wake self.old.drawing self.new.drawing) }
        ensures unchanged { self.new ≡ record self.old { drawing = self.new.drawing } }
    {
        let Some(wake) = wake else {
            return Ok(());
        };
        if !self.window.shows(wake.to, wake.task, wake.at) {
            return Ok(());
        }
        self.drawing.push_wake(&wake)
    }

    /// Holds the shown parts of the runs that still go on.
    fn hold_runners(&mut self, schedule: &Schedule) -> Result<(), AllocError>
        ensures runs { OnOk result (HoldsRunners self.old.window schedule.now PROCESSORS self.old.drawing self.new.drawing) }
        ensures unchanged { self.new ≡ record self.old { drawing = self.new.drawing } }
    {
        for number in 0..PROCESSORS {
            let figures = schedule.processor(number);
            self.hold_run(figures.running, run_on(&figures))?;
        }
        Ok(())
    }

    /// Holds the shown parts of the waits that still go on.
    fn hold_waiting(&mut self, schedule: &Schedule) -> Result<(), AllocError>
        ensures waits { OnOk result (HoldsWaiting self.old.window schedule.now TASKS self.old.drawing self.new.drawing) }
        ensures unchanged { self.new ≡ record self.old { drawing = self.new.drawing } }
    {
        for id in 0..TASKS {
            self.hold_wait(wait_of(schedule, id))?;
        }
        Ok(())
    }

    /// Adds the picture of what is held.
    fn write(&self, extent: Extent, names: &Names, text: &mut String) -> Result<(), AllocError>
        ensures { OnOk result (GrowsByPart (IsPicture self.now.window self.now.options (drawn_in extent self.now.admitted names.now) self.now.discipline self.now.drawing)
            (string_bytes text.old) (string_bytes text.new)) }
    {
        let heading = Heading {
            title: self.options.title(),
            discipline: self.discipline,
        };
        let drawn = self
            .drawing
            .write(&self.window, extent, &heading, &self.admitted, names)?;
        let head = head_of(self.alloc, &self.options, &drawn)?;
        text.push_str(head.as_str())?;
        text.push_str(drawn.text.as_str())?;
        write_end(text)
    }
}

/// Adds the end of the root.
fn write_end(text: &mut String) -> Result<(), AllocError>
    ensures { OnOk result (string_bytes text.new ≡ string_bytes text.old ++ codes "</svg>\n") }
{
    text.push_str("</svg>\n")
}

/// Returns the time that a picture is drawn over: the extent of the schedule in the window, or one nanosecond if no time passes.
fn drawn_over(schedule: &Schedule, window: &Window) -> Extent
    ensures { IsDrawnOver window.now schedule.now result }
{
    match Extent::of(schedule, window) {
        Some(extent) => extent,
        None => Extent { from: 0, to: 1 },
    }
}

/// Returns the text before all that is drawn: the root with its name, its title, its styles and its hatches.
fn head_of(alloc: Global, options: &PictureOptions, drawn: &Written) -> Result<String, AllocError>
    ensures { IfOk result (λ head. IsHead options.now (string_bytes drawn.now.text) drawn.now.height (string_bytes head)) }
{
    let name = PictureName::of(options.theme, drawn.text.as_str());
    let mut text = String::new(alloc);
    write_root(name, drawn.height, &mut text)?;
    write_root_title(options.title(), &mut text)?;
    let styles = styles_of(alloc, name, options.theme)?;
    text.push_str(styles.as_str())?;
    Ok(text)
}

/// Returns the styles and the hatches of a picture.
fn styles_of(alloc: Global, name: PictureName, theme: Theme) -> Result<String, AllocError> {
    let mut text = String::new(alloc);
    write_styles(name, theme, &mut text)?;
    write_hatches(name, &mut text)?;
    Ok(text)
}

/// Adds the beginning of the root.
fn write_root(name: PictureName, height: usize, text: &mut String) -> Result<(), AllocError>
    ensures { OnOk result (string_bytes text.new ≡ string_bytes text.old ++ root_text (picture_name_text name.0) height) }
{
    write!(
        text,
        "<svg xmlns=\"http://www.w3.org/2000/svg\" class=\"{name}\" width=\"{PAGE}\" height=\"{height}\""
    )?;
    write!(text, " viewBox=\"0 0 {PAGE} {height}\" role=\"img\">\n")
}

/// Adds the name of the picture for a reader who does not see it.
fn write_root_title(title: &str, text: &mut String) -> Result<(), AllocError>
    ensures { OnOk result (string_bytes text.new ≡ string_bytes text.old ++ root_title title.now) }
{
    text.push_str("<title>")?;
    write_escaped(title, usize::MAX, text)?;
    text.push_str("</title>\n")
}

/// Returns the start of a run that ended, if one did.
fn start_of(stop: Option<Stop>) -> Option<Start>
    ensures { result ≡ option_map (λ s. s.start) stop }
{
    let stop = stop?;
    Some(stop.start)
}

/// Returns the wait before a run with this start.
fn wait_before(start: Option<Start>) -> Option<Slice>
    ensures { result ≡ option_map wait_before start }
{
    let start = start?;
    Some(Slice {
        processor: start.processor,
        task: start.task,
        from: start.at.saturating_sub(start.waited),
        to: start.at,
    })
}

/// Returns the wait that a pull ended, at the processor that the task was taken from.
fn wait_ended(pull: Option<PulledTask>) -> Option<Slice>
    ensures { result ≡ option_map wait_ended pull }
{
    let pull = pull?;
    Some(Slice {
        processor: pull.from,
        task: pull.task,
        from: pull.at.saturating_sub(pull.waited),
        to: pull.at,
    })
}

/// Returns the line of a pull.
fn pulled_link(pull: Option<PulledTask>) -> Option<RowLink>
    ensures { result ≡ option_map pulled_link pull }
{
    let pull = pull?;
    Some(RowLink {
        kind: LinkKind::Pull,
        task: pull.task,
        from: Spot {
            processor: pull.from,
            at: pull.at,
        },
        to: Spot {
            processor: pull.to,
            at: pull.at,
        },
    })
}

/// Returns the wait of a task that still goes on, if it waits.
fn wait_of(schedule: &Schedule, id: u16) -> Option<Slice>
    ensures { result ≡ wait_at schedule.now id (task_in_figures schedule.now id).processor }
{
    let task = schedule.task(id);
    let processor = task.processor?;
    let figures = schedule.processor(processor);
    if runs(figures.running, id) {
        return None;
    }
    Some(Slice {
        processor,
        task: id,
        from: task.waiting_since,
        to: figures.last,
    })
}

/// Tells whether the running task is this one.
fn runs(running: Option<Start>, task: u16) -> bool
    ensures { result ≡ is_this task (option_map (λ s. s.task) running) }
{
    match running {
        Some(start) => start.task == task,
        None => false,
    }
}

impl ScheduleForm for Svg {
    /// Makes an empty row for each processor. The text stays as it is.
    fn begin(
        &mut self,
        schedule: &Schedule,
        _names: &Names,
        text: &mut String,
    ) -> Result<(), AllocError>
        ensures rows { OnOk result (self.new ≡ record self.old { drawing = nothing_of (length schedule.now.processors) }) }
        ensures none { text.new ≡ text.old }
        ensures window { self.new.window ≡ self.old.window }
    {
        self.drawing = Drawing::of(self.alloc, schedule.processors())?;
        Ok(())
    }

    /// Gives a task the next colour, unless it has one.
    fn admit(&mut self, task: u16) -> Result<(), AllocError>
        ensures { OnOk result (self.new ≡ record self.old { admitted = with_admitted task self.old.admitted }) }
    {
        self.admitted.admit(task)
    }

    /// Holds what is shown of a change. The text stays as it is.
    fn add_change(
        &mut self,
        change: &Change,
        _schedule: &Schedule,
        _names: &Names,
        text: &mut String,
    ) -> Result<(), AllocError>
        ensures held { OnOk result (HoldsChange self.old.window change.now self.old.stops.entries self.new.stops.entries
            self.old.drawing self.new.drawing) }
        ensures unchanged { self.new ≡ record self.old { drawing = self.new.drawing; stops = self.new.stops } }
        ensures none { text.new ≡ text.old }
    {
        self.hold_wake(change.wake)?;
        self.hold_pull(change.pull)?;
        self.hold_stop(change.stop)?;
        self.hold_start(change.start)
    }

    /// Holds the runs and the waits that still go on, and adds the picture.
    fn end(
        &mut self,
        schedule: &Schedule,
        names: &Names,
        text: &mut String,
    ) -> Result<(), AllocError>
        ensures picture { OnOk result (GrowsByPart (IsPictureOf self.old.window self.old.options self.old.discipline schedule.now names.now self.old.admitted self.old.drawing)
            (string_bytes text.old) (string_bytes text.new)) }
    {
        self.hold_runners(schedule)?;
        self.hold_waiting(schedule)?;
        let extent = drawn_over(schedule, &self.window);
        self.write(extent, names, text)
    }
}
