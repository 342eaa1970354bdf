//! What a picture holds, and the whole of it as text.
ghost use Rattle.std.specs.Prelude.{◌≡◌, ◌++◌, [], ◌∷◌, IfOk, OnOk, Some, flat_map, length, string_bytes};
ghost use Rattle.std.specs.BTreeMap.{get};
ghost use Rattle.std.specs.Ordering.{nat_cmp};
ghost use Rattle.bq_disc.specs.Counts.{saturating_sum};
ghost use Rattle.bq_drawing.specs.Holdings.{nothing_of, with_link, held_with_run, with_interval, with_wake};
ghost use Rattle.bq_drawing.specs.Keys.{has_line, legend_top, tasks_shown};
ghost use Rattle.bq_drawing.specs.Legends.{legend_height, legend_text};
ghost use Rattle.bq_drawing.specs.Links.{link_line};
ghost use Rattle.bq_drawing.specs.Pictures.{IsDrawing};
ghost use Rattle.bq_drawing.specs.Frames.{drawn_in, picture_setting};
ghost use Rattle.bq_drawing.specs.Writing.{AreDrawn, IsRowWrittenIf, key_beside};

use crate::axis::{AXIS, write_axis};
use crate::frame::Frame;
use crate::heading::Heading;
use crate::lanes::TaskInterval;
use crate::legend::{Key, legend_height, write_legend};
use crate::links::{LinkKind, RowLink};
use crate::processor_row::ProcessorRow;
use crate::scale::Scale;
use crate::shapes::{DrawnRun, GAP};
use crate::unit::TimeUnit;
use crate::written_rows::WrittenRows;
use bq_disc::limits::PROCESSORS;
use bq_report::{AdmittedTasks, Extent, Names, Window, round_step};
use bq_schedule::{Slice, Start, Wake};
use std::alloc::{AllocError, Global};
use std::collections::{BTreeMap, BTreeSet};
use std::marker::Model;

/// The height above the first row.
const TOP: usize = 84;

/// How many steps of time an axis has at most.
const STEPS: u16 = 10;

/// What is drawn. Contracts see what is held: the row of each processor, the lines between rows, and the tasks that appear.
#[derive(Drop)]
pub struct Drawing {
    alloc: Global,
    rows: Vec<ProcessorRow>,
    links: Vec<RowLink>,
    tasks: BTreeSet<u16>,
}

impl Model for Drawing {
    ghost use Rattle.bq_drawing.specs.Holdings.{Held};

    ghost Value = { Held };

    ghost view = { λ d. record { rows = d.rows.items; links = d.links.items; tasks = d.tasks.keys } };
}

/// The text of a drawing, and how high the drawing is.
#[derive(Drop)]
pub struct Written {
    pub text: String,
    pub height: usize,
}

impl Drawing {
    /// Returns a drawing of nothing, without processors.
    pub fn new(alloc: Global) -> Drawing
        ensures { result ≡ nothing_of 0 }
    {
        Drawing {
            alloc,
            rows: Vec::new(alloc),
            links: Vec::new(alloc),
            tasks: BTreeSet::new(alloc),
        }
    }

    /// Returns a drawing of nothing, with this many processors.
    pub fn of(alloc: Global, processors: usize) -> Result<Drawing, AllocError>
        ensures { IfOk result (λ d. d ≡ nothing_of processors) }
    {
        let mut rows = Vec::with_capacity(alloc, processors)?;
        'processors: for _ in 0..processors {
            rows.push(ProcessorRow::new(alloc))?;
        }
        Ok(Drawing {
            alloc,
            rows,
            links: Vec::new(alloc),
            tasks: BTreeSet::new(alloc),
        })
    }

    /// Adds the shown part of a run. `start` is how the run began.
    pub fn push_run(&mut self, start: &Start, part: &Slice) -> Result<(), AllocError>
        ensures { OnOk result (self.new ≡ held_with_run (Some start.now) (Some part.now) self.old) }
    {
        self.tasks.insert(part.task)?;
        if let Some(row) = self.rows.get_mut(usize::from(part.processor)) {
            row.push_run(DrawnRun::of(start, part))?;
        }
        Ok(())
    }

    /// Adds a wait at a processor.
    pub fn push_wait(&mut self, processor: u8, wait: TaskInterval) -> Result<(), AllocError>
        ensures { OnOk result (self.new ≡ with_interval processor wait self.old) }
    {
        self.tasks.insert(wait.task)?;
        if let Some(row) = self.rows.get_mut(usize::from(processor)) {
            row.push_wait(wait)?;
        }
        Ok(())
    }

    /// Adds a wake, at the processor where its task was placed.
    pub fn push_wake(&mut self, wake: &Wake) -> Result<(), AllocError>
        ensures { OnOk result (self.new ≡ with_wake (Some wake.now) self.old) }
    {
        self.tasks.insert(wake.task)?;
        if let Some(row) = self.rows.get_mut(usize::from(wake.to)) {
            row.push_wake(wake)?;
        }
        Ok(())
    }

    /// Adds a pull or a migration.
    pub fn push_link(&mut self, link: RowLink) -> Result<(), AllocError>
        ensures { OnOk result (self.new ≡ with_link link self.old) }
    {
        self.tasks.insert(link.task)?;
        self.links.push(link)?;
        Ok(())
    }

    /// Returns the whole picture within its root, and its height. Waits and wakes are drawn in the order in which they begin.
    pub fn write(
        &self,
        window: &Window,
        extent: Extent,
        heading: &Heading<'_>,
        admitted: &AdmittedTasks,
        names: &Names,
    ) -> Result<Written, AllocError>
        ensures { IfOk result (λ d. IsDrawing window.now (drawn_in extent admitted.now names.now) heading.now.title.now heading.now.discipline self.now
            d.height (string_bytes d.text)) }
    {
        let step = round_step(extent.length(), STEPS).unwrap_or(1);
        let frame = Frame {
            scale: Scale { extent },
            unit: TimeUnit::of_step(step),
            admitted,
            names,
        };
        let rows = self.write_rows(window, &frame)?;
        let mut text = String::new(self.alloc);
        heading.write(&frame, &mut text)?;
        write_axis(step, &frame, TOP, rows.bottom, &mut text)?;
        let legend = self.legend(&rows, &frame)?;
        text.push_str(rows.links.as_str())?;
        text.push_str(rows.text.as_str())?;
        text.push_str(rows.labels.as_str())?;
        text.push_str(legend.text.as_str())?;
        let height = legend.height;
        Ok(Written { text, height })
    }

    /// Returns the legend below the rows, and how high the picture is together with it.
    fn legend(&self, rows: &WrittenRows, frame: &Frame<'_>) -> Result<Written, AllocError>
        ensures text { IfOk result (λ legend. string_bytes legend.text ≡ legend_text (picture_setting frame.now)
            (tasks_shown frame.now.admitted.now self.now.tasks) (key_beside self.now.links rows.now) (legend_top rows.now.bottom)) }
        ensures height { IfOk result (λ legend. legend.height ≡ saturating_sum (legend_top rows.now.bottom)
            (legend_height (length (tasks_shown frame.now.admitted.now self.now.tasks)) (key_beside self.now.links rows.now))) }
    {
        let tasks = self.tasks_shown(frame.admitted)?;
        let key = self.key(rows);
        let first = legend_top(rows.bottom);
        let mut text = String::new(self.alloc);
        write_legend(tasks.as_slice(), &key, first, frame, &mut text)?;
        let height = first.saturating_add(legend_height(tasks.len(), &key));
        Ok(Written { text, height })
    }

    /// Returns the tasks that appear, in the order in which they were admitted.
    fn tasks_shown(&self, admitted: &AdmittedTasks) -> Result<Vec<u16>, AllocError>
        ensures { IfOk result (λ tasks. tasks.items ≡ tasks_shown admitted.now self.now.tasks) }
    {
        let mut tasks = Vec::new(self.alloc);
        let all = admitted.tasks();
        for task in all {
            self.push_if_shown(*task, &mut tasks)?;
        }
        Ok(tasks)
    }

    /// Adds a task to the list, if it appears in the drawing.
    fn push_if_shown(&self, task: u16, tasks: &mut Vec<u16>) -> Result<(), AllocError>
        ensures { OnOk result (tasks.new.items ≡ tasks.old.items ++ tasks_shown (task ∷ []) self.now.tasks) }
    {
        if !self.tasks.contains(&task) {
            return Ok(());
        }
        tasks.push(task)?;
        Ok(())
    }

    /// Returns what the legend explains besides the tasks.
    fn key(&self, rows: &WrittenRows) -> Key
        ensures { result ≡ key_beside self.now.links rows.now }
    {
        Key {
            has_pulls: self.has_link(LinkKind::Pull),
            has_migrations: self.has_link(LinkKind::Migration),
            waits_left_out: rows.waits_left_out,
            wakes_left_out: rows.wakes_left_out,
        }
    }

    /// Tells whether there is a line of this kind.
    fn has_link(&self, kind: LinkKind) -> bool
        ensures { result ≡ has_line kind self.now.links }
    {
        self.links.iter().any(|link| link.kind.is_same(kind))
    }

    /// Writes the rows of the window, and the lines between them.
    fn write_rows(&self, window: &Window, frame: &Frame<'_>) -> Result<WrittenRows, AllocError>
        ensures { IfOk result (AreDrawn window.now (picture_setting frame.now) self.now) }
    {
        let mut rows = WrittenRows {
            text: String::new(self.alloc),
            links: String::new(self.alloc),
            labels: String::new(self.alloc),
            bands: BTreeMap::new(self.alloc),
            bottom: TOP,
            waits_left_out: 0,
            wakes_left_out: 0,
        };
        for number in 0..PROCESSORS {
            self.write_row(number, window, frame, &mut rows)?;
        }
        self.write_links(LinkKind::Migration, frame, &mut rows)?;
        self.write_links(LinkKind::Pull, frame, &mut rows)?;
        Ok(rows)
    }

    /// Adds the row of a processor, if it exists and is shown.
    fn write_row(
        &self,
        number: u8,
        window: &Window,
        frame: &Frame<'_>,
        rows: &mut WrittenRows,
    ) -> Result<(), AllocError>
        ensures { OnOk result (IsRowWrittenIf window.now (picture_setting frame.now) self.now.rows number rows.old rows.new) }
    {
        if !window.shows_processor(number) {
            return Ok(());
        }
        let Some(row) = self.rows.get(usize::from(number)) else {
            return Ok(());
        };
        row.write(self.alloc, number, frame, rows)
    }

    /// Draws all lines of this kind between rows.
    fn write_links(
        &self,
        kind: LinkKind,
        frame: &Frame<'_>,
        rows: &mut WrittenRows,
    ) -> Result<(), AllocError>
        ensures text { OnOk result (string_bytes rows.new.links ≡ string_bytes rows.old.links
            ++ flat_map (link_line kind (picture_setting frame.now) (get nat_cmp rows.old.bands)) self.now.links) }
        ensures unchanged { rows.new ≡ record rows.old { links = rows.new.links } }
    {
        for link in self.links.iter() {
            rows.write_link(kind, link, frame)?;
        }
        Ok(())
    }
}

/// Returns where the legend begins, below rows that end at this height.
fn legend_top(bottom: usize) -> usize
    ensures { result ≡ legend_top bottom }
{
    bottom.saturating_add(AXIS).saturating_add(GAP)
}
