//! The sink of a timeline: the schedule of a trace, and the form in which it is shown.
ghost use Rattle.bq_streams.specs.Counts.{one_more};
ghost use Rattle.bq_timeline.specs.Notes.{absent_notes, last_notes};
ghost use Rattle.bq_report.specs.Names.{name_of};
ghost use Rattle.bq_timeline.specs.Beginning.{FormBeginsWith, TraceEnds};
ghost use Rattle.bq_timeline.specs.ScreenTexts.{ScreenBegins, state_of};
ghost use Rattle.bq_timeline.specs.Timelines.{TakesEvent};
ghost use Rattle.bq_timeline.specs.TraceTexts.{IsBlank, TextCloses, TextEnds};
ghost use Rattle.bq_timeline.specs.Comments.{ReadsComment, IsSkipped, ViewerRests};
ghost use Rattle.bq_trace.specs.Borrowed.{event_of};
ghost use Rattle.bq_trace.specs.TraceEvents.{Answered};
ghost use Rattle.std.specs.Prelude.{◌≡◌, ◌++◌, ℕ, [], OnOk, string_bytes};

use crate::screen::Screen;
use crate::settings::Settings;
use bq_parts::{Event, Refusal, Reply};
use bq_schedule::Schedule;
use bq_trace::{AnyCore, Sink, TraceEvent};
use std::alloc::{AllocError, Global};

/// A trace so far: its schedule, once it has a machine, and how many of its lines were bad or refused.
#[derive(Drop)]
pub struct Viewer {
    alloc: Global,
    pub schedule: Option<Schedule>,
    pub bad_or_refused: u64,
    pub screen: Screen,
}

impl Viewer {
    /// Returns a viewer to which no line has come.
    pub fn new(alloc: Global, settings: Settings) -> Viewer
        ensures schedule { result.schedule ≡ None }
        ensures bad_or_refused { result.bad_or_refused ≡ 0 }
        ensures asked { result.screen.asked ≡ Some settings }
        ensures names { (task : ℕ) → name_of result.screen.names task ≡ None }
        ensures blank { IsBlank settings (state_of result.screen) }
        ensures text { string_bytes result.screen.text ≡ [] }
    {
        Viewer {
            alloc,
            schedule: None,
            bad_or_refused: 0,
            screen: Screen::new(alloc, settings),
        }
    }

    /// Notes how many wakes of a simulation did nothing because their task did not wait. No trace shows these wakes; the report and the
    /// JSON do.
    pub fn count_missed(&mut self, wakes: u64)
        ensures schedule { self.new.schedule ≡ self.old.schedule }
        ensures bad_or_refused { self.new.bad_or_refused ≡ self.old.bad_or_refused }
    {
        self.screen.count_missed(wakes);
    }

    /// Begins the form, if there is a machine and the form has not begun. It is called at the end, and at each line that says something,
    /// except the machine's and those that read a counter.
    fn begin(&mut self) -> Result<(), AllocError>
        ensures schedule { self.new.schedule ≡ self.old.schedule }
        ensures bad_or_refused { self.new.bad_or_refused ≡ self.old.bad_or_refused }
        ensures form { OnOk result (FormBeginsWith self.old.schedule self.old.screen self.new.screen) }
        ensures text { OnOk result (ScreenBegins self.old.schedule (state_of self.old.screen) (state_of self.new.screen)
            (string_bytes self.old.screen.text) (string_bytes self.new.screen.text)) }
    {
        match &self.schedule {
            Some(schedule) => self.screen.begin(self.alloc, schedule),
            None => Ok(()),
        }
    }

    /// Begins the form, if it can, and counts one more line that is bad or refused.
    fn begin_and_count(&mut self) -> Result<(), AllocError>
        ensures schedule { self.new.schedule ≡ self.old.schedule }
        ensures bad_or_refused { OnOk result (self.new.bad_or_refused ≡ one_more self.old.bad_or_refused) }
        ensures text { OnOk result (ScreenBegins self.old.schedule (state_of self.old.screen) (state_of self.new.screen)
            (string_bytes self.old.screen.text) (string_bytes self.new.screen.text)) }
    {
        self.begin()?;
        self.bad_or_refused = self.bad_or_refused.saturating_add(1);
        Ok(())
    }

    /// Adds an event and its answer to the schedule, and shows them. Counts the event if it was refused.
    ///
    /// A change is large and is built on the stack here, so this is kept out of the path of all else that comes.
    #[inline(never)]
    fn after_event(
        &mut self,
        number: u64,
        event: &Event,
        answer: &Result<Reply, Refusal>,
        machine: &AnyCore,
    ) -> Result<(), AllocError>
        ensures { OnOk result (TakesEvent self.old (Answered event.now answer.now machine.now) self.new) }
    {
        if answer.is_err() {
            self.bad_or_refused = self.bad_or_refused.saturating_add(1);
        }
        let Some(schedule) = &mut self.schedule else {
            return Ok(());
        };
        let change = schedule.add_answer(event, answer);
        self.screen
            .after_event(number, event, answer, machine, &change, schedule)
    }

    /// Ends the trace: begins the form if there is a machine and it has not begun, ends it, and adds the last notes.
    pub fn end(&mut self) -> Result<(), AllocError>
        ensures schedule { self.new.schedule ≡ self.old.schedule }
        ensures bad_or_refused { self.new.bad_or_refused ≡ self.old.bad_or_refused }
        ensures notes { OnOk result (TraceEnds self.old self.new) }
        ensures text { OnOk result (TextCloses self.old.schedule (state_of self.old.screen)
            (string_bytes self.old.screen.text) (string_bytes self.new.screen.text)) }
    {
        self.begin()?;
        self.close()?;
        Ok(())
    }

    /// Ends the form, which has begun if there is a machine, and adds the last notes.
    fn close(&mut self) -> Result<(), AllocError>
        ensures schedule { self.new.schedule ≡ self.old.schedule }
        ensures bad_or_refused { self.new.bad_or_refused ≡ self.old.bad_or_refused }
        ensures notes { OnOk result (string_bytes self.new.screen.notes
            ≡ (string_bytes self.old.screen.notes ++ absent_notes self.old.schedule self.old.screen.tasks.items self.old.screen.part)
            ++ last_notes self.old.schedule self.old.bad_or_refused) }
        ensures text { OnOk result (TextEnds self.old.schedule (state_of self.old.screen)
            (string_bytes self.old.screen.text) (string_bytes self.new.screen.text)) }
    {
        match &self.schedule {
            Some(schedule) => self.screen.end(schedule, self.bad_or_refused),
            None => self.screen.end_unmade(self.bad_or_refused),
        }
    }
}

impl Sink for Viewer {
    ghost takes = { λ old n traced new. TakesEvent old traced new };

    fn receive(&mut self, number: u64, event: &TraceEvent<'_>) -> Result<(), AllocError>
        ensures taken { OnOk result (TakesEvent self.old (event_of event.now) self.new) }

        // A comment changes only the names, even if memory runs out.
        ensures unchanged { IsSkipped (event_of event.now) → ViewerRests self.old self.new }
        ensures short_line { OnOk result (ReadsComment (event_of event.now) self.old.screen.names self.new.screen.names) }
    {
        match event {
            TraceEvent::Opened { discipline, size } => {
                let schedule = Schedule::new(self.alloc, size.processors())?;
                self.screen.set_discipline(*discipline);
                self.schedule = Some(schedule);
                Ok(())
            }
            TraceEvent::Skipped { line } => self.screen.learn_name(line),
            TraceEvent::Comes { event, machine } => {
                self.begin()?;
                self.screen.before_event(number, event, machine)
            }
            TraceEvent::Answered {
                event,
                answer,
                machine,
            } => self.after_event(number, event, answer, machine),
            TraceEvent::NotHex => {
                self.begin_and_count()?;
                self.screen.note_bad_hex(number)
            }
            TraceEvent::NotLoaded { fault } => {
                self.begin_and_count()?;
                self.screen.note_not_loaded(number, *fault)
            }
            TraceEvent::ProcessorAsked { processor, machine } => {
                if machine.cpu(*processor).is_some() {
                    return self.begin();
                }
                self.begin_and_count()?;
                self.screen.note_no_processor(number, *processor)
            }
            TraceEvent::CounterRead { .. } => Ok(()),
            TraceEvent::Bad { line } => {
                self.begin_and_count()?;
                self.screen
                    .note_bad_line(self.alloc, number, *line, self.schedule.is_some())
            }
        }
    }
}
