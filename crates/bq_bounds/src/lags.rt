//! What the tasks of one processor are owed under EEVDF, while no task comes or goes.
ghost use Rattle.std.specs.Prelude.{◌≡◌, ◌≤◌, length, List, IsTrue, false, Some};
ghost use Rattle.bq_disc.specs.Tasks.{Task};
ghost use Rattle.bq_disc.specs.Counts.{saturating_sum};
ghost use Rattle.bq_bounds.specs.Glances.{IsGlance};
ghost use Rattle.bq_bounds.specs.Lags.{stretched};
ghost use Rattle.bq_bounds.specs.LagWatches.{effect_by, effect_of, decided_in, forgotten, gone_on, lags_after, needs_no_look, no_lags};

use crate::charge::Charge;
use crate::glance::Glance;
use crate::stretch::Stretch;
use crate::watch::greater;
use bq_disc::Entity;
use bq_disc::limits::TASKS;
use bq_hooks::By;
use bq_parts::{Event, Reply};

/// What an event does to the tasks that are there.
#[derive(Clone, Copy)]
pub enum Effect {
    /// Time is charged, and no decision is made.
    Passes,
    /// Time is charged, and the discipline decides who runs.
    Decides,
    /// A task comes or goes, or a policy decides who runs.
    Breaks,
}

/// The lags of a processor's tasks. Counts stop at their type's greatest number.
#[derive(Clone, Copy)]
pub struct Lags {
    /// The current stretch. `None` if none has begun, or if a task was pulled from this processor since.
    pub stretch: Option<Stretch>,
    /// At how many readings of the clock the lags were measured.
    pub measured: u64,
    /// At how many readings a new stretch began instead.
    pub left_out: u64,
    /// The first of the greatest measures: what a task was owed, and what it may be owed.
    pub greatest: Option<Charge>,
}

impl Lags {
    /// Returns the lags before the first event.
    pub fn new() -> Lags
        ensures { result ≡ no_lags }
    {
        Lags {
            stretch: None,
            measured: 0,
            left_out: 0,
            greatest: None,
        }
    }

    /// Takes an answered event of the processor, whose clock rose by `rise` ns with it, and measures what its tasks are owed. `tasks` are the
    /// processor's tasks now.
    pub fn take(&mut self, event: &Event, reply: &Reply, rise: u64, tasks: &[Entity])
        requires { length tasks.now ≤ TASKS }
        ensures { self.new ≡ lags_after (effect_of event.now reply.now) rise tasks.now self.old }
    {
        let effect = effect_of(event, reply);
        match self.stretch {
            Some(stretch) if effect != Effect::Breaks => self.extend(stretch, effect, rise, tasks),
            _ => {
                self.left_out = self.left_out.saturating_add(1);
                self.stretch = Some(Stretch::begin(tasks));
            }
        }
    }

    /// Does what `take` does without looking at each task, if the glance shows that none is owed more than one was before.
    /// Returns whether it did; if not, nothing has changed.
    pub fn take_unseen(&mut self, event: &Event, reply: &Reply, rise: u64, glance: Glance) -> bool
        ensures done { (xs : List Task) → IsTrue result → IsGlance glance self.old.stretch xs → self.new ≡ lags_after (effect_of event.now reply.now) rise xs self.old }
        ensures left { result ≡ false → self.new ≡ self.old }
        ensures when { result ≡ needs_no_look (effect_of event.now reply.now) glance self.old }
    {
        let effect = effect_of(event, reply);
        let (Some(stretch), Some(greatest)) = (self.stretch, self.greatest) else {
            return false;
        };
        if effect == Effect::Breaks || stretch.at_most_owed(glance) > greatest.difference {
            return false;
        }
        self.extend_unseen(stretch, effect, rise);
        true
    }
}

impl Lags {
    /// Extends the stretch by a rise of the clock, and measures what the tasks are owed. The discipline may decide.
    fn extend(&mut self, stretch: Stretch, effect: Effect, rise: u64, tasks: &[Entity])
        requires { length tasks.now ≤ TASKS }
        ensures { self.new ≡ gone_on effect rise tasks.now stretch self.old }
    {
        let mut stretch = stretch;
        stretch.rise(rise);
        if let Some(lag) = stretch.most_owed(tasks) {
            self.measured = self.measured.saturating_add(1);
            self.greatest = Some(greater(self.greatest, lag));
        }
        if effect == Effect::Decides {
            stretch.decide();
        }
        self.stretch = Some(stretch);
    }

    /// Extends the stretch by a rise of the clock, without a look at each task: none is owed more than one was before.
    fn extend_unseen(&mut self, stretch: Stretch, effect: Effect, rise: u64)
        ensures { self.new ≡ record self.old { stretch = Some (decided_in effect (stretched rise stretch)); measured = saturating_sum self.old.measured 1 } }
    {
        let mut stretch = stretch;
        stretch.rise(rise);
        self.measured = self.measured.saturating_add(1);
        if effect == Effect::Decides {
            stretch.decide();
        }
        self.stretch = Some(stretch);
    }

    /// Ends the stretch, because a task was pulled from this processor.
    pub fn forget(&mut self)
        ensures { self.new ≡ forgotten self.old }
    {
        self.stretch = None;
    }
}

/// Finds what an event does to the tasks that are there.
fn effect_of(event: &Event, reply: &Reply) -> Effect
    ensures { result ≡ effect_of event.now reply.now }
{
    match (event, reply) {
        (
            Event::Tick { .. },
            Reply::Ticked {
                run: _,
                by,
                steps: _,
            },
        ) => effect_by(*by),
        (
            Event::Drain { .. },
            Reply::Drained {
                count: 0,
                run: _,
                by,
                steps: _,
            },
        ) => effect_by(*by),
        (Event::EndWake { .. }, Reply::Placed { .. }) => Effect::Passes,
        _ => Effect::Breaks,
    }
}

/// Finds the effect of a decision, by who made it.
fn effect_by(by: By) -> Effect
    ensures { result ≡ effect_by by }
{
    match by {
        By::Discipline => Effect::Decides,
        By::Policy => Effect::Breaks,
    }
}
