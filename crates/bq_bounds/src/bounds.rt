//! What is measured at all processors of a machine: charges, and what tasks are owed.
ghost use Rattle.std.specs.Prelude.{◌≡◌, ◌≤◌, length, IfOk, replicate, slice_get, List, IsTrue, false};
ghost use Rattle.bq_disc.specs.Tasks.{Task};
ghost use Rattle.bq_bounds.specs.LagWatches.{LagsByGlance, all_lags_after, effect_of, lags_of, needs_no_look, source_forgotten, no_lags};
ghost use Rattle.bq_bounds.specs.Watches.{unwatched, source_disturbed, watches_after};

use crate::glance::Glance;
use crate::lags::Lags;
use crate::running_task::RunningTask;
use crate::watch::Watch;
use bq_disc::Entity;
use bq_disc::limits::TASKS;
use bq_parts::{Event, Reply};
use bq_words::DisciplineName;
use std::alloc::{AllocError, Global};

/// How near each processor of a machine comes to the bounds of its discipline. It takes one answer at a time.
/// Measuring what was charged takes constant time. Measuring what tasks are owed takes a time that grows with the number of tasks, but only
/// if some task may be owed more than any was before.
#[derive(Drop)]
pub struct Bounds {
    pub discipline: DisciplineName,
    watches: Vec<Watch>,
    lags: Vec<Lags>,
}

impl Bounds {
    /// Returns the bounds of this many processors before the first event. `AllocError` if there is no memory for them.
    pub fn new(
        alloc: Global,
        discipline: DisciplineName,
        processors: usize,
    ) -> Result<Bounds, AllocError>
        ensures discipline { IfOk result (λ b. b.discipline ≡ discipline) }
        ensures watches { IfOk result (λ b. b.watches.items ≡ replicate processors unwatched) }
        ensures lags { IfOk result (λ b. b.lags.items ≡ replicate processors no_lags) }
    {
        let watches = vec![in alloc; Watch::new(); processors]?;
        let lags = vec![in alloc; Lags::new(); processors]?;
        Ok(Bounds {
            discipline,
            watches,
            lags,
        })
    }

    /// Takes an answered event of a processor, whose clock rose by `rise` ns with it, and measures the charge. `running` is the running task
    /// before the event, and `mean` the mean of the processor's tasks now.
    pub fn take(
        &mut self,
        processor: u8,
        event: &Event,
        reply: &Reply,
        running: Option<RunningTask>,
        rise: u64,
        mean: u64,
    )
        ensures discipline { self.new.discipline ≡ self.old.discipline }
        ensures watches { self.new.watches.items ≡ watches_after self.old.discipline processor event.now reply.now running rise mean self.old.watches.items }
        ensures lags { self.new.lags ≡ self.old.lags }
    {
        if let Some(watch) = self.watches.get_mut(usize::from(processor)) {
            watch.take(self.discipline, event, reply, running, rise, mean);
        }
        self.disturb_source(event, reply);
    }

    /// Disturbs, under EEVDF, what is measured at the processor that a pull takes a task from.
    fn disturb_source(&mut self, event: &Event, reply: &Reply)
        ensures discipline { self.new.discipline ≡ self.old.discipline }
        ensures watches { self.new.watches.items ≡ source_disturbed self.old.discipline event.now reply.now self.old.watches.items }
        ensures lags { self.new.lags ≡ self.old.lags }
    {
        match self.discipline {
            DisciplineName::Cfs => return,
            DisciplineName::Eevdf => {}
        }
        if let (
            Event::Pull {
                processor: _,
                from,
                now: _,
            },
            Reply::Pulled {
                task: Some(_),
                run: _,
                by: _,
                steps: _,
            },
        ) = (event, reply)
        {
            if let Some(watch) = self.watches.get_mut(usize::from(*from)) {
                watch.disturb();
            }
        }
    }

    /// Takes an answered event of a processor under EEVDF, whose clock rose by `rise` ns with it, and measures what its tasks are owed. `tasks`
    /// are the processor's tasks now.
    pub fn owe(&mut self, processor: u8, event: &Event, reply: &Reply, rise: u64, tasks: &[Entity])
        requires { length tasks.now ≤ TASKS }
        ensures discipline { self.new.discipline ≡ self.old.discipline }
        ensures watches { self.new.watches ≡ self.old.watches }
        ensures lags { self.new.lags.items ≡ all_lags_after processor event.now reply.now rise tasks.now self.old.lags.items }
    {
        if let Some(lags) = self.lags.get_mut(usize::from(processor)) {
            lags.take(event, reply, rise, tasks);
        }
        self.forget_source(event, reply);
    }

    /// Does what `owe` does without looking at each task, if the glance shows that none is owed more than one was before.
    /// Returns whether it did; if not, nothing has changed, and you call `owe`. It takes constant time.
    pub fn owe_unseen(
        &mut self,
        processor: u8,
        event: &Event,
        reply: &Reply,
        rise: u64,
        glance: Glance,
    ) -> bool
        ensures discipline { self.new.discipline ≡ self.old.discipline }
        ensures watches { self.new.watches ≡ self.old.watches }
        ensures done { (xs : List Task) → IsTrue result → LagsByGlance processor event.now reply.now rise glance xs self.old.lags.items self.new.lags.items }
        ensures left { result ≡ false → self.new.lags.items ≡ self.old.lags.items }
        ensures when { result ≡ needs_no_look (effect_of event.now reply.now) glance (lags_of self.old.lags.items processor) }
    {
        let Some(lags) = self.lags.get_mut(usize::from(processor)) else {
            return false;
        };
        if !lags.take_unseen(event, reply, rise, glance) {
            return false;
        }
        self.forget_source(event, reply);
        true
    }

    /// Ends the stretch of the processor that a pull takes a task from.
    fn forget_source(&mut self, event: &Event, reply: &Reply)
        ensures discipline { self.new.discipline ≡ self.old.discipline }
        ensures watches { self.new.watches ≡ self.old.watches }
        ensures lags { self.new.lags.items ≡ source_forgotten event.now reply.now self.old.lags.items }
    {
        if let (
            Event::Pull {
                processor: _,
                from,
                now: _,
            },
            Reply::Pulled {
                task: Some(_),
                run: _,
                by: _,
                steps: _,
            },
        ) = (event, reply)
        {
            if let Some(lags) = self.lags.get_mut(usize::from(*from)) {
                lags.forget();
            }
        }
    }

    /// Returns what was watched at a processor. `None` if the machine does not have this processor.
    pub fn watch(&self, number: u8) -> Option<Watch>
        ensures { result ≡ slice_get self.now.watches.items number }
    {
        self.watches.get(usize::from(number)).copied()
    }

    /// Returns what the tasks of a processor were owed. `None` if the machine does not have this processor.
    pub fn lags(&self, number: u8) -> Option<Lags>
        ensures { result ≡ slice_get self.now.lags.items number }
    {
        self.lags.get(usize::from(number)).copied()
    }
}
