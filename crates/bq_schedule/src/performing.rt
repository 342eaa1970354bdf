//! What each answer changes.
ghost use Rattle.std.specs.Prelude.{◌≡◌, ◌-◌, ◌<◌, length, true};
ghost use Rattle.bq_schedule.specs.Steps.{weight_or_zero, figures_admitted, figures_woken, emptied, figures_taken, waited_there, moves_as, placed, report_of_placement, figures_decided, report_of_decision, blocked, report_of_block, figures_pulled, report_of_pull, performed, report_of_answer, is_there};
ghost use Rattle.bq_schedule.specs.Figures.{task_in_figures};
ghost use Rattle.bq_schedule.specs.Runnable.{figures_left};

use crate::change::{Change, Decision, PulledTask, StopReason, Wake};
use crate::schedule::Schedule;
use bq_hooks::Hook;
use bq_parts::{Event, Reply};
use bq_weights::{is_nice, weight};

impl Schedule {
    /// Applies an answer, and reports what it changes. An answer that is not of its event's kind changes nothing.
    pub(crate) fn perform(&mut self, event: &Event, reply: &Reply) -> Change
        requires { is_there self.old event.now ≡ true }
        ensures figures { self.new ≡ performed self.old event.now reply.now }
        ensures change { result ≡ report_of_answer self.old event.now reply.now }
    {
        match (event, reply) {
            (
                Event::Admit {
                    task,
                    nice,
                    mask: _,
                    slice: _,
                },
                Reply::Admitted,
            ) => {
                self.admit(*task, *nice);
                Change::nothing()
            }
            (
                Event::EndWake { processor, now },
                Reply::Placed {
                    task,
                    to,
                    by,
                    steps,
                },
            ) => self.place(
                *processor,
                *now,
                Decision::new(Hook::Place, *by, *steps),
                *task,
                *to,
            ),
            (
                Event::Drain { processor, now },
                Reply::Drained {
                    count: _,
                    run,
                    by,
                    steps,
                },
            ) => self.drain(
                *processor,
                *now,
                Decision::new(Hook::Preempt, *by, *steps),
                *run,
            ),
            (Event::Tick { processor, now }, Reply::Ticked { run, by, steps }) => {
                self.decide(
                    *processor,
                    *now,
                    Decision::new(Hook::Preempt, *by, *steps),
                    *run,
                )
            }
            (Event::Block { processor, now }, Reply::Blocked { task, run }) => {
                self.block(*processor, *now, *task, *run)
            }
            (
                Event::Pull {
                    processor,
                    from,
                    now,
                },
                Reply::Pulled {
                    task,
                    run,
                    by,
                    steps,
                },
            ) => {
                let decision = Decision::new(Hook::Pull, *by, *steps);
                self.pull(*processor, *from, *now, decision, *task, *run)
            }
            _ => Change::nothing(),
        }
    }

    /// Admits an id. If it was runnable, it no longer is.
    fn admit(&mut self, id: u16, nice: i8)
        ensures { self.new ≡ figures_admitted id nice (figures_left id self.old) }
    {
        self.leave(id);
        let mut task = self.task(id);
        task.is_admitted = true;
        task.nice = nice;
        task.weight = weight_at(nice);
        self.set_task(id, task);
    }

    /// Takes the end of a wake: its task is placed. Reports the change.
    fn place(&mut self, processor: u8, now: u64, decision: Decision, id: u16, to: u8) -> Change
        requires { processor < length self.old.processors }
        ensures figures { self.new ≡ placed processor now decision id to self.old }
        ensures change { result ≡ report_of_placement processor now decision id to self.old }
    {
        let clock = self.read(processor, now);
        let at = clock.reading.current;
        self.count_decision(processor, &decision);
        self.move_to(id, to, at);
        self.wake(id, to, at);
        Change {
            reading: Some(clock.reading),
            slice: clock.slice,
            run: clock.ended_run,
            decision: Some(decision),
            wake: Some(Wake {
                task: id,
                from: processor,
                to,
                at,
            }),
            ..Change::nothing()
        }
    }

    /// Takes a drain: all placed tasks entered, and the hook `preempt` decided. Reports the change.
    fn drain(&mut self, processor: u8, now: u64, decision: Decision, run: Option<u16>) -> Change
        requires { processor < length self.old.processors }
        ensures figures { self.new ≡ emptied processor (figures_decided processor now decision run self.old) }
        ensures change { result ≡ report_of_decision processor now decision run self.old }
    {
        let change = self.decide(processor, now, decision, run);
        let mut figures = self.processor(processor);
        figures.drains = figures.drains.saturating_add(1);
        self.set_processor(processor, figures);
        change
    }

    /// Takes what the hook `preempt` decided: `run` runs now. Reports the change.
    fn decide(&mut self, processor: u8, now: u64, decision: Decision, run: Option<u16>) -> Change
        requires { processor < length self.old.processors }
        ensures figures { self.new ≡ figures_decided processor now decision run self.old }
        ensures change { result ≡ report_of_decision processor now decision run self.old }
    {
        let clock = self.read(processor, now);
        let at = clock.reading.current;
        self.count_decision(processor, &decision);
        let (stop, start) = self.switch(StopReason::Preempted, processor, at, run);
        Change {
            reading: Some(clock.reading),
            slice: clock.slice,
            run: clock.ended_run,
            decision: Some(decision),
            stop,
            start,
            ..Change::nothing()
        }
    }

    /// Takes a block: the running task went to sleep, and `run` runs now. Reports the change.
    fn block(&mut self, processor: u8, now: u64, id: u16, run: Option<u16>) -> Change
        requires { processor < length self.old.processors }
        ensures figures { self.new ≡ blocked processor now id run self.old }
        ensures change { result ≡ report_of_block processor now id run self.old }
    {
        let clock = self.read(processor, now);
        let at = clock.reading.current;
        self.leave(id);
        let (stop, start) = self.switch(StopReason::Blocked, processor, at, run);
        Change {
            reading: Some(clock.reading),
            slice: clock.slice,
            run: clock.ended_run,
            stop,
            start,
            ..Change::nothing()
        }
    }

    /// Takes what the hook `pull` decided: a task may have been pulled, and `run` runs now. Reports the change.
    fn pull(
        &mut self,
        processor: u8,
        from: u8,
        now: u64,
        decision: Decision,
        task: Option<u16>,
        run: Option<u16>,
    ) -> Change
        requires { processor < length self.old.processors }
        ensures figures { self.new ≡ figures_pulled processor now decision task run self.old }
        ensures change { result ≡ report_of_pull processor from now decision task run self.old }
    {
        let clock = self.read(processor, now);
        let at = clock.reading.current;
        self.count_decision(processor, &decision);
        let pull = self.move_pulled(task, from, processor, at);
        let (stop, start) = self.switch(StopReason::Preempted, processor, at, run);
        Change {
            reading: Some(clock.reading),
            slice: clock.slice,
            run: clock.ended_run,
            decision: Some(decision),
            pull,
            stop,
            start,
            ..Change::nothing()
        }
    }

    /// Moves a task that is pulled, if there is one: counts its wait so far, and lets it wait again at its new processor.
    fn move_pulled(&mut self, task: Option<u16>, from: u8, to: u8, at: u64) -> Option<PulledTask>
        ensures figures { self.new ≡ figures_taken to at task self.old }
        ensures reported { result ≡ moves_as from to at task self.old }
    {
        let id = task?;
        let waited = self.count_wait(id, at);
        self.move_to(id, to, at);
        Some(PulledTask {
            task: id,
            from,
            to,
            at,
            waited,
        })
    }

    /// Counts how long a task has waited where it is, and returns that time in nanoseconds.
    fn count_wait(&mut self, id: u16, now: u64) -> u64
        ensures figures { self.new ≡ waited_there id now self.old }
        ensures waited { result ≡ now - (task_in_figures self.old id).waiting_since }
    {
        let mut task = self.task(id);
        let waited = now.saturating_sub(task.waiting_since);
        task.waited = task.waited.saturating_add(waited);
        self.set_task(id, task);
        waited
    }

    /// Counts the wake of a placed task, which ended now.
    fn wake(&mut self, id: u16, processor: u8, now: u64)
        ensures { self.new ≡ figures_woken id processor now self.old }
    {
        let drains = self.processor(processor).drains;
        let mut task = self.task(id);
        task.wakes = task.wakes.saturating_add(1);
        task.woken_at = Some(now);
        task.drains_when_placed = Some(drains);
        self.set_task(id, task);
    }
}

/// Returns the weight of a nice value; 0 if the value is outside the table.
fn weight_at(nice: i8) -> u32
    ensures { result ≡ weight_or_zero nice }
{
    if is_nice(i64::from(nice)) {
        weight(nice)
    } else {
        0
    }
}
