//! Who runs at a processor.
ghost use Rattle.std.specs.Prelude.{◌≡◌};
ghost use Rattle.bq_schedule.specs.Figures.{task_in_figures};
ghost use Rattle.bq_schedule.specs.Running.{is_run_by, start_of, starts_as, figures_begun, processor_runs, with_latency, task_started, task_preempted, stopped, started, figures_switched, stop_of, stop_at, start_at};

use crate::change::{Start, Stop, StopReason};
use crate::decision_counts::count_if;
use crate::figures::{ProcessorFigures, TaskFigures};
use crate::schedule::Schedule;

impl Schedule {
    /// Lets this task, or none, run at a processor from now on. Returns the stop and the start, if there are any. If the task is the
    /// one that ran before, nothing changes.
    pub(crate) fn switch(
        &mut self,
        reason: StopReason,
        processor: u8,
        now: u64,
        run: Option<u16>,
    ) -> (Option<Stop>, Option<Start>)
        ensures figures { self.new ≡ figures_switched reason processor now run self.old }
        ensures stop { result.0 ≡ stop_at reason processor now run self.old }
        ensures start { result.1 ≡ start_at reason processor now run self.old }
    {
        let running = self.processor(processor).running;
        if is_run_by(running, run) {
            return (None, None);
        }
        (
            self.stop(reason, now, running),
            self.start(processor, now, run),
        )
    }

    /// Stops the task that ran, if there was one.
    fn stop(&mut self, reason: StopReason, now: u64, running: Option<Start>) -> Option<Stop>
        ensures figures { self.new ≡ stopped reason now running self.old }
        ensures stop { result ≡ stop_of reason now running }
    {
        let start = running?;
        if reason == StopReason::Preempted {
            let mut task = self.task(start.task);
            task.preempt(now);
            self.set_task(start.task, task);
        }
        Some(Stop {
            start,
            at: now,
            reason,
        })
    }

    /// Starts a task, or none, at a processor.
    fn start(&mut self, processor: u8, now: u64, run: Option<u16>) -> Option<Start>
        ensures figures { self.new ≡ started processor now run self.old }
        ensures start { result ≡ starts_as processor now run self.old }
    {
        let mut figures = self.processor(processor);
        let start = match run {
            Some(id) => Some(self.begin(processor, now, id)),
            None => None,
        };
        figures.run(start);
        self.set_processor(processor, figures);
        start
    }

    /// Starts a task at a processor, and counts the start.
    fn begin(&mut self, processor: u8, now: u64, id: u16) -> Start
        ensures figures { self.new ≡ figures_begun processor now id self.old }
        ensures start { result ≡ start_of processor id now (task_in_figures self.old id) }
    {
        let mut task = self.task(id);
        let start = task.starting(processor, now, id);
        task.start(&start);
        self.set_task(id, task);
        start
    }
}

impl ProcessorFigures {
    /// Notes that the processor runs the task of this start from now on, or none.
    fn run(&mut self, start: Option<Start>)
        ensures { self.new ≡ processor_runs self.old start }
    {
        if start.is_some() {
            self.switches = self.switches.saturating_add(1);
        }
        self.running = start;
    }
}

impl TaskFigures {
    /// Returns the start that the task has if it starts running now.
    fn starting(&self, processor: u8, at: u64, task: u16) -> Start
        ensures { result ≡ start_of processor task at self.now }
    {
        let latency = match self.woken_at {
            Some(woken) => Some(at.saturating_sub(woken)),
            None => None,
        };
        Start {
            processor,
            task,
            at,
            waited: at.saturating_sub(self.waiting_since),
            latency,
            before: self.last_processor,
        }
    }

    /// Counts a start of the task.
    fn start(&mut self, start: &Start)
        ensures { self.new ≡ task_started self.old start.now }
    {
        self.count_latency(start.latency);
        self.migrations = count_if(self.migrations, start.has_migrated());
        self.waited = self.waited.saturating_add(start.waited);
        self.woken_at = None;
        self.drains_when_placed = None;
        self.last_processor = Some(start.processor);
        self.switches = self.switches.saturating_add(1);
    }

    /// Counts the latency of a wake, if there is one.
    fn count_latency(&mut self, latency: Option<u64>)
        ensures { self.new ≡ with_latency self.old latency }
    {
        let Some(latency) = latency else {
            return;
        };
        self.latency_count = self.latency_count.saturating_add(1);
        self.latency_sum = self.latency_sum.saturating_add(latency);
        self.greatest_latency = self.greatest_latency.max(latency);
    }

    /// Counts that another task runs instead. This one waits from now on.
    fn preempt(&mut self, now: u64)
        ensures { self.new ≡ task_preempted self.old now }
    {
        self.waiting_since = now;
        self.preemptions = self.preemptions.saturating_add(1);
    }
}

/// Tells whether the running task is this one. If no task is given: whether nothing runs.
fn is_run_by(running: Option<Start>, run: Option<u16>) -> bool
    ensures { result ≡ is_run_by running run }
{
    match (running, run) {
        (Some(start), Some(id)) => start.task == id,
        (None, None) => true,
        _ => false,
    }
}
