//! How far a task has come in what it does.
ghost use Rattle.std.specs.Prelude.{◌≡◌, ◌<◌, ◌≤◌, ◌+◌, ◌^◌, true, IfSome, IfNone};

/// Where a task is.
#[derive(Clone, Copy)]
pub enum TaskState {
    /// It sleeps until its timer wakes it.
    Asleep,
    /// It sleeps until another task wakes it.
    Waiting,
    /// It runs, or waits for a processor.
    Runnable,
    /// It has done all that it does, and sleeps for good.
    Over,
}

/// How far a task has come. Times are nanoseconds.
#[derive(Clone, Copy)]
pub struct TaskProgress {
    /// The index of its kind.
    pub kind: usize,
    /// The index of the action that it does next.
    pub action: usize,
    /// How many tasks the wake that it does next has come to.
    pub woken: u16,
    /// How often it has done all its actions.
    pub loops: u64,
    pub task_state: TaskState,
    /// When its timer wakes it, if it is asleep.
    pub timer: u64,
    /// What its run phase takes: its length, and the costs of changes of processor.
    pub due: u64,
    /// What it has got of that.
    pub got: u64,
    /// The processor that it ran on last; before it first ran, the one from which its first wake comes.
    pub home: u8,
    /// Whether it has run.
    pub has_run: bool,
}

impl TaskProgress {
    ghost use Rattle.bq_workload.specs.TaskProgress.{advanced, phase_begun, fresh_task, run_for, moved_to, progress_woken, is_done, keeps_time, lacks_more, sleeps_past};

    /// A task that has done nothing, and sleeps until its timer wakes it first.
    pub fn new(kind: usize, home: u8, start: u64) -> TaskProgress
        ensures { result ≡ fresh_task kind home start }
    {
        TaskProgress {
            kind,
            action: 0,
            woken: 0,
            loops: 0,
            task_state: TaskState::Asleep,
            timer: start,
            due: 0,
            got: 0,
            home,
            has_run: false,
        }
    }

    /// A run phase of this length begins.
    pub fn begin(&mut self, length: u64)
        ensures { self.new ≡ phase_begun length self.old }
    {
        self.due = length;
        self.got = 0;
    }

    /// The task has run for this long. None if 64 bits cannot count what it has got; then nothing changes.
    pub fn run_for(&mut self, ran: u64) -> Option<()>
        ensures some { IfSome result (λ _. self.new ≡ run_for ran self.old) }
        ensures none { IfNone result (self.new ≡ self.old) }
        ensures cause { IfNone result (2 ^ 64 ≤ self.old.got + ran) }
        ensures overrun { IfNone result (self.old.due < self.old.got + ran) }
    {
        // 64 bits count each phase, so what they do not count is longer than the phase.
        prove!(self.due <= u64::MAX);
        self.got = self.got.checked_add(ran)?;
        Some(())
    }

    /// The task begins to run at a processor. If it ran at another before, the rest of its phase is longer by the cost; a task
    /// that has run past its phase has no rest. A phase is at most what 64 bits count: no run of a simulation lasts as long.
    pub fn move_to(&mut self, processor: u8, cost: u64)
        ensures { self.new ≡ moved_to processor cost self.old }
    {
        if self.has_run && self.home != processor && self.got <= self.due {
            self.due = self.due.saturating_add(cost);
        }
        self.home = processor;
        self.has_run = true;
    }

    /// Wakes the task, which has no run phase yet.
    pub fn wake(&mut self)
        ensures { self.new ≡ progress_woken self.old }
    {
        self.task_state = TaskState::Runnable;
        self.due = 0;
        self.got = 0;
    }

    /// Whether the task has got exactly what its run phase takes.
    pub fn is_done(&self) -> bool
        ensures { result ≡ is_done self.now }
    {
        self.got == self.due
    }

    /// Whether the task has got no more than its run phase takes, and no timer wakes it until the end.
    pub fn keeps_time(&self, end: u64) -> bool
        ensures { result ≡ keeps_time end self.now }
    {
        self.got <= self.due && self.sleeps_past(end)
    }

    /// Whether no timer wakes the task until the end.
    fn sleeps_past(&self, end: u64) -> bool
        ensures { result ≡ sleeps_past end self.now }
    {
        match self.task_state {
            TaskState::Asleep => end < self.timer,
            _ => true,
        }
    }

    /// Whether the task lacks more of its phase than it can get from this instant until the end.
    pub fn lacks_more(&self, since: u64, end: u64) -> bool
        ensures { result ≡ lacks_more since end self.now }
    {
        u128::from(end) + u128::from(self.got) < u128::from(since) + u128::from(self.due)
    }

    /// Goes on to the next of this many actions; after the last to the first, and it has done them all again.
    pub fn advance(&mut self, actions: usize)
        ensures { self.new ≡ advanced actions self.old }
    {
        self.woken = 0;
        if self.action.saturating_add(1) >= actions {
            self.action = 0;
            self.loops = self.loops.saturating_add(1);
        } else {
            self.action += 1;
        }
    }
}
