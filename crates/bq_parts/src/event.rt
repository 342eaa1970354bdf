//! What may happen in the world.
ghost use Rattle.std.specs.Prelude.{◌≡◌};
ghost use Rattle.bq_parts.specs.Events.{with_policy, without_policy};

use bq_hooks::Hook;
use bq_installed::Policy;

/// One event. Processors are numbered from 0, tasks from 0 to 1023; `now` is a reading of the processor's clock, in
/// nanoseconds.
#[derive(Drop)]
pub enum Event {
    /// A new task enters the lobby. Mask bits from the number of processors on are ignored. The slice is in nanoseconds.
    Admit {
        task: u16,
        nice: i8,
        mask: u64,
        slice: u64,
    },
    /// A task leaves the lobby for good.
    Retire {
        task: u16,
    },
    /// The next generation's number is drawn.
    Draw,
    /// A policy, or none, replaces what is installed at a hook of a processor, as this generation.
    Install {
        processor: u8,
        hook: Hook,
        generation: u64,
        policy: Option<Policy>,
    },
    /// A sleeping task goes into the hand of a processor, with the loads of that moment.
    BeginWake {
        processor: u8,
        task: u16,
    },
    /// The task in the hand is placed on a processor.
    EndWake {
        processor: u8,
        now: u64,
    },
    /// All tasks that were placed on a processor enter its queue.
    Drain {
        processor: u8,
        now: u64,
    },
    /// The clock of a processor ticks: time is charged, and it is decided who runs.
    Tick {
        processor: u8,
        now: u64,
    },
    /// The running task goes to sleep.
    Block {
        processor: u8,
        now: u64,
    },
    /// A processor takes a task from the queue of another.
    Pull {
        processor: u8,
        from: u8,
        now: u64,
    },
}

impl Event {
    /// Copies the event. The copy of an `Install` has `policy` in place of its own.
    #[inline(always)]
    pub fn with_policy(&self, policy: Option<Policy>) -> Event
        ensures { result ≡ with_policy self.now policy }
    {
        match *self {
            Event::Install {
                processor,
                hook,
                generation,
                policy: _,
            } => Event::Install {
                processor,
                hook,
                generation,
                policy,
            },
            _ => self.without_policy(),
        }
    }

    /// Copies the event without the policy that it brings. The copy can be reported after the event itself is done.
    #[inline(always)]
    pub fn without_policy(&self) -> Event
        ensures { result ≡ without_policy self.now }
    {
        match *self {
            Event::Admit {
                task,
                nice,
                mask,
                slice,
            } => Event::Admit {
                task,
                nice,
                mask,
                slice,
            },
            Event::Retire { task } => Event::Retire { task },
            Event::Draw => Event::Draw,
            Event::Install {
                processor,
                hook,
                generation,
                policy: _,
            } => Event::Install {
                processor,
                hook,
                generation,
                policy: None,
            },
            Event::BeginWake { processor, task } => Event::BeginWake { processor, task },
            Event::EndWake { processor, now } => Event::EndWake { processor, now },
            Event::Drain { processor, now } => Event::Drain { processor, now },
            Event::Tick { processor, now } => Event::Tick { processor, now },
            Event::Block { processor, now } => Event::Block { processor, now },
            Event::Pull {
                processor,
                from,
                now,
            } => Event::Pull {
                processor,
                from,
                now,
            },
        }
    }
}
