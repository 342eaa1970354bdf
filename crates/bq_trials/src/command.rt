//! Commands to a run queue.
ghost use Rattle.std.specs.Prelude.{◌<◌};
ghost use Rattle.bq_weights.specs.VirtualTime.{IsWeight};

/// A task that may enter, woken or pulled, by how far it was from the mark when it left.
#[derive(Clone, Copy)]
pub(crate) struct Newcomer {
    pub id: u16,
    pub weight: u32,
    pub mask: u64,
    pub slice: u64,
    pub rel: i64,
    pub pulled: bool,
}

/// A call of a queue. A task is named by its id.
#[derive(Clone, Copy)]
pub(crate) enum Command {
    /// A task enters, unless it is there or runs.
    Insert(Newcomer),
    /// A task leaves.
    Take { id: u16 },
    /// Who should run, and whether the current task gives way, and to whom?
    Choose,
    /// The current task and the next change places; where nothing runs the choice runs.
    Next,
    /// The current task has run for this time, in nanoseconds.
    Charge { time: u64 },
    /// The mark is computed again.
    Mark,
    /// The current task leaves to sleep.
    Leave,
    /// Which task follows this one?
    After { v: u64, id: u16 },
    /// Which tasks may go to a processor, and may this one?
    Movable { processor: u8, id: u16 },
}

/// A list of commands without end, the same each time: D. H. Lehmer's method, by the constants of Knuth's MMIX.
#[derive(Clone, Copy)]
pub(crate) struct Draws {
    state: u64,
}

impl Draws {
    /// The list that a seed begins.
    pub(crate) fn new(seed: u64) -> Draws {
        Draws { state: seed }
    }

    /// A number below some other one.
    fn below(&mut self, most: u64) -> u64
        requires { 0 < most }
        ensures { result < most }
    {
        self.state = self
            .state
            .wrapping_mul(6_364_136_223_846_793_005)
            .wrapping_add(1_442_695_040_888_963_407);
        (self.state >> 33) % most
    }

    /// An id of a few hundred, so that most are there and some are not.
    fn id(&mut self) -> u16
        ensures { result < 1024 }
    {
        self.below(300) as u16
    }

    /// The weight of some nice value.
    fn weight(&mut self) -> u32
        ensures { IsWeight result }
    {
        bq_weights::weight(self.below(40) as i8 - 20)
    }

    fn newcomer(&mut self) -> Newcomer {
        Newcomer {
            id: self.id(),
            weight: self.weight(),
            mask: self.below(16),
            slice: 100_000 + self.below(10_000_000),
            rel: self.below(20_000_000) as i64 - 10_000_000,
            pulled: self.below(2) == 1,
        }
    }

    /// The next command.
    pub(crate) fn command(&mut self) -> Command {
        match self.below(16) {
            0 => Command::Take { id: self.id() },
            1 | 2 => Command::Choose,
            3 | 4 | 5 => Command::Next,
            6 | 7 => Command::Charge {
                time: self.below(4_000_000),
            },
            8 => Command::Mark,
            9 => Command::Leave,
            10 => Command::After {
                v: (1 << 32) + self.below(40_000_000),
                id: self.id(),
            },
            11 => Command::Movable {
                processor: self.below(4) as u8,
                id: self.id(),
            },
            _ => Command::Insert(self.newcomer()),
        }
    }
}
