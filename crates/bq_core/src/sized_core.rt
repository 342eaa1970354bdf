//! The world of a number of processors that its type names.
ghost use Rattle.std.specs.Prelude.{◌≡◌, ◌≤◌, ◌<◌, OnErr, IfOk, IfErr, length};
ghost use Rattle.bq_parts.specs.World.{opening_world, world_of_parts, processor_at, count_in};
ghost use Rattle.bq_parts.specs.Choices.{by_programs};
ghost use Rattle.bq_parts.specs.Steps.{StepsOn, RunsOn};
ghost use Rattle.bq_parts.specs.Orderly.{IsOrderly};
ghost use Rattle.bq_parts.specs.declared.refusal.Refusal.TheVariants as no;
ghost use Rattle.bq_core.specs.Laws.{StaysOrderly};

use crate::dynamic_core::DynamicCore;
use bq_bpf::Board;
use bq_disc::RunQueue;
use bq_disc::limits::PROCESSORS;
use bq_parts::{Cpu, Event, Inbox, Lobby, Refusal, Reply};
use std::alloc::{AllocError, Global};
use std::marker::Model;

/// A world of `P` processors, at most 64, each with a run queue `Q`. Each admitted task is in the world exactly once. A task
/// that runs or waits is on a processor of its mask.
#[derive(Drop)]
pub struct Core<Q: RunQueue, const P: usize> {
    world: DynamicCore<Q>,
}

impl<Q: RunQueue, const P: usize> Model for Core<Q, P> {
    ghost use Rattle.std.specs.Prelude.{◌≡◌};
    ghost use Rattle.bq_parts.specs.World.{World, count_in};

    ghost Value = { World };

    ghost view = { λ c. c.world };

    ghost invariant = { λ c. count_in c.world ≡ P };
}

impl<Q: RunQueue + Drop, const P: usize> Core<Q, P> {
    /// Makes the opening world, in which nothing is admitted, drawn or installed. It takes all the memory that later events need,
    /// except for Admit and Install.
    pub fn new(alloc: Global) -> Result<Core<Q, P>, AllocError>
        requires few { P ≤ PROCESSORS }
        ensures opening { IfOk result (λ c. c ≡ opening_world P) }
        ensures orderly { IfOk result (λ c. IsOrderly c) }
    {
        Ok(Core {
            world: DynamicCore::new(alloc, P)?,
        })
    }
}

impl<Q: RunQueue, const P: usize> Core<Q, P> {
    /// Makes a world of these parts, which are in order. It takes no memory.
    pub fn from_parts(
        cpus: Vec<Cpu<Q>>,
        inboxes: Vec<Inbox>,
        lobby: Lobby,
        drawn: u64,
    ) -> Core<Q, P>
        requires few { P ≤ PROCESSORS }
        requires cpus { length cpus.items ≡ P }
        requires inboxes { length inboxes.items ≡ P }
        requires orderly { IsOrderly (world_of_parts cpus.items inboxes.items lobby drawn) }
        ensures { result ≡ world_of_parts cpus.items inboxes.items lobby drawn }
    {
        Core {
            world: DynamicCore::from_parts(cpus, inboxes, lobby, drawn),
        }
    }

    /// Does one event. Policies reach the counters through the board. A refusal changes neither the world nor the board. Only
    /// Admit and Install may run out of memory.
    ///
    /// # Example
    ///
    /// ```
    /// let mut core = Core::<CfsQueue, 1>::new(alloc)?;
    /// let mut board = Plain::new();
    /// let admit = Event::Admit {
    ///     task: 1,
    ///     nice: 0,
    ///     mask: 1,
    ///     slice: 3_000_000,
    /// };
    /// let Ok(Reply::Admitted) = core.step(alloc, admit, &mut board) else {
    ///     return Err(Fail::from("not admitted"));
    /// };
    /// ```
    pub fn step<B: Board>(
        &mut self,
        alloc: Global,
        event: Event,
        board: &mut B,
    ) -> Result<Reply, Refusal>
        ensures step { StepsOn (by_programs Q.R.discipline) B.leads self.old board.old event result self.new board.new }
        ensures orderly { IsOrderly self.new }
    {
        self.world.step(alloc, event, board)
    }

    /// Does some events in order, and lists the answer to each. The list is allocated before the first event: if memory runs
    /// out for it, the answer is OutOfMemory, and nothing has happened.
    ///
    /// # Example
    ///
    /// ```
    /// let mut core = Core::<CfsQueue, 1>::new(alloc)?;
    /// let mut board = Plain::new();
    /// let mut events = Vec::new(alloc);
    /// events.push(Event::Admit {
    ///     task: 1,
    ///     nice: 0,
    ///     mask: 1,
    ///     slice: 3_000_000,
    /// })?;
    /// events.push(Event::Retire { task: 1 })?;
    /// let answers = core.run(alloc, events, &mut board)?;
    /// let [Ok(Reply::Admitted), Ok(Reply::Retired)] = answers.as_slice() else {
    ///     return Err(Fail::from("refused"));
    /// };
    /// ```
    pub fn run<B: Board>(
        &mut self,
        alloc: Global,
        events: Vec<Event>,
        board: &mut B,
    ) -> Result<Vec<Result<Reply, Refusal>>, Refusal>
        ensures ok { IfOk result (λ answers. RunsOn (by_programs Q.R.discipline) B.leads self.old board.old events.items answers.items self.new board.new) }
        ensures err { OnErr result (self.new ≡ self.old) }
        ensures still { OnErr result (board.new ≡ board.old) }
        ensures memory { IfErr result (λ refusal. refusal ≡ no.OutOfMemory) }
        ensures orderly { IsOrderly self.new }
        ensures throughout { StaysOrderly (by_programs Q.R.discipline) self.old events.items }
    {
        self.world.run(alloc, events, board)
    }

    /// Lends the processor with this number, to be read. The number must be below the number of processors.
    pub fn cpu(&self, number: u8) -> &Cpu<Q>
        requires { number < count_in self.now }
        ensures { result.now ≡ processor_at self.now number }
    {
        self.world.cpu(number)
    }

    /// Counts the processors.
    pub fn processors(&self) -> usize
        ensures value { result ≡ count_in self.now }
        ensures few { result ≤ PROCESSORS }
    {
        self.world.processors()
    }
}
