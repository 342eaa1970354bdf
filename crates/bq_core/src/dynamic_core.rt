//! The world and its events: the call by which everything else drives it.
ghost use Rattle.std.specs.Prelude.{◌≡◌, ◌+◌, ◌≤◌, ◌<◌, [], Err, OnErr, IfOk, IfErr, length, vec_len, vec_capacity};
ghost use Rattle.bq_parts.specs.World.{opening_world, world_of_parts, processor_at, count_in};
ghost use Rattle.bq_parts.specs.Choices.{by_programs};
ghost use Rattle.bq_parts.specs.Steps.{StepsOn, RunsOn};
ghost use Rattle.bq_parts.specs.Orderly.{IsOrderly};
ghost use Rattle.bq_parts.specs.declared.refusal.Refusal.TheVariants as no;
ghost use Rattle.bq_core.specs.Laws.{StaysOrderly};

use crate::world_parts::WorldParts;
use bq_bpf::Board;
use bq_disc::RunQueue;
use bq_disc::limits::PROCESSORS;
use bq_installed::Scratch;
use bq_parts::{Cpu, Event, Inbox, Lobby, Refusal, Reply};
use std::alloc::{AllocError, Global};
use std::marker::Model;

/// A world of at most 64 processors, each with a run queue `Q`. Each admitted task is in the world exactly once. A task that
/// runs or waits is on a processor of its mask. [`Core`](crate::Core) has the number of processors in its type.
#[derive(Drop)]
pub struct DynamicCore<Q: RunQueue> {
    parts: WorldParts<Q>,
    scratch: Scratch,
}

impl<Q: RunQueue> Model for DynamicCore<Q> {
    ghost use Rattle.bq_parts.specs.World.{World};
    ghost use Rattle.bq_parts.specs.Orderly.{IsOrderly};

    ghost Value = { World };

    ghost view = { λ c. c.parts };

    ghost invariant = { λ c. IsOrderly c.parts };
}

impl<Q: RunQueue + Drop> DynamicCore<Q> {
    /// Makes the opening world of this many processors, in which nothing is admitted, drawn or installed. It takes all the memory
    /// that later events need, except for Admit and Install.
    pub fn new(alloc: Global, count: usize) -> Result<DynamicCore<Q>, AllocError>
        requires few { count ≤ PROCESSORS }
        ensures opening { IfOk result (λ c. c ≡ opening_world count) }
        ensures orderly { IfOk result (λ c. IsOrderly c) }
    {
        let parts = WorldParts::new(alloc, count)?;
        Ok(DynamicCore {
            parts,
            scratch: Scratch::new(),
        })
    }
}

impl<Q: RunQueue> DynamicCore<Q> {
    /// Makes a world of these parts, which are in order. It takes no memory.
    pub(crate) fn from_parts(
        cpus: Vec<Cpu<Q>>,
        inboxes: Vec<Inbox>,
        lobby: Lobby,
        drawn: u64,
    ) -> DynamicCore<Q>
        requires few { length cpus.items ≤ PROCESSORS }
        requires inboxes { length inboxes.items ≡ length cpus.items }
        requires orderly { IsOrderly (world_of_parts cpus.items inboxes.items lobby drawn) }
        ensures { result ≡ world_of_parts cpus.items inboxes.items lobby drawn }
    {
        DynamicCore {
            parts: WorldParts::of(cpus, inboxes, lobby, drawn),
            scratch: Scratch::new(),
        }
    }

    /// Does one event. Policies reach the counters through the board. A refusal changes neither the world nor the board.
    /// Only Admit and Install may run out of memory.
    ///
    /// # Example
    ///
    /// ```
    /// let mut core = DynamicCore::<CfsQueue>::new(alloc, 1)?;
    /// let mut board = Plain::new();
    /// let admit = Event::Admit {
    ///     task: 1,
    ///     nice: 0,
    ///     mask: 1,
    ///     slice: 3_000_000,
    /// };
    /// let Ok(Reply::Admitted) = core.step(alloc, admit, &mut board) else {
    ///     return Err(Fail::from("not admitted"));
    /// };
    /// ```
    pub fn step<B: Board>(
        &mut self,
        alloc: Global,
        event: Event,
        board: &mut B,
    ) -> Result<Reply, Refusal>
        ensures step { StepsOn (by_programs Q.R.discipline) B.leads self.old board.old event result self.new board.new }
        ensures orderly { IsOrderly self.new }
    {
        self.parts.step(alloc, event, &mut self.scratch, board)
    }

    /// Does some events in order, and lists the answer to each. The list is allocated before the first event: if memory runs
    /// out for it, the answer is OutOfMemory, and nothing has happened.
    ///
    /// # Example
    ///
    /// ```
    /// let mut core = DynamicCore::<CfsQueue>::new(alloc, 1)?;
    /// let mut board = Plain::new();
    /// let mut events = Vec::new(alloc);
    /// events.push(Event::Admit {
    ///     task: 1,
    ///     nice: 0,
    ///     mask: 1,
    ///     slice: 3_000_000,
    /// })?;
    /// events.push(Event::Retire { task: 1 })?;
    /// let answers = core.run(alloc, events, &mut board)?;
    /// let [Ok(Reply::Admitted), Ok(Reply::Retired)] = answers.as_slice() else {
    ///     return Err(Fail::from("refused"));
    /// };
    /// ```
    pub fn run<B: Board>(
        &mut self,
        alloc: Global,
        events: Vec<Event>,
        board: &mut B,
    ) -> Result<Vec<Result<Reply, Refusal>>, Refusal>
        ensures ok { IfOk result (λ answers. RunsOn (by_programs Q.R.discipline) B.leads self.old board.old events.items answers.items self.new board.new) }
        ensures err { OnErr result (self.new ≡ self.old) }
        ensures still { OnErr result (board.new ≡ board.old) }
        ensures memory { IfErr result (λ refusal. refusal ≡ no.OutOfMemory) }
        ensures orderly { IsOrderly self.new }
        ensures throughout { StaysOrderly (by_programs Q.R.discipline) self.old events.items }
    {
        // Reading the parts brings into the proof what always holds of them.
        let _ = &self.parts;
        let Ok(mut answers) = Vec::with_capacity(alloc, events.len()) else {
            return Err(Refusal::OutOfMemory);
        };
        self.run_all(alloc, events, &mut answers, board);
        Ok(answers)
    }

    /// Does some events in order. The list must have room for their answers, which are added to it.
    fn run_all<B: Board>(
        &mut self,
        alloc: Global,
        events: Vec<Event>,
        answers: &mut Vec<Result<Reply, Refusal>>,
        board: &mut B,
    )
        requires room { vec_len answers.old + length events.items ≤ vec_capacity answers.old }
        requires empty { answers.old.items ≡ [] }
        ensures run { RunsOn (by_programs Q.R.discipline) B.leads self.old board.old events.items answers.new.items self.new board.new }
        ensures orderly { IsOrderly self.new }
    {
        // Reading the parts brings into the proof what always holds of them.
        let _ = &self.parts;
        for event in events {
            let answer = self.step(alloc, event, board);
            answers.push_reserved(answer);
        }
    }

    /// Lends the processor with this number, to be read. The number must be below the number of processors.
    pub fn cpu(&self, number: u8) -> &Cpu<Q>
        requires { number < count_in self.now }
        ensures { result.now ≡ processor_at self.now number }
    {
        self.parts.cpu(number)
    }

    /// Counts the processors.
    pub fn processors(&self) -> usize
        ensures value { result ≡ count_in self.now }
        ensures few { result ≤ PROCESSORS }
    {
        self.parts.processors()
    }
}
