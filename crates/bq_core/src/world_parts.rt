//! The parts that the world is made of, and what an event does to them.
ghost use Rattle.std.specs.Prelude.{◌≡◌, ◌≤◌, ◌<◌, IfOk, length};
ghost use Rattle.bq_bpf.specs.Counters.{Through};
ghost use Rattle.bq_parts.specs.Choices.{by_programs};
ghost use Rattle.bq_parts.specs.Orderly.{IsOrderly};
ghost use Rattle.bq_parts.specs.Steps.{WorldStep};
ghost use Rattle.bq_parts.specs.World.{opening_world, world_of_parts, processor_at, count_in};

use crate::arguments::argument_refusal;
use bq_bpf::Board;
use bq_disc::RunQueue;
use bq_disc::limits::PROCESSORS;
use bq_installed::Scratch;
use bq_parts::{Cpu, Event, Inbox, Lobby, Refusal, Reply};
use std::alloc::{AllocError, Global};
use std::marker::Model;

/// Processors, an inbox for each, the lobby, and the last number drawn. Contracts see the world that they make.
#[derive(Drop)]
pub struct WorldParts<Q: RunQueue> {
    pub(crate) cpus: Vec<Cpu<Q>>,
    pub(crate) inboxes: Vec<Inbox>,
    pub(crate) lobby: Lobby,
    pub(crate) drawn: u64,
}

impl<Q: RunQueue> Model for WorldParts<Q> {
    ghost use Rattle.std.specs.Prelude.{◌≡◌, ◌≤◌, length};
    ghost use Rattle.bq_disc.specs.declared.limits.TheConstants.{PROCESSORS, TASKS};
    ghost use Rattle.bq_parts.specs.World.{World};

    ghost Value = { World };

    ghost view = { λ w. record { processors = w.cpus.items; inboxes = w.inboxes.items; lobby = w.lobby; drawn = w.drawn } };

    ghost invariant = { λ w. (length w.cpus.items ≡ length w.inboxes.items) × (length w.inboxes.items ≤ PROCESSORS) × (length w.lobby ≡ TASKS) };
}

impl<Q: RunQueue + Drop> WorldParts<Q> {
    /// Makes the opening world. It takes all the memory that later events need, except for Admit and Install.
    pub fn new(alloc: Global, count: usize) -> Result<WorldParts<Q>, AllocError>
        requires few { count ≤ PROCESSORS }
        ensures { IfOk result (λ w. w ≡ opening_world count) }
    {
        let mut cpus = Vec::with_capacity(alloc, count)?;
        let mut inboxes = Vec::with_capacity(alloc, count)?;
        'processors: for _ in 0..count {
            cpus.push(Cpu::new())?;
            inboxes.push(Inbox::new())?;
        }
        let lobby = Lobby::new(alloc)?;
        Ok(WorldParts {
            cpus,
            inboxes,
            lobby,
            drawn: 0,
        })
    }
}

impl<Q: RunQueue> WorldParts<Q> {
    /// Makes the world of these parts.
    pub(crate) fn of(
        cpus: Vec<Cpu<Q>>,
        inboxes: Vec<Inbox>,
        lobby: Lobby,
        drawn: u64,
    ) -> WorldParts<Q>
        requires few { length cpus.items ≤ PROCESSORS }
        requires inboxes { length inboxes.items ≡ length cpus.items }
        ensures { result ≡ world_of_parts cpus.items inboxes.items lobby drawn }
    {
        // Reading the lobby brings into the proof that it has an entry for each id.
        let _entries = &lobby;
        WorldParts {
            cpus,
            inboxes,
            lobby,
            drawn,
        }
    }

    /// Lends the processor with this number, to be read.
    pub fn cpu(&self, number: u8) -> &Cpu<Q>
        requires { number < count_in self.now }
        ensures { result.now ≡ processor_at self.now number }
    {
        &self.cpus[usize::from(number)]
    }

    /// Counts the processors.
    pub fn processors(&self) -> usize
        ensures value { result ≡ count_in self.now }
        ensures few { result ≤ PROCESSORS }
    {
        self.cpus.len()
    }

    /// Does one event. The scratch space holds the event's calls of counters afterwards.
    pub(crate) fn step<B: Board>(
        &mut self,
        alloc: Global,
        event: Event,
        scratch: &mut Scratch,
        board: &mut B,
    ) -> Result<Reply, Refusal>
        requires orderly { IsOrderly self.old }
        ensures step { WorldStep (by_programs Q.R.discipline) self.old event scratch.new result self.new }
        ensures board { Through B.leads board.old scratch.new board.new }
    {
        // Reading the processors brings into the proof what always holds of them.
        let _ = &self.cpus;
        scratch.clear();
        if let Some(refusal) = argument_refusal(self.processors(), &event) {
            return Err(refusal);
        }
        match event {
            Event::Admit {
                task,
                nice,
                mask,
                slice,
            } => self.admit(alloc, task, nice, mask, slice),
            Event::Retire { task } => self.retire(task),
            Event::Draw => self.draw(),
            Event::Install {
                processor,
                hook,
                generation,
                policy,
            } => self.install(alloc, processor, hook, generation, policy),
            Event::BeginWake { processor, task } => self.begin_wake(processor, task),
            Event::EndWake { processor, now } => self.end_wake(processor, now, scratch, board),
            Event::Drain { processor, now } => self.drain(processor, now, scratch, board),
            Event::Tick { processor, now } => self.tick(processor, now, scratch, board),
            Event::Block { processor, now } => self.block(processor, now),
            Event::Pull {
                processor,
                from,
                now,
            } => self.pull(processor, from, now, scratch, board),
        }
    }
}
