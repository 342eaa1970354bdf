//! The machine that a trace drives: a core of one of the sizes and under one of the disciplines that a trace may ask for.
ghost use Rattle.std.specs.Prelude.{◌≡◌, ◌<◌, slice_index, IfOk};
ghost use Rattle.std.specs.Borrow.{Bor};
ghost use Rattle.std.specs.Option.{option_map};
ghost use Rattle.bq_parts.specs.Processors.{Processor};
ghost use Rattle.bq_trace.specs.Machines.{opening_machine};
ghost use Rattle.bq_trace.specs.Cores.{processor_in};
ghost use Rattle.bq_trace.specs.Cpus.{cpu_of};

use bq_bpf::Plain;
use bq_bpf::board::COUNTERS;
use bq_cfs::CfsQueue;
use bq_core::DynamicCore;
use bq_disc::RunQueue;
use bq_eevdf::EevdfQueue;
use bq_parts::{Cpu, Event, Refusal, Reply};
use bq_words::{DisciplineName, ProcessorCount};
use std::alloc::{AllocError, Global};
use std::marker::Model;

/// A processor, under whichever discipline its machine has.
#[derive(Clone, Copy)]
pub enum AnyCpu<'a> {
    /// Under CFS.
    Cfs(&'a Cpu<CfsQueue>),
    /// Under EEVDF.
    Eevdf(&'a Cpu<EevdfQueue>),
}

/// A core under each discipline.
#[derive(Drop)]
enum DisciplineCore {
    Cfs(DynamicCore<CfsQueue>),
    Eevdf(DynamicCore<EevdfQueue>),
}

/// A machine. Contracts see its discipline, its world, and the counters that its policies share.
pub struct AnyCore {
    core: DisciplineCore,
    board: Plain,
}

impl Drop for AnyCore {
    fn drop(self) {
        let AnyCore {
            core: _core,
            board: _board,
        } = self;
    }
}

impl Model for AnyCore {
    ghost use Rattle.bq_trace.specs.Machines.{TraceMachine};

    ghost Value = { TraceMachine };

    ghost use Rattle.bq_trace.specs.Cores.{machine_of};

    ghost view = { λ m. machine_of m.core m.board };
}

impl AnyCore {
    ghost use Rattle.bq_trace.specs.Machines.{AdvancesMachine};
    ghost use Rattle.bq_trace.specs.Cpus.{cpu_in};

    /// Makes a machine to which nothing has happened.
    pub fn new(
        alloc: Global,
        discipline: DisciplineName,
        size: ProcessorCount,
    ) -> Result<AnyCore, AllocError>
        ensures { IfOk result (λ m. m ≡ opening_machine discipline size) }
    {
        let count = usize::from(size.processors());
        let core = match discipline {
            DisciplineName::Cfs => match DynamicCore::new(alloc, count) {
                Ok(core) => DisciplineCore::Cfs(core),
                Err(AllocError) => return Err(AllocError),
            },
            DisciplineName::Eevdf => match DynamicCore::new(alloc, count) {
                Ok(core) => DisciplineCore::Eevdf(core),
                Err(AllocError) => return Err(AllocError),
            },
        };
        Ok(AnyCore {
            core,
            board: Plain::new(),
        })
    }

    /// Returns the discipline of the machine's processors.
    pub fn discipline(&self) -> DisciplineName
        ensures { result ≡ self.now.discipline }
    {
        match &self.core {
            DisciplineCore::Cfs(_) => DisciplineName::Cfs,
            DisciplineCore::Eevdf(_) => DisciplineName::Eevdf,
        }
    }

    /// Does one event. An `Err` is the reason why the event was refused.
    pub fn step(&mut self, alloc: Global, event: Event) -> Result<Reply, Refusal>
        ensures { AdvancesMachine self.old event result self.new }
    {
        // Each arm returns by itself: a reply is large, and a common return would move it again.
        match &mut self.core {
            DisciplineCore::Cfs(core) => return core.step(alloc, event, &mut self.board),
            DisciplineCore::Eevdf(core) => return core.step(alloc, event, &mut self.board),
        }
    }

    /// Returns the value of a counter that the policies share.
    pub fn counter(&self, counter: u8) -> u64
        requires { counter < COUNTERS }
        ensures { result ≡ slice_index self.now.counters counter }
    {
        self.board.value(counter)
    }

    /// Returns a processor as it is now, if the machine has it.
    pub fn cpu(&self, processor: u8) -> Option<AnyCpu<'_>>
        ensures { option_map cpu_of result ≡ cpu_in self.now processor }
    {
        match &self.core {
            DisciplineCore::Cfs(core) => match find_cpu(core, processor) {
                Some(cpu) => Some(AnyCpu::Cfs(cpu)),
                None => None,
            },
            DisciplineCore::Eevdf(core) => match find_cpu(core, processor) {
                Some(cpu) => Some(AnyCpu::Eevdf(cpu)),
                None => None,
            },
        }
    }
}

/// Returns a processor, if the core has it.
fn find_cpu<Q: RunQueue>(core: &DynamicCore<Q>, number: u8) -> Option<&Cpu<Q>>
    ensures { option_map (λ (c : Bor Processor). c.now) result ≡ processor_in core.now number }
{
    if usize::from(number) >= core.processors() {
        return None;
    }
    Some(core.cpu(number))
}
