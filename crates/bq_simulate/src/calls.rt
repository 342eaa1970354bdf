//! A call for each kind of event, which returns what the answer says.
ghost use Rattle.std.specs.Prelude.{◌∷◌, [], IfErr, IfOk, OnOk, Some};
ghost use Rattle.bq_parts.specs.declared.event.Event.TheVariants.{Admit, Draw, Install, EndWake, Drain, Tick, Block, Pull};
ghost use Rattle.bq_parts.specs.declared.reply.Reply.{Reply};
ghost use Rattle.bq_parts.specs.declared.reply.Reply.TheVariants.{Drawn};
ghost use Rattle.bq_simulate.specs.Drives.{EventIsDriven, EventsAreDriven, IsDriveFault, IsWakeFault, PlaceIsDriven, PlacesWoken, PullIsDriven, DrainIsDriven, RunIsDriven};
ghost use Rattle.bq_trace.specs.TraceEvents.{Gets};

use crate::drive_fault::DriveFault;
use crate::driver::Driver;
use bq_hooks::Hook;
use bq_installed::Policy;
use bq_parts::{Event, Reply};
use bq_trace::Sink;
use std::alloc::Global;

/// A task that a processor took from another, if any, and the task that runs there now.
#[derive(Clone, Copy)]
pub struct Moved {
    pub task: Option<u16>,
    pub run: Option<u16>,
}

/// The number of tasks that entered a queue, and the task that runs there now.
#[derive(Clone, Copy)]
pub struct Entered {
    pub count: u32,
    pub run: Option<u16>,
}

impl Driver {
    /// Admits a task, which sleeps from then on.
    pub fn admit<S: Sink>(
        &mut self,
        alloc: Global,
        task: u16,
        nice: i8,
        mask: u64,
        slice: u64,
        sink: &mut S,
    ) -> Result<(), DriveFault>
        ensures does { OnOk result ((reply : Reply) × EventIsDriven S.takes sink.old self.old (Admit task nice mask slice) reply sink.new self.new) }
        ensures fault { IfErr result (λ fault. IsDriveFault self.old (Admit task nice mask slice) fault) }
    {
        let event = Event::Admit {
            task,
            nice,
            mask,
            slice,
        };
        match self.perform(alloc, event, sink)? {
            Reply::Admitted => Ok(()),
            _ => unreachable!(),
        }
    }

    /// Wakes a task from a processor at an instant, and places it. Returns the processor on which it was placed.
    pub fn wake<S: Sink>(
        &mut self,
        alloc: Global,
        processor: u8,
        task: u16,
        now: u64,
        sink: &mut S,
    ) -> Result<u8, DriveFault>
        ensures does { IfOk result (λ to. Gets S.takes sink.old sink.new (λ reported. PlacesWoken self.old processor task now to reported self.new)) }
        ensures fault { IfErr result (λ fault. IsWakeFault self.old processor task now fault) }
    {
        match self.perform(alloc, Event::BeginWake { processor, task }, sink)? {
            Reply::Begun { .. } => self.place(alloc, processor, now, sink),
            _ => unreachable!(),
        }
    }

    /// Places the task in a processor's hand. Returns the processor on which it was placed.
    fn place<S: Sink>(
        &mut self,
        alloc: Global,
        processor: u8,
        now: u64,
        sink: &mut S,
    ) -> Result<u8, DriveFault>
        ensures does { IfOk result (λ to. PlaceIsDriven S.takes sink.old self.old processor now to sink.new self.new) }
        ensures fault { IfErr result (λ fault. IsDriveFault self.old (EndWake processor now) fault) }
    {
        match self.perform(alloc, Event::EndWake { processor, now }, sink)? {
            Reply::Placed { to, .. } => Ok(to),
            _ => unreachable!(),
        }
    }

    /// Takes the tasks that were placed on a processor into its queue. Returns their number, and the task that runs there
    /// afterwards.
    pub fn drain<S: Sink>(
        &mut self,
        alloc: Global,
        processor: u8,
        now: u64,
        sink: &mut S,
    ) -> Result<Entered, DriveFault>
        ensures does { IfOk result (λ entered. DrainIsDriven S.takes sink.old self.old processor now entered.count entered.run sink.new self.new) }
        ensures fault { IfErr result (λ fault. IsDriveFault self.old (Drain processor now) fault) }
    {
        match self.perform(alloc, Event::Drain { processor, now }, sink)? {
            Reply::Drained { count, run, .. } => Ok(Entered { count, run }),
            _ => unreachable!(),
        }
    }

    /// Lets the clock of a processor tick. Returns the task that runs there afterwards.
    pub fn tick<S: Sink>(
        &mut self,
        alloc: Global,
        processor: u8,
        now: u64,
        sink: &mut S,
    ) -> Result<Option<u16>, DriveFault>
        ensures does { IfOk result (λ run. RunIsDriven S.takes sink.old self.old (Tick processor now) run sink.new self.new) }
        ensures fault { IfErr result (λ fault. IsDriveFault self.old (Tick processor now) fault) }
    {
        match self.perform(alloc, Event::Tick { processor, now }, sink)? {
            Reply::Ticked { run, .. } => Ok(run),
            _ => unreachable!(),
        }
    }

    /// Puts the task that runs at a processor to sleep. Returns the task that runs there afterwards.
    pub fn block<S: Sink>(
        &mut self,
        alloc: Global,
        processor: u8,
        now: u64,
        sink: &mut S,
    ) -> Result<Option<u16>, DriveFault>
        ensures does { IfOk result (λ run. RunIsDriven S.takes sink.old self.old (Block processor now) run sink.new self.new) }
        ensures fault { IfErr result (λ fault. IsDriveFault self.old (Block processor now) fault) }
    {
        match self.perform(alloc, Event::Block { processor, now }, sink)? {
            Reply::Blocked { run, .. } => Ok(run),
            _ => unreachable!(),
        }
    }

    /// Looks for a task that a processor may take from the queue of another. Returns the task that it took, if any, and the
    /// task that runs there afterwards.
    pub fn pull<S: Sink>(
        &mut self,
        alloc: Global,
        processor: u8,
        from: u8,
        now: u64,
        sink: &mut S,
    ) -> Result<Moved, DriveFault>
        ensures does { IfOk result (λ moved. PullIsDriven S.takes sink.old self.old processor from now moved.task moved.run sink.new self.new) }
        ensures fault { IfErr result (λ fault. IsDriveFault self.old (Pull processor from now) fault) }
    {
        let event = Event::Pull {
            processor,
            from,
            now,
        };
        match self.perform(alloc, event, sink)? {
            Reply::Pulled { task, run, .. } => Ok(Moved { task, run }),
            _ => unreachable!(),
        }
    }

    /// Draws the next generation's number.
    pub fn draw<S: Sink>(&mut self, alloc: Global, sink: &mut S) -> Result<u64, DriveFault>
        ensures does { IfOk result (λ generation. EventIsDriven S.takes sink.old self.old Draw (Drawn generation) sink.new self.new) }
        ensures fault { IfErr result (λ fault. IsDriveFault self.old Draw fault) }
    {
        match self.perform(alloc, Event::Draw, sink)? {
            Reply::Drawn { generation } => Ok(generation),
            _ => unreachable!(),
        }
    }

    /// Installs a policy at a hook of a processor.
    pub fn install<S: Sink>(
        &mut self,
        alloc: Global,
        processor: u8,
        hook: Hook,
        generation: u64,
        policy: Policy,
        sink: &mut S,
    ) -> Result<(), DriveFault>
        ensures does { OnOk result (EventsAreDriven S.takes sink.old self.old (Install processor hook generation (Some policy) ∷ []) sink.new self.new) }
        ensures fault { IfErr result (λ fault. IsDriveFault self.old (Install processor hook generation (Some policy)) fault) }
    {
        let event = Event::Install {
            processor,
            hook,
            generation,
            policy: Some(policy),
        };
        match self.perform(alloc, event, sink)? {
            Reply::Installed => Ok(()),
            _ => unreachable!(),
        }
    }
}
