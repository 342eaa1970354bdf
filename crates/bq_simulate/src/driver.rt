//! A machine, and how far it was driven.
ghost use Rattle.std.specs.Prelude.{◌≡◌, IfErr, IfOk, OnErr, OnOk};
ghost use Rattle.bq_simulate.specs.Drives.{reading_of_event, ReadingFalls, IsDriveFault, IsUntouched, ReadingRises, DrivesEvent, Starts};
ghost use Rattle.bq_simulate.specs.declared.drive_fault.DriveFault.TheVariants.{OutOfMemory, Reading};
ghost use Rattle.bq_trace.specs.TraceEvents.{Gets};

use crate::drive_fault::DriveFault;
use bq_disc::clock::LATEST;
use bq_parts::{Event, Refusal, Reply};
use bq_trace::{AnyCore, Sink, TraceEvent};
use bq_words::{DisciplineName, ProcessorCount};
use std::alloc::Global;

/// A machine, the number of the last line of its trace, and the last reading that was given to a clock.
#[derive(Drop)]
pub struct Driver {
    pub machine: AnyCore,
    pub line: u64,
    pub now: u64,
}

impl Driver {
    /// Makes a machine to which nothing has happened, by the first line of its trace, and reports it. Fails only if memory
    /// runs out.
    pub fn new<S: Sink>(
        alloc: Global,
        discipline: DisciplineName,
        size: ProcessorCount,
        sink: &mut S,
    ) -> Result<Driver, DriveFault>
        ensures starts { IfOk result (λ driver. Gets S.takes sink.old sink.new (λ reported. Starts discipline size reported driver)) }
        ensures fault { IfErr result (λ fault. fault ≡ OutOfMemory) }
    {
        let machine = AnyCore::new(alloc, discipline, size)?;
        sink.receive(1, &TraceEvent::Opened { discipline, size })?;
        Ok(Driver {
            machine,
            line: 1,
            now: 0,
        })
    }

    /// Does the event of the next line, and reports it. After `Reading` the machine and the sink are as before; after another
    /// fault nothing is said of them.
    pub fn perform<S: Sink>(
        &mut self,
        alloc: Global,
        event: Event,
        sink: &mut S,
    ) -> Result<Reply, DriveFault>
        ensures does { IfOk result (λ reply. Gets S.takes sink.old sink.new (λ reported. DrivesEvent self.old event reply reported self.new)) }
        ensures fault { IfErr result (λ fault. IsDriveFault self.old event fault) }
        ensures untouched { IfErr result (λ fault. IsUntouched fault self.old self.new sink.old sink.new) }
    {
        self.read(reading_of(&event))?;
        self.line = self.line.saturating_add(1);
        let reported = event.without_policy();
        let coming = TraceEvent::Comes {
            event: &reported,
            machine: &self.machine,
        };
        sink.receive(self.line, &coming)?;
        let answer = self.machine.step(alloc, event);
        let answered = TraceEvent::Answered {
            event: &reported,
            answer: &answer,
            machine: &self.machine,
        };
        sink.receive(self.line, &answered)?;
        match answer {
            Ok(reply) => Ok(reply),
            Err(Refusal::OutOfMemory) => Err(DriveFault::OutOfMemory),
            Err(refusal) => Err(DriveFault::Refused(refusal)),
        }
    }

    /// Gives a reading to a clock. Fails if it is less than the last one or greater than 2^48 - 1, and then changes nothing.
    fn read(&mut self, reading: Option<u64>) -> Result<(), DriveFault>
        ensures rises { OnOk result (ReadingRises self.old.now reading self.new.now) }
        ensures machine { self.new.machine ≡ self.old.machine }
        ensures line { self.new.line ≡ self.old.line }
        ensures falls { IfErr result (λ fault. (fault ≡ Reading) × ReadingFalls self.old.now reading) }
        ensures kept { OnErr result (self.new ≡ self.old) }
    {
        let Some(reading) = reading else {
            return Ok(());
        };
        if reading < self.now || reading > LATEST {
            return Err(DriveFault::Reading);
        }
        self.now = reading;
        Ok(())
    }
}

/// Returns the reading of a clock that comes with an event, if one does.
fn reading_of(event: &Event) -> Option<u64>
    ensures { result ≡ reading_of_event event.now }
{
    match event {
        Event::EndWake { now, .. }
        | Event::Drain { now, .. }
        | Event::Tick { now, .. }
        | Event::Block { now, .. }
        | Event::Pull { now, .. } => Some(*now),
        _ => None,
    }
}
