//! What the lines of a trace do with its machine, and what is reported of them.
ghost use Rattle.std.specs.Prelude.{◌≡◌, ◌↔◌, IsTrue, Result, Err, is_ok, IfOk, OnOk};
ghost use Rattle.bq_parts.specs.declared.reply.Reply.{Reply};
ghost use Rattle.bq_parts.specs.declared.refusal.Refusal.{Refusal};
ghost use Rattle.bq_parts.specs.declared.refusal.Refusal.TheVariants as no;
ghost use Rattle.bq_trace.specs.Borrowed.{optional_bytes};
ghost use Rattle.bq_trace.specs.TraceEvents.{Gets};
ghost use Rattle.bq_trace.specs.Reporting.{Happens, WakeHappens, Reports};

use crate::any_core::AnyCore;
use crate::loading::Installation;
use crate::phase::Phase;
use crate::reporting::{report, report_bad, report_skipped};
use crate::sink::Sink;
use crate::trace_event::TraceEvent;
use bq_bpf::board::COUNTERS;
use bq_lines::{LineCommand, LineReading};
use bq_parts::{Event, Refusal, Reply};
use std::alloc::{AllocError, Global};

impl AnyCore {
    /// Does an event, and reports it before and after. Returns true if the event was not refused.
    pub fn perform<S: Sink>(
        &mut self,
        alloc: Global,
        number: u64,
        event: Event,
        sink: &mut S,
    ) -> Result<bool, AllocError>
        ensures { IfOk result (λ done. (answer : Result Reply Refusal) × (is_ok answer ≡ done)
            × Gets S.takes sink.old sink.new (λ reported. Happens self.old number event answer reported self.new)) }
    {
        let reported = event.without_policy();
        let coming = TraceEvent::Comes {
            event: &reported,
            machine: self,
        };
        sink.receive(number, &coming)?;
        let answer = self.step(alloc, event);
        if is_out_of_memory(&answer) {
            return Err(AllocError);
        }
        let answered = TraceEvent::Answered {
            event: &reported,
            answer: &answer,
            machine: self,
        };
        sink.receive(number, &answered)?;
        Ok(answer.is_ok())
    }

    /// Begins a wake, and ends it unless the begin was refused.
    fn wake<S: Sink>(
        &mut self,
        alloc: Global,
        number: u64,
        processor: u8,
        task: u16,
        now: u64,
        sink: &mut S,
    ) -> Result<(), AllocError>
        ensures { OnOk result (Gets S.takes sink.old sink.new (λ reported. WakeHappens self.old number processor task now reported self.new)) }
    {
        let begun = self.perform(alloc, number, Event::BeginWake { processor, task }, sink)?;
        if begun {
            self.perform(alloc, number, Event::EndWake { processor, now }, sink)?;
        }
        Ok(())
    }

    /// Does what the line of this number says, and reports what happens. Returns true if the line is bad.
    pub(crate) fn obey<S: Sink>(
        &mut self,
        alloc: Global,
        number: u64,
        line: Option<&[u8]>,
        reading: LineReading<'_>,
        sink: &mut S,
    ) -> Result<bool, AllocError>
        ensures { IfOk result (λ bad. Gets S.takes sink.old sink.new
            (λ reported. Reports (Phase.Running self.old) number (optional_bytes line.entry) reading.entry reported (Phase.Running self.new) bad)) }
    {
        match reading {
            LineReading::Skipped => report_skipped(number, line, sink),
            LineReading::Asks(LineCommand::Does(event)) => {
                self.perform(alloc, number, event, sink)?;
                Ok(false)
            }
            LineReading::Asks(
                LineCommand::Wake {
                    processor,
                    task,
                    now,
                },
            ) => {
                self.wake(alloc, number, processor, task, now, sink)?;
                Ok(false)
            }
            LineReading::Asks(
                LineCommand::Load {
                    processor,
                    hook,
                    generation,
                    image,
                },
            ) => {
                let installation = Installation {
                    processor,
                    hook,
                    generation,
                    image,
                };
                self.install_image(alloc, number, installation, sink)?;
                Ok(false)
            }
            LineReading::Asks(LineCommand::Counter { counter }) => {
                if usize::from(counter) >= COUNTERS {
                    return report_bad(number, line, sink);
                }
                let value = self.counter(counter);
                report(number, &TraceEvent::CounterRead { counter, value }, sink)?;
                Ok(false)
            }
            LineReading::Asks(LineCommand::Show { processor }) => {
                let shown = TraceEvent::ProcessorAsked {
                    processor,
                    machine: self,
                };
                report(number, &shown, sink)?;
                Ok(false)
            }
            LineReading::Bad | LineReading::Asks(LineCommand::Machine { .. }) => {
                report_bad(number, line, sink)
            }
        }
    }
}

/// Returns whether memory ran out in an event.
fn is_out_of_memory(answer: &Result<Reply, Refusal>) -> bool
    ensures { IsTrue result ↔ (answer.now ≡ Err no.OutOfMemory) }
{
    match answer {
        Err(Refusal::OutOfMemory) => true,
        _ => false,
    }
}
