//! Images that a trace installs, and the lines that refuse them.
ghost use Rattle.std.specs.Prelude.{◌≡◌, ◌++◌, OnOk, string_bytes};
ghost use Rattle.bq_trace.specs.Loading.{load_fault_line};

use crate::any_core::AnyCore;
use crate::reporting::report;
use crate::sink::Sink;
use crate::trace_event::TraceEvent;
use bq_hooks::Hook;
use bq_installed::Policy;
use bq_lines::HexWord;
use bq_load::{LoadFault, load};
use bq_parts::Event;
use std::alloc::{AllocError, Global};

/// An image to install, spelled in hex, with the processor, the hook and the generation that it is installed under.
#[derive(Drop)]
pub struct Installation<'a> {
    pub processor: u8,
    pub hook: Hook,
    pub generation: u64,
    pub image: HexWord<'a>,
}

impl AnyCore {
    ghost use Rattle.bq_trace.specs.TraceEvents.{Gets};
    ghost use Rattle.bq_trace.specs.Reporting.{InstallationHappens};

    /// Loads an image that is spelled in hex, installs its policy as an event, and reports what happens. An image that does not
    /// load is refused, and nothing happens in the machine.
    pub fn install_image<S: Sink>(
        &mut self,
        alloc: Global,
        number: u64,
        installation: Installation<'_>,
        sink: &mut S,
    ) -> Result<(), AllocError>
        ensures { OnOk result (Gets S.takes sink.old sink.new (λ reported. InstallationHappens self.old number installation.entry reported self.new)) }
    {
        let Installation {
            processor,
            hook,
            generation,
            image,
        } = installation;
        let bytes = match hex::decode(alloc, image.as_bytes()) {
            Ok(bytes) => bytes,
            Err(hex::FromHexError::OutOfMemory) => return Err(AllocError),
            Err(_) => return report(number, &TraceEvent::NotHex, sink),
        };
        match load(alloc, bytes.as_slice()) {
            Ok(program) => {
                let policy = Some(Policy::new(alloc, program)?);
                let event = Event::Install {
                    processor,
                    hook,
                    generation,
                    policy,
                };
                self.perform(alloc, number, event, sink)?;
                Ok(())
            }
            Err(LoadFault::OutOfMemory) => Err(AllocError),
            Err(fault) => report(number, &TraceEvent::NotLoaded { fault }, sink),
        }
    }
}

/// Adds the line that refuses an image, with the reason.
pub fn write_fault(text: &mut String, fault: LoadFault) -> Result<(), AllocError>
    ensures { OnOk result (string_bytes text.new ≡ string_bytes text.old ++ load_fault_line fault) }
{
    write!(text, "refused {fault}\n")
}
