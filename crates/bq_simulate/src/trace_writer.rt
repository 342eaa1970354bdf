//! The sink that writes the text of a trace.
ghost use Rattle.std.specs.Prelude.{◌≡◌, [], string_bytes};
ghost use Rattle.bq_trace.specs.Borrowed.{optional_bytes};
ghost use Rattle.bq_simulate.specs.Texts.{WritesEvent, brought, image_at};

use crate::images::Images;
use crate::{write_event, write_machine};
use bq_parts::Event;
use bq_trace::{Sink, TraceEvent};
use std::alloc::{AllocError, Global};
use std::fmt::Write;

/// The text of a trace that asks for what was reported until now. Installs are written with their images.
#[derive(Drop)]
pub struct TraceWriter<'a> {
    alloc: Global,
    images: Images<'a>,
    pub text: String,
}

impl<'a> TraceWriter<'a> {
    /// Makes a writer to which nothing has come.
    pub fn new(alloc: Global, images: Images<'a>) -> TraceWriter<'a>
        ensures text { string_bytes result.text ≡ [] }
        ensures images { result.images ≡ images.entry }
    {
        TraceWriter {
            alloc,
            images,
            text: String::new(alloc),
        }
    }

    /// Returns the image that an event brings.
    fn brought(&self, event: &Event) -> Option<&'a [u8]>
        ensures { optional_bytes result ≡ brought (image_at self.now.images) event.now }
    {
        match event {
            Event::Install { hook, .. } => self.images.at(*hook),
            _ => None,
        }
    }
}

impl Sink for TraceWriter<'_> {
    ghost takes = { λ old n traced new. (new.images ≡ old.images) × WritesEvent (image_at old.images) (string_bytes old.text) traced (string_bytes new.text) };

    fn receive(&mut self, _number: u64, event: &TraceEvent<'_>) -> Result<(), AllocError> {
        match event {
            TraceEvent::Opened { discipline, size } => {
                write_machine(&mut self.text, *discipline, *size)
            }
            TraceEvent::Skipped { line } => match std::str::from_utf8(line) {
                Ok(line) => write!(self.text, "{line}\n"),
                Err(_) => Ok(()),
            },
            TraceEvent::Comes { event, .. } => {
                let image = self.brought(event);
                write_event(self.alloc, &mut self.text, event, image)
            }
            TraceEvent::Answered { .. }
            | TraceEvent::NotHex
            | TraceEvent::NotLoaded { .. }
            | TraceEvent::ProcessorAsked { .. }
            | TraceEvent::CounterRead { .. }
            | TraceEvent::Bad { .. } => Ok(()),
        }
    }
}
