//! Sinks that make texts, which are written as they come.
ghost use Rattle.std.specs.Prelude.{◌≡◌, ℕ, List, [], string_bytes};

use crate::offset_viewer::OffsetViewer;
use bq_simulate::TraceWriter;

/// What makes a text for the output, and notes for standard error, of what it gets.
pub trait Texts {
    /// The text since it was cleared last.
    ghost pending: { Self → List ℕ };

    /// What clearing leaves.
    ghost clears: { Self → Self → Type 0 };

    /// Returns the text since it was cleared last.
    fn text(&self) -> &str
        ensures { result.now ≡ pending self.now };

    /// Returns the notes since they were cleared last.
    fn notes(&self) -> &str;

    /// Clears the text and the notes.
    fn clear(&mut self)
        ensures clears { clears self.old self.new }
        ensures empty { pending self.new ≡ [] };
}

impl Texts for TraceWriter<'_> {
    ghost pending = { λ s. string_bytes s.text };

    ghost clears = { λ old new. new.images ≡ old.images };

    fn text(&self) -> &str {
        self.text.as_str()
    }

    fn notes(&self) -> &str {
        ""
    }

    fn clear(&mut self) {
        self.text.clear();
    }
}

impl Texts for OffsetViewer {
    ghost pending = { λ s. string_bytes s.viewer.screen.text };

    ghost clears = { λ old new. (new.viewer.schedule ≡ old.viewer.schedule) × (new.viewer.bad_or_refused ≡ old.viewer.bad_or_refused) };

    fn text(&self) -> &str {
        self.viewer.screen.text.as_str()
    }

    fn notes(&self) -> &str {
        self.viewer.screen.notes.as_str()
    }

    fn clear(&mut self) {
        self.viewer.screen.text.clear();
        self.viewer.screen.notes.clear();
    }
}
