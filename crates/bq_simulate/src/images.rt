//! The images of the policies that are installed at the hooks of all processors.
ghost use Rattle.std.specs.Prelude.{◌≡◌};
ghost use Rattle.bq_trace.specs.Borrowed.{optional_bytes};
ghost use Rattle.bq_simulate.specs.Texts.{image_at};

use bq_hooks::Hook;

/// The bytes of an image for each hook, or none.
#[derive(Clone, Copy)]
pub struct Images<'a> {
    pub place: Option<&'a [u8]>,
    pub preempt: Option<&'a [u8]>,
    pub pull: Option<&'a [u8]>,
}

impl<'a> Images<'a> {
    /// Returns the image for a hook.
    pub fn at(self, hook: Hook) -> Option<&'a [u8]>
        ensures { optional_bytes result ≡ image_at self.entry hook }
    {
        match hook {
            Hook::Place => self.place,
            Hook::Preempt => self.preempt,
            Hook::Pull => self.pull,
        }
    }
}
