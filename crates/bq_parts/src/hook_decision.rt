//! A choice as it was decided.
ghost use Rattle.std.specs.Prelude.{◌≡◌};

use bq_hooks::{By, Choice};
use std::alloc::AllocError;

/// What was chosen, by whom, and in how many steps of a policy; 0 steps if none was asked.
#[derive(Copy)]
pub struct HookDecision<T> {
    pub choice: T,
    pub by: By,
    pub steps: u32,
}

impl<T: Copy> Clone for HookDecision<T> {
    fn clone(&self) -> Result<HookDecision<T>, AllocError> {
        Ok(*self)
    }
}

impl<T> HookDecision<T> {
    /// Makes a decision of the discipline's own choice, with no policy asked.
    #[inline(always)]
    pub(crate) fn unasked(choice: T) -> HookDecision<T>
        ensures { result ≡ record { choice = choice; by = By.Discipline; steps = 0 } }
    {
        HookDecision {
            choice,
            by: By::Discipline,
            steps: 0,
        }
    }

    /// Makes a decision of a choice, after a policy took this many steps.
    #[inline(always)]
    pub(crate) fn after(chosen: Choice<T>, steps: u32) -> HookDecision<T>
        ensures { result ≡ record { choice = chosen.value; by = chosen.by; steps = steps } }
    {
        HookDecision {
            choice: chosen.value,
            by: chosen.by,
            steps,
        }
    }
}
