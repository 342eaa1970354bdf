//! How a policy's answer is put into words.

use crate::answers::answer;
use bq_hooks::Hook;
use bq_trace::{AnyCore, AnyCpu};
use std::alloc::AllocError;

/// The outcome of asking a policy: the steps that the policy took, and its answer if the answer is known.
#[derive(Clone, Copy)]
pub(crate) struct Asked {
    /// The instructions that the policy took, 0 if no policy was asked.
    steps: u32,
    /// The number that the policy answered, if it is known.
    answer: Option<u64>,
}

impl Asked {
    /// Returns the outcome if no policy was asked.
    pub fn nobody() -> Asked {
        Asked {
            steps: 0,
            answer: None,
        }
    }

    /// Returns the outcome if the policy at a hook of a processor took this many steps.
    pub fn at(machine: &AnyCore, processor: u8, hook: Hook, steps: u32) -> Asked {
        let answer = match machine.cpu(processor) {
            Some(AnyCpu::Cfs(cpu)) => answer(cpu, hook, steps),
            Some(AnyCpu::Eevdf(cpu)) => answer(cpu, hook, steps),
            None => None,
        };
        Asked { steps, answer }
    }

    /// Adds what the policy at a hook answered.
    pub fn write_answer(&self, text: &mut String, hook: &str) -> Result<(), AllocError> {
        let steps = self.steps;
        match self.answer {
            Some(answer) => write!(
                text,
                "policy at {hook} answered {answer} (steps: {steps})\n"
            ),
            None => write!(text, "policy at {hook} answered so (steps: {steps})\n"),
        }
    }

    /// Adds that the policy's answer is not permitted, if the answer is known. Call this if the discipline decided.
    pub fn write_overruled(&self, text: &mut String) -> Result<(), AllocError> {
        let steps = self.steps;
        match self.answer {
            Some(answer) => write!(
                text,
                "policy's answer {answer} is not permitted (steps: {steps}); "
            ),
            None => Ok(()),
        }
    }
}
