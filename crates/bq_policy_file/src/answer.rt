//! What a command writes for its input.
ghost use Rattle.std.specs.Prelude.{◌≡◌, IfOk, true, false, string_bytes};
ghost use Rattle.bq_words.specs.Refused.{refused_line};

use std::alloc::{AllocError, Global};

/// What a command answers for its input.
#[derive(Drop)]
pub struct Answer {
    /// The text for standard output, with its line ends.
    pub text: String,
    /// Whether the input was accepted. If it was not, the text is the line that refuses it.
    pub accepted: bool,
}

impl Answer {
    /// The text of an input that was accepted.
    pub fn accepted(text: String) -> Answer
        ensures text { string_bytes result.text ≡ string_bytes text }
        ensures accepted { result.accepted ≡ true }
    {
        Answer {
            text,
            accepted: true,
        }
    }

    /// The line that refuses an input.
    pub fn refused(alloc: Global, reason: &str) -> Result<Answer, AllocError>
        ensures text { IfOk result (λ a. string_bytes a.text ≡ refused_line reason.now) }
        ensures refused { IfOk result (λ a. a.accepted ≡ false) }
    {
        let text = format!(in alloc; "refused {reason}\n")?;
        Ok(Answer {
            text,
            accepted: false,
        })
    }
}
