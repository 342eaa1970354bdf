//! What a command answers.

/// What a command answers, with its line ends.
#[derive(Drop)]
pub enum Answered {
    /// The command did what was asked; the text is the result.
    Done(String),
    /// The policy is refused; the text says why.
    Refused(String),
    /// The words are refused; the text says why.
    Words(String),
}
