//! Why words lead to no command: they are refused, they ask for help, or memory ran out.
ghost use Rattle.std.specs.Prelude.{◌≡◌};
ghost use Rattle.bq_console.specs.Words.{words_fault};

use std::alloc::{AllocError, AllocFailed};
use thiserror::Error;

/// Why words lead to no command.
#[derive(Debug, Drop, Error)]
pub enum WordsFault {
    /// They are refused, or they ask for help. The text says so, with its line ends.
    #[error("{0}")]
    Words(String),
    #[error("out of memory")]
    OutOfMemory,
}

/// The fault of words, with the text that says what is wrong, if there is memory for it.
pub fn words_fault(text: Result<String, AllocError>) -> WordsFault
    ensures { result ≡ words_fault text }
{
    match text {
        Ok(text) => WordsFault::Words(text),
        Err(_) => WordsFault::OutOfMemory,
    }
}

impl From<AllocError> for WordsFault {
    ghost use Rattle.bq_console.specs.declared.fault.WordsFault.TheVariants.{OutOfMemory};

    ghost from_gives = { λ _ e. e ≡ OutOfMemory };

    fn from(_e: AllocError) -> WordsFault {
        WordsFault::OutOfMemory
    }
}

impl<T: Drop> From<AllocFailed<T>> for WordsFault {
    ghost use Rattle.bq_console.specs.declared.fault.WordsFault.TheVariants.{OutOfMemory};

    ghost from_gives = { λ _ e. e ≡ OutOfMemory };

    fn from(_e: AllocFailed<T>) -> WordsFault {
        WordsFault::OutOfMemory
    }
}
