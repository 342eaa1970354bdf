//! Why words give no inputs.
use bq_console::{WordsFault, value_words, words_fault};
use std::alloc::Global;

/// Makes the fault of what an option is given, with what is right, as in `--counter "3": a counter is set as 3=10`.
pub(crate) fn refused(alloc: Global, option: &str, given: &str, right: &str) -> WordsFault {
    words_fault(value_words(alloc, option, given, right, ""))
}
