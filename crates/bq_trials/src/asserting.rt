//! What the tests assert. Each assertion stands in a function of its own, which owns nothing: a proof of an assertion carries
//! all that its function would drop. An assertion that shows what it compared costs the proof twice as much, so only two do.

use std::process::Abort;

pub(crate) fn is_true(rt: &impl Abort, fact: bool) {
    assert!(rt; fact);
}

/// It is so; if it is not, the failure shows what was found and what was wanted.
pub(crate) fn holds(rt: &impl Abort, is: bool, found: &str, wanted: &str) {
    assert!(rt; is, "{found}, and wanted is {wanted}");
}

pub(crate) fn is_number(rt: &impl Abort, number: u64, expected: u64) {
    assert!(rt; number == expected, "{number}, and wanted is {expected}");
}

pub(crate) fn is_text(rt: &impl Abort, text: &str, expected: &str) {
    holds(rt, text == expected, text, expected);
}

/// An id is that of a task, or of none.
pub(crate) fn is_task(rt: &impl Abort, id: Option<u16>, expected: Option<u16>) {
    is_true(rt, id == expected);
}
