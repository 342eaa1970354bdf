//! What the tests assert. Each assertion stands in a function of its own, which owns nothing: a proof of an assertion carries
//! all that its function would drop.

use std::process::Abort;

/// A fact is true.
pub fn is_true(rt: &impl Abort, fact: bool) {
    assert!(rt; fact);
}

/// A number is as expected.
pub fn is_number(rt: &impl Abort, number: u64, expected: u64) {
    assert!(rt; number == expected, "{number}, and wanted is {expected}");
}
